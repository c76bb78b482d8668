// Lists of words: their two counters and the power between them, and what every call refuses in a list.
#![tactic(auto)]

ghost use Rattle.std.specs.Prelude.{◌≡◌, [], ◌∷◌, ◌-◌};
ghost use Rattle.refusal.specs.Lowest.{lowest};
ghost use Rattle.field.specs.Fields.{modulus, longest};
ghost use Rattle.lists.specs.Degrees.{naive_degree, significant, extent, power, searched};
ghost use Rattle.lists.specs.Refused.{wrong_length, has_loose, list_refusals};

use refusal::Refusal;

// The number of words of a list less 1.
#[derive(Clone, Copy)]
pub struct NaiveDegree(pub usize);

// The largest index whose word is not 0.
#[derive(Clone, Copy)]
pub struct Extent(pub usize);

// The number of factors 1-t: the naive degree less the extent.
#[derive(Clone, Copy)]
pub struct Power(pub usize);

// What the search from the top gives: the number of words up to the last one that is not 0, and how many words it has read.
#[derive(Clone, Copy)]
pub struct TopSearch {
    pub words: usize,
    pub read: usize,
}

// The power by the two counters; 0 where the extent is the larger one, which no list has.
fn power_of(degree: NaiveDegree, extent: Extent) -> Power
    ensures { result.0 ≡ degree.0 - extent.0 }
{
    Power(degree.0.saturating_sub(extent.0))
}

// The naive degree of a list; 0 where it has no words.
pub fn degree_of(list: &[u16]) -> NaiveDegree
    ensures { result.0 ≡ naive_degree list.now }
{
    NaiveDegree(list.len().saturating_sub(1))
}

// Whether a list has 0 words, or more than a list over the field may have.
fn wrong_length(field: u8, list: &[u16]) -> bool
    ensures { result ≡ wrong_length (longest field) list.now }
{
    list.is_empty() || field::longest_of(field) < list.len()
}

// Whether a word of a list is p or more: whether the largest is. The loop has one way out, so that LLVM takes eight words at a time.
pub fn has_loose(field: u8, list: &[u16]) -> bool
    ensures { result ≡ has_loose (modulus field) list.now }
{
    let mut largest: u16 = 0;
    for &word in list {
        largest = largest.max(word);
    }
    field::modulus_of(field) <= largest
}

// The search for the last word that is not 0: it begins at the last word, ends at the first that is not 0, and counts what it reads.
pub fn search_from_top(list: &[u16]) -> TopSearch
    ensures words { result.words ≡ significant list.now }
    ensures read { result.read ≡ searched list.now }
{
    let mut read = 0;
    for n in (0..list.len()).rev() {
        let word = list[n];
        read += 1;
        if word != 0 {
            return TopSearch { words: n + 1, read };
        }
    }
    TopSearch { words: 0, read }
}

// The number of words up to the last one that is not 0.
pub fn significant_words(list: &[u16]) -> usize
    ensures { result ≡ significant list.now }
{
    search_from_top(list).words
}

// The extent of a list; 0 for a zero list, which has none.
pub fn extent_of(list: &[u16]) -> Extent
    ensures { result.0 ≡ extent list.now }
{
    Extent(significant_words(list).saturating_sub(1))
}

// The power of a list that is not zero.
pub fn power_in(list: &[u16]) -> Power
    ensures { result.0 ≡ power list.now }
{
    power_of(degree_of(list), extent_of(list))
}

// What a call refuses in its one list.
pub fn judge_list(field: u8, list: &[u16]) -> Result<(), Refusal>
    ensures { result ≡ lowest (list_refusals (modulus field) (longest field) (list.now ∷ [])) }
{
    if wrong_length(field, list) {
        return Err(Refusal::Length);
    }
    if has_loose(field, list) {
        return Err(Refusal::LooseWord);
    }
    Ok(())
}

// What a call refuses in its two lists.
pub fn judge_lists(field: u8, f: &[u16], g: &[u16]) -> Result<(), Refusal>
    ensures { result ≡ lowest (list_refusals (modulus field) (longest field) (f.now ∷ g.now ∷ [])) }
{
    if wrong_length(field, f) {
        return Err(Refusal::Length);
    }
    if wrong_length(field, g) {
        return Err(Refusal::Length);
    }
    if has_loose(field, f) {
        return Err(Refusal::LooseWord);
    }
    if has_loose(field, g) {
        return Err(Refusal::LooseWord);
    }
    Ok(())
}
