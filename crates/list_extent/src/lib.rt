// The extent of a list, and a list with its top zeros removed.
#![tactic(auto)]

ghost use Rattle.std.specs.Prelude.{◌≡◌, ◌≤◌, length};
ghost use Rattle.refusal.specs.Limits.{max_words};
ghost use Rattle.field.specs.Fields.{modulus, field_at, longest};
ghost use Rattle.refusal.specs.Refusal.{outcome_reply};
ghost use Rattle.refusal.specs.Lowest.{lowest};
ghost use Rattle.lists.specs.Operations as of;
ghost use Rattle.list_extent.specs.Calls.{extent_reply, searched_reply, trim_rows, extent_answer, searched_answer, trim_answer, trim_written};
ghost use Rattle.list_extent.specs.Internal.{TrimFits};

use lists::Extent;
use refusal::Refusal;

// The number of words that a search has read.
#[derive(Clone, Copy)]
pub struct Searched(pub usize);

// What a search for the extent finds, and how many words it read: a zero list has no extent.
#[derive(Clone, Copy)]
pub struct Search {
    pub extent: Option<Extent>,
    pub read: Searched,
}

// The extent over a field.
pub fn extent_over(field: u8, f: &[u16]) -> Result<Search, Refusal>
    ensures answer { extent_reply result ≡ extent_answer field f.now }
    ensures read { searched_reply result ≡ searched_answer field f.now }
{
    lists::judge_list(field, f)?;
    let search = lists::search_from_top(f);
    let read = Searched(search.read);
    match search.words.checked_sub(1) {
        Some(top) => Ok(Search {
            extent: Some(Extent(top)),
            read,
        }),
        None => Ok(Search { extent: None, read }),
    }
}

// The trim over a field.
pub fn trim_over(field: u8, f: &[u16], out: &mut [u16]) -> Result<(), Refusal>
    ensures answer { outcome_reply result ≡ trim_answer field f.now out.old }
    ensures writes { out.new ≡ trim_written field f.now out.old }
{
    judge_trim(field, f, out)?;
    trim_into(field, f, out);
    Ok(())
}

// What a trim refuses.
fn judge_trim(field: u8, f: &[u16], out: &[u16]) -> Result<(), Refusal>
    ensures { result ≡ lowest (trim_rows (modulus field) (longest field) f.now out.now) }
{
    lists::judge_list(field, f)?;
    let n = lists::significant_words(f);
    if n == 0 {
        return Err(Refusal::AllZero);
    }
    if out.len() != n {
        return Err(Refusal::Misfit);
    }
    Ok(())
}

// The scaled form of f in s, and the list of as many of its words as out has.
fn trim_in(field: u8, f: &[u16], s: &mut [u16], out: &mut [u16])
    requires trim_fits { TrimFits (longest field) f.now out.old }
    requires s_len { length s.old ≡ length f.now }
    ensures { out.new ≡ of.trim (field_at field) f.now }
{
    let whole = field_tables::factorials(field);
    let part = field_tables::inverse_factorials(field);
    word_scaling::weigh(field, f, whole, part, s);
    word_scaling::weigh(field, s, part, whole, out);
}

// The trim of a list that is not refused, in an array of N words, which is filled with zeros.
fn trim_sized<const N: usize>(field: u8, f: &[u16], out: &mut [u16])
    requires trim_fits { TrimFits (longest field) f.now out.old }
    requires size { (length f.now ≤ N) × (N ≤ max_words) }
    ensures { out.new ≡ of.trim (field_at field) f.now }
{
    let n = f.len();
    let mut s = [0u16; N];
    trim_in(field, f, &mut s[..n], out);
}

// The same in an array of the size that the list needs.
fn trim_into(field: u8, f: &[u16], out: &mut [u16])
    requires { TrimFits (longest field) f.now out.old }
    ensures { out.new ≡ of.trim (field_at field) f.now }
{
    if f.len() <= refusal::FEW_WORDS {
        trim_sized::<{ refusal::FEW_WORDS }>(field, f, out);
        return;
    }
    trim_sized::<{ refusal::MAX_WORDS }>(field, f, out);
}
