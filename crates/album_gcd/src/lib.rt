// The GCD of an album.
#![tactic(auto)]

ghost use Rattle.std.specs.Prelude.{◌≡◌, ℕ, ◌*◌, ◌≤◌, length, get_or, take};
ghost use Rattle.field.specs.Fields.{modulus, field_at, longest};
ghost use Rattle.refusal.specs.Limits.{max_words, max_lists};
ghost use Rattle.lists.specs.Refused.{IsList};
ghost use Rattle.album_layout.specs.Layout.{lists_of};
ghost use Rattle.album_layout.specs.Internal.{Passed};
ghost use Rattle.album_reader.specs.Internal.{Held};
ghost use Rattle.list_gcd.specs.Calls.{gcd_reply};
ghost use Rattle.album_gcd.specs.Calls.{album_gcd_answer, album_gcd_written, AlbumGreatest};
ghost use Rattle.album_gcd.specs.Internal.{Joined, Folded, Answered};

use list_gcd::{Gcd, Rounds};
use lists::{NaiveDegree, Power};
use refusal::Refusal;

// The GCD of the album's lists: h goes to a slice of as many words as the longest list has, zeros after word w.
pub fn album_gcd_over(field: u8, album: &[u8], h: &mut [u16]) -> Result<Gcd, Refusal>
    ensures answer { gcd_reply result ≡ album_gcd_answer field album.now h.old }
    ensures writes { h.new ≡ album_gcd_written field album.now h.old }
    ensures greatest { AlbumGreatest (field_at field) (lists_of album.now) h.new result }
{
    album_layout::judge_album(field, album)?;
    gcd_into(field, album, h)
}

// The GCD of an album that passed: it lends arrays of zeros, as much of them as the longest list takes.
fn gcd_into(field: u8, album: &[u8], h: &mut [u16]) -> Result<Gcd, Refusal>
    requires { Passed (modulus field) album.now }
    ensures { Answered (field_at field) (longest field) album.now h.old h.new result }
{
    let n = field::longest_of(field);
    let mut list = [0u16; refusal::MAX_WORDS];
    let mut last = [0u16; refusal::MAX_WORDS];
    let mut res = [0u16; refusal::MAX_WORDS];
    gcd_in(
        field,
        album,
        &mut list[..n],
        &mut last[..n],
        &mut res[..n],
        h,
    )
}

// The same by way of buffers. The result stands in one of its own, which comes as zeros, until nothing can be refused any more: a refused
// call leaves h as it came.
fn gcd_in(
    field: u8,
    album: &[u8],
    list: &mut [u16],
    last: &mut [u16],
    res: &mut [u16],
    h: &mut [u16],
) -> Result<Gcd, Refusal>
    requires passed { Passed (modulus field) album.now }
    requires list_len { (length list.old ≡ longest field) × (length last.old ≡ longest field)
        × (length res.old ≡ longest field) }
    requires by_index { (k : ℕ) → get_or res.old k 0 ≡ 0 }
    ensures { Answered (field_at field) (longest field) album.now h.old h.new result }
{
    let found = join_lists(field, album, list, last, res);
    let Some(least) = found.least else {
        return Err(Refusal::AllZero);
    };
    if h.len() != field::longest_of(field) {
        return Err(Refusal::Misfit);
    }
    words::copy(res, h);
    Ok(Gcd {
        degree: NaiveDegree(found.words - 1),
        power: Power(least),
        rounds: Rounds(found.rounds),
    })
}

// The result so far: the number of its words, the rounds that it took, and the least power of the lists that are not zero, if there is one.
#[derive(Clone, Copy)]
struct SoFar {
    words: usize,
    rounds: usize,
    least: Option<usize>,
}

// The result after all lists, each read once. It comes as zeros, the first of which is the zero list [0], where the joining starts.
fn join_lists(field: u8, album: &[u8], list: &mut [u16], last: &mut [u16], res: &mut [u16]) -> SoFar
    requires passed { Passed (modulus field) album.now }
    requires list_len { (length list.old ≡ longest field) × (length last.old ≡ longest field)
        × (length res.old ≡ longest field) }
    requires by_index { (k : ℕ) → get_or res.old k 0 ≡ 0 }
    ensures { Folded (field_at field) (longest field) (lists_of album.now)
        res.new result.words result.rounds result.least }
{
    let mut so_far = SoFar {
        words: 1,
        rounds: 0,
        least: None,
    };
    for k in 0..words::byte_at(album, 0) {
        let n = album_reader::read_at(album, k, list);
        so_far = join_list(field, &list[..n], last, res, so_far);
    }
    so_far
}

// One more list: the result so far becomes the GCD of both, and stays where the list is zero. last is room for a copy of it.
fn join_list(field: u8, list: &[u16], last: &mut [u16], res: &mut [u16], so_far: SoFar) -> SoFar
    requires list { IsList (modulus field) (longest field) list.now }
    requires held { Held (modulus field) (longest field) res.old so_far.words (take so_far.words res.old) }
    requires last_len { (length last.old ≡ longest field) × (so_far.rounds ≤ max_words * max_lists) }
    ensures { Joined (field_at field) (longest field) (take so_far.words res.old) so_far.rounds so_far.least list.now
        res.new result.words result.rounds result.least }
{
    if lists::significant_words(list) == 0 {
        return so_far;
    }
    let power = lists::power_in(list).0;
    words::copy(res, last);
    // Two lists of the album, one of which is not zero: nothing is refused.
    let Ok(gcd) = list_gcd::gcd_over(field, &last[..so_far.words], list, res) else {
        return so_far;
    };
    SoFar {
        words: gcd.degree.0 + 1,
        rounds: so_far.rounds + gcd.rounds.0,
        least: Some(so_far.least.map_or(power, |least| least.min(power))),
    }
}
