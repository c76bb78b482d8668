// The album writer: from the words of all lists, one after the other, and the lists' naive degrees, the album's bytes.
#![tactic(auto)]

ghost use Rattle.std.specs.Prelude.{◌≡◌, ◌+◌, ◌*◌, ◌≤◌, ◌<◌, length};
ghost use Rattle.refusal.specs.Limits.{max_degree, max_lists, max_words, entry_bytes};
ghost use Rattle.refusal.specs.Lowest.{lowest};
ghost use Rattle.field.specs.Fields.{modulus};
ghost use Rattle.lists.specs.Bytes.{bytes_of};
ghost use Rattle.album_writer.specs.Cut.{words_for};
ghost use Rattle.album_writer.specs.Calls.{wrong_lists, has_high, write_rows, write_answer, write_written, written_reply};
ghost use Rattle.album_writer.specs.Internal.{entries_by, album_by, Low, Room};

use refusal::Refusal;

// The album of the lists that the degrees cut from the words. The bytes of the target after the album stay as they are.
pub fn write_album_over(
    field: u8,
    words: &[u16],
    degrees: &[u16],
    out: &mut [u8],
) -> Result<usize, Refusal>
    ensures answer { written_reply result ≡ write_answer field words.now degrees.now out.old }
    ensures writes { out.new ≡ write_written field words.now degrees.now out.old }
{
    judge_write(field, words, degrees, out)?;
    let size = 1 + refusal::ENTRY_BYTES * degrees.len() + 2 * words.len();
    write_parts(words, degrees, &mut out[..size]);
    Ok(size)
}

// What writing an album refuses.
fn judge_write(field: u8, words: &[u16], degrees: &[u16], out: &[u8]) -> Result<(), Refusal>
    ensures { result ≡ lowest (write_rows (modulus field) words.now degrees.now out.now) }
{
    if wrong_lists(degrees) {
        return Err(Refusal::Count);
    }
    if has_high(degrees) {
        return Err(Refusal::Contents);
    }
    if words.len() != words_for(degrees) {
        return Err(Refusal::Length);
    }
    if lists::has_loose(field, words) {
        return Err(Refusal::LooseWord);
    }
    if out.len() < refusal::MAX_BYTES {
        return Err(Refusal::Misfit);
    }
    Ok(())
}

// Whether no album has so many lists.
fn wrong_lists(degrees: &[u16]) -> bool
    ensures { result ≡ wrong_lists (length degrees.now) }
{
    degrees.is_empty() || refusal::MAX_LISTS < degrees.len()
}

// Whether a degree is above the limit.
fn has_high(degrees: &[u16]) -> bool
    ensures { result ≡ has_high max_degree degrees.now }
{
    degrees
        .iter()
        .any(|&degree| refusal::MAX_DEGREE < usize::from(degree))
}

// The number of words of the lists together.
fn words_for(degrees: &[u16]) -> usize
    requires { length degrees.now ≤ max_lists }
    ensures { result ≡ words_for degrees.now }
{
    degrees.iter().map(|&degree| usize::from(degree) + 1).sum()
}

// The count, the entries and the bodies: the words of all lists stand as they do in the buffer.
fn write_parts(words: &[u16], degrees: &[u16], out: &mut [u8])
    requires { Room words.now degrees.now out.old }
    ensures { out.new ≡ album_by words.now degrees.now }
{
    let first = 1 + refusal::ENTRY_BYTES * degrees.len();
    out[0] = degrees.len() as u8;
    write_entries(degrees, first, &mut out[1..first]);
    words::write_words(words, &mut out[first..]);
}

// The entries of lists of these degrees, whose first body starts at a place.
fn write_entries(degrees: &[u16], first: usize, out: &mut [u8])
    requires out_len { length out.old ≡ entry_bytes * length degrees.now }
    requires low { Low degrees.now × (first + 2 * max_words * length degrees.now < 65536) }
    ensures { out.new ≡ bytes_of (entries_by first degrees.now) }
{
    let mut place = first;
    for (k, &degree) in degrees.iter().enumerate() {
        let entry = &mut out[refusal::ENTRY_BYTES * k..refusal::ENTRY_BYTES * (k + 1)];
        entry[..2].copy_from_slice(&[words::low(degree), words::high(degree)]);
        let at = place as u16;
        entry[2..].copy_from_slice(&[words::low(at), words::high(at)]);
        place += 2 * (usize::from(degree) + 1);
    }
}
