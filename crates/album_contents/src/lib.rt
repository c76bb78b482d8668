// The contents of an album as records that a host lends.
#![tactic(auto)]

ghost use Rattle.std.specs.Prelude.{◌≡◌};
ghost use Rattle.refusal.specs.Refusal.{outcome_reply};
ghost use Rattle.refusal.specs.Lowest.{lowest};
ghost use Rattle.field.specs.Fields.{modulus};
ghost use Rattle.album_contents.specs.Calls.{record_at, contents_rows, contents_answer, contents_written};

use refusal::Refusal;

// Where a list's body starts in the album, and the list's naive degree.
#[repr(C)]
#[derive(Clone, Copy, Debug, PartialEq, Eq)]
pub struct Entry {
    pub offset: u16,
    pub degree: u16,
}

// The records of the album's lists, zeros after the last, in a slice of MAX_LISTS records.
pub fn contents(album: &[u8], out: &mut [Entry]) -> Result<(), Refusal>
    ensures answer { outcome_reply result ≡ contents_answer 0 album.now out.old }
    ensures writes { out.new ≡ contents_written 0 album.now out.old }
{
    judge_contents(0, album, out.len())?;
    for (k, entry) in out.iter_mut().enumerate() {
        *entry = record_at(album, k);
    }
    Ok(())
}

// What a call over a field refuses that is lent n records.
fn judge_contents(field: u8, album: &[u8], n: usize) -> Result<(), Refusal>
    ensures { result ≡ lowest (contents_rows (modulus field) album.now n) }
{
    album_layout::judge_album(field, album)?;
    if n != refusal::MAX_LISTS {
        return Err(Refusal::Misfit);
    }
    Ok(())
}

// The record of list k; zeros after the last list.
fn record_at(album: &[u8], k: usize) -> Entry
    ensures { result ≡ record_at album.now k }
{
    if k < words::byte_at(album, 0) {
        let e = 1 + refusal::ENTRY_BYTES * k;
        let degree = words::word_at(album, e);
        let offset = words::word_at(album, e + 2);
        Entry {
            offset: offset as u16,
            degree: degree as u16,
        }
    } else {
        Entry {
            offset: 0,
            degree: 0,
        }
    }
}
