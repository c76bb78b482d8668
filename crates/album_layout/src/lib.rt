// The layout of an album: what a call on it refuses, and a list's bytes as a part of the album itself.
#![tactic(auto)]

ghost use Rattle.std.specs.Prelude.{Ok, ◌≡◌, ◌<◌, length};
ghost use Rattle.refusal.specs.Refusal.{outcome_reply};
ghost use Rattle.refusal.specs.Lowest.{lowest};
ghost use Rattle.field.specs.Fields.{modulus};
ghost use Rattle.lists.specs.Refused.{has_loose, any_of};
ghost use Rattle.album_layout.specs.Layout.{lists_of};
ghost use Rattle.album_layout.specs.Calls.{album_refusals, check_refusals, check_answer, body_of, body_place, PartFrom};
ghost use Rattle.album_layout.specs.Internal.{layout_refusals, Obeys, body_at, place_at};

use refusal::Refusal;

// What every call on the album refuses.
pub fn judge_album(field: u8, album: &[u8]) -> Result<(), Refusal>
    ensures { result ≡ lowest (album_refusals (modulus field) album.now) }
{
    judge_layout(album)?;
    if has_loose_word(field, album) {
        return Err(Refusal::LooseWord);
    }
    Ok(())
}

// What a call on list i refuses.
pub fn judge_call(field: u8, album: &[u8], i: usize) -> Result<(), Refusal>
    ensures { result ≡ lowest (check_refusals (modulus field) album.now i) }
{
    judge_layout(album)?;
    if words::byte_at(album, 0) <= i {
        return Err(Refusal::Index);
    }
    if has_loose_word(field, album) {
        return Err(Refusal::LooseWord);
    }
    Ok(())
}

// The refusal that applies to a call on list i.
pub fn check_over(field: u8, album: &[u8], i: usize) -> Result<(), Refusal>
    ensures answer { outcome_reply result ≡ check_answer field album.now i }
{
    judge_call(field, album, i)
}

// The bytes of list i, as a part of the album itself; the empty part when refused.
pub fn body_over(field: u8, album: &[u8], i: usize) -> &[u8]
    ensures part { result.now ≡ body_of field album.now i }
    ensures place { PartFrom album.entry (body_place field album.now i) result }
    ensures some { lowest (check_refusals (modulus field) album.now i) ≡ Ok tt → 0 < length result.now }
{
    if judge_call(field, album, i).is_err() {
        return &album[0..0];
    }
    body_at(album, i)
}

// The bytes that entry i names, as a part of the album itself; the empty part where there is no such entry, or they do not lie inside the
// album. Nothing is judged.
pub fn body_at(album: &[u8], i: usize) -> &[u8]
    ensures part { result.now ≡ body_at album.now i }
    ensures place { PartFrom album.entry (place_at album.now i) result }
{
    let lists = words::byte_at(album, 0);
    if lists <= i {
        return &album[0..0];
    }
    let e = 1 + refusal::ENTRY_BYTES * i;
    let from = words::word_at(album, e + 2);
    let to = from + 2 * (words::word_at(album, e) + 1);
    if album.len() < to {
        return &album[0..0];
    }
    &album[from..to]
}

// What the layout of an album refuses: `at` is where the next body has to start.
pub fn judge_layout(album: &[u8]) -> Result<(), Refusal>
    ensures { result ≡ lowest (layout_refusals album.now) }
{
    let n = words::byte_at(album, 0);
    if album.is_empty() || n == 0 || refusal::MAX_LISTS < n {
        return Err(Refusal::Count);
    }
    let mut at = 1 + refusal::ENTRY_BYTES * n;
    if album.len() < at {
        return Err(Refusal::Contents);
    }
    for k in 0..n {
        let e = 1 + refusal::ENTRY_BYTES * k;
        let degree = words::word_at(album, e);
        if refusal::MAX_DEGREE < degree || words::word_at(album, e + 2) != at {
            return Err(Refusal::Contents);
        }
        at += 2 * (degree + 1);
    }
    if album.len() != at {
        return Err(Refusal::Contents);
    }
    Ok(())
}

// Whether a list of the album has a loose word: the bodies' words stand one after the other up to the end.
fn has_loose_word(field: u8, album: &[u8]) -> bool
    requires { Obeys album.now }
    ensures { result ≡ any_of (has_loose (modulus field)) (lists_of album.now) }
{
    let p = field::modulus_of(field);
    let bodies = &album[1 + refusal::ENTRY_BYTES * words::byte_at(album, 0)..];
    let (pairs, _) = bodies.as_chunks::<2>();
    pairs.iter().any(|&pair| p <= u16::from_le_bytes(pair))
}
