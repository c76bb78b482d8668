// Reading the lists of an album.
#![tactic(auto)]

ghost use Rattle.std.specs.Prelude.{◌≡◌};
ghost use Rattle.album_reader.specs.Calls.{listed_reply, read_answer, read_written};
ghost use Rattle.album_reader.specs.Internal.{words_read, left_at};

use lists::NaiveDegree;
use refusal::Refusal;

// The words of list i, in a slice of as many words as the longest list has, zeros after them.
pub fn read_list_over(
    field: u8,
    album: &[u8],
    i: usize,
    out: &mut [u16],
) -> Result<NaiveDegree, Refusal>
    ensures answer { listed_reply result ≡ read_answer field album.now i out.old }
    ensures writes { out.new ≡ read_written field album.now i out.old }
{
    album_layout::judge_call(field, album, i)?;
    if out.len() != field::longest_of(field) {
        return Err(Refusal::Misfit);
    }
    Ok(NaiveDegree(read_at(album, i, out) - 1))
}

// The words that entry i names, zeros after them, and their number; nothing and 0 where the slice is too short. Nothing is judged.
pub fn read_at(album: &[u8], i: usize, out: &mut [u16]) -> usize
    ensures answer { result ≡ words_read album.now i out.old }
    ensures writes { out.new ≡ left_at album.now i out.old }
{
    let body = album_layout::body_at(album, i);
    let n = body.len() / 2;
    if out.len() < n {
        return 0;
    }
    words::read_words(body, out);
    n
}
