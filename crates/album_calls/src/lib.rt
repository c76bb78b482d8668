// The public calls on albums over document 01's field of 65,521 elements, which is field 0. Each is its core at that field, and carries
// the demands themselves: `demand1`, what it refuses; `demand2`, what it computes; `demand3`, what is true of common factors. (`contents`,
// whose slice is of structs, stands in a crate of its own.)
#![tactic(auto)]

ghost use Rattle.std.specs.Prelude.{Ok, ◌≡◌, [], ◌∷◌, ◌<◌, length};
ghost use Rattle.field.specs.Fields.{p, F65521};
ghost use Rattle.refusal.specs.Limits.{max_words};
ghost use Rattle.refusal.specs.Lowest.{lowest};
ghost use Rattle.refusal.specs.Refusal.{outcome_reply};
ghost use Rattle.album_layout.specs.Layout.{lists_of};
ghost use Rattle.album_layout.specs.Calls.{check_refusals, check_answer, body_of, body_place, PartFrom};
ghost use Rattle.album_reader.specs.Calls.{listed_reply, read_rows, read_answer, read_written};
ghost use Rattle.album_writer.specs.Calls.{written_reply, write_rows, write_answer, write_written};
ghost use Rattle.list_gcd.specs.Calls.{gcd_reply};
ghost use Rattle.album_gcd.specs.Calls.{album_gcd_rows, album_gcd_answer, album_gcd_written, AlbumGreatest};
ghost use Rattle.line_values.specs.Calls.{line_rows, line_value, late_of, line_answer, line_written};
ghost use Rattle.statement.specs.Demand1.{Demand1After, Demand1, EmptyRefused, slice_of};
ghost use Rattle.statement.specs.Demand2Calls.{ReadSo, BodySo, WriteSo, LineSo};

use list_gcd::Gcd;
use lists::NaiveDegree;
use refusal::Refusal;

// The refusal that applies to a call on list i.
pub fn check(album: &[u8], i: usize) -> Result<(), Refusal>
    ensures answer { outcome_reply result ≡ check_answer 0 album.now i }
    ensures demand1 { Demand1 (check_refusals p album.now i) (outcome_reply result).number [] }
{
    album_layout::check_over(0, album, i)
}

// The bytes of list i, as a part of the album; the empty part when refused.
pub fn body(album: &[u8], i: usize) -> &[u8]
    ensures part { result.now ≡ body_of 0 album.now i }
    ensures place { PartFrom album.entry (body_place 0 album.now i) result }
    ensures some { lowest (check_refusals p album.now i) ≡ Ok tt → 0 < length result.now }
    ensures demand1 { EmptyRefused (check_refusals p album.now i) result.now }
    ensures demand2 { BodySo F65521 album.now i result.now }
{
    album_layout::body_over(0, album, i)
}

// The words of list i, in a slice of as many words as the longest list has, zeros after them.
pub fn read_list(album: &[u8], i: usize, out: &mut [u16]) -> Result<NaiveDegree, Refusal>
    ensures answer { listed_reply result ≡ read_answer 0 album.now i out.old }
    ensures writes { out.new ≡ read_written 0 album.now i out.old }
    ensures demand1 { Demand1 (read_rows p max_words album.now i out.old) (listed_reply result).number (slice_of out.old out.new ∷ []) }
    ensures demand2 { ReadSo F65521 album.now i out.old out.new (listed_reply result) }
{
    album_reader::read_list_over(0, album, i, out)
}

// The album of the lists that the degrees cut from the words, at the front of a target of at least as many bytes as the largest album has;
// the bytes after it stay as they are. `album` says that the album reads back as these lists, and that one which is accepted is written
// again byte for byte.
pub fn write_album(words: &[u16], degrees: &[u16], out: &mut [u8]) -> Result<usize, Refusal>
    ensures answer { written_reply result ≡ write_answer 0 words.now degrees.now out.old }
    ensures writes { out.new ≡ write_written 0 words.now degrees.now out.old }
    ensures demand1 { Demand1 (write_rows p words.now degrees.now out.old) (written_reply result).number (slice_of out.old out.new ∷ []) }
    ensures album { WriteSo F65521 words.now degrees.now out.old out.new (written_reply result) }
{
    album_writer::write_album_over(0, words, degrees, out)
}

// The GCD of the album's lists: h goes to a slice of as many words as the longest list has, zeros after word w.
pub fn gcd_of_album(album: &[u8], h: &mut [u16]) -> Result<Gcd, Refusal>
    ensures answer { gcd_reply result ≡ album_gcd_answer 0 album.now h.old }
    ensures writes { h.new ≡ album_gcd_written 0 album.now h.old }
    ensures demand1 { Demand1 (album_gcd_rows p max_words album.now h.old) (gcd_reply result).number (slice_of h.old h.new ∷ []) }
    ensures demand3 { AlbumGreatest F65521 (lists_of album.now) h.new result }
{
    album_gcd::album_gcd_over(0, album, h)
}

// What a line of algebra says of the album's lists, in a slice of as many words as the longest list has, zeros after it: `(0+1)*D 2-3` is
// the product of the sum of lists 0 and 1 and the derivative of list 2, less list 3.
pub fn line_value(album: &[u8], line: &[u8], out: &mut [u16]) -> Result<NaiveDegree, Refusal>
    ensures answer { listed_reply result ≡ line_answer 0 album.now line.now out.old }
    ensures writes { out.new ≡ line_written 0 album.now line.now out.old }
    ensures demand1 { Demand1After (line_rows p max_words album.now line.now out.old) (late_of (line_value F65521 max_words album.now line.now)) (listed_reply result).number (slice_of out.old out.new ∷ []) }
    ensures demand2 { LineSo F65521 album.now line.now out.new (listed_reply result) }
{
    line_values::line_value_over(0, album, line, out)
}
