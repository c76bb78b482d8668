// Every public call as a C function on words in place, for the second implementation (tests/host) and the bench: no part of the engine's
// calls, and none of what it offers to a C host (crates/bernstein). Each function is the call that it names and returns the refusal's number, 0
// when the call completes; `note` writes the answer's values, if it has any, to a lent slice of exactly as many numbers, and leaves a slice
// of another length as it came. tests/calls.h declares them.
#![tactic(auto)]

ghost use Rattle.std.specs.Prelude.{◌≡◌, List, [], ◌∷◌, ℕ, option_map, option_to_list, length};
ghost use Rattle.field.specs.Calls.{word_sum_answer, word_difference_answer, word_product_answer};
ghost use Rattle.field_inverse.specs.Calls.{inverse_answer};
ghost use Rattle.list_product.specs.Calls.{product_answer, product_written, raise_answer, raise_written};
ghost use Rattle.list_sum.specs.Calls.{sum_answer, sum_written, difference_written};
ghost use Rattle.list_extent.specs.Calls.{searched_reply, extent_answer, searched_answer, trim_answer, trim_written};
ghost use Rattle.list_derivative.specs.Calls.{derivative_answer, derivative_written};
ghost use Rattle.list_value.specs.Calls.{evaluate_answer};
ghost use Rattle.list_division.specs.Calls.{divide_answer, quotient_written, remainder_written};
ghost use Rattle.list_powers.specs.Powers.{degree_found};
ghost use Rattle.list_ordinary_division.specs.Calls.{ordinary_answer, ordinary_quotient_written, ordinary_remainder_written};
ghost use Rattle.list_gcd.specs.Calls.{gcd_answer, gcd_written};
ghost use Rattle.list_cofactors.specs.Calls.{cofactor_answer, cofactor_gcd, cofactors_written_a, cofactors_written_b};
ghost use Rattle.album_layout.specs.Calls.{check_answer, body_of};
ghost use Rattle.album_reader.specs.Calls.{read_answer, read_written};
ghost use Rattle.album_writer.specs.Calls.{write_answer, write_written};
ghost use Rattle.album_contents.specs.Calls.{contents_answer, contents_written};
ghost use Rattle.album_gcd.specs.Calls.{album_gcd_answer, album_gcd_written};
ghost use Rattle.line_values.specs.Calls.{line_answer, line_written};
ghost use Rattle.test_calls.specs.Lent.{fitted, told_reply};

use album_contents::Entry;
use list_extent::Search;
use list_gcd::Gcd;
use lists::NaiveDegree;
use refusal::Refusal;

// What a function returns whose call completes.
const COMPLETED: u8 = 0;

// The sum of two coefficients.
#[unsafe(no_mangle)]
pub extern "C" fn test_field_sum(a: u16, b: u16, answer: &mut [usize]) -> u8
    ensures number { result ≡ (word_sum_answer 0 a b).number }
    ensures values { answer.new ≡ fitted (word_sum_answer 0 a b).values answer.old }
{
    note(field_calls::sum(a, b), answer)
}

// The difference of two coefficients.
#[unsafe(no_mangle)]
pub extern "C" fn test_field_difference(a: u16, b: u16, answer: &mut [usize]) -> u8
    ensures number { result ≡ (word_difference_answer 0 a b).number }
    ensures values { answer.new ≡ fitted (word_difference_answer 0 a b).values answer.old }
{
    note(field_calls::difference(a, b), answer)
}

// The product of two coefficients.
#[unsafe(no_mangle)]
pub extern "C" fn test_field_product(a: u16, b: u16, answer: &mut [usize]) -> u8
    ensures number { result ≡ (word_product_answer 0 a b).number }
    ensures values { answer.new ≡ fitted (word_product_answer 0 a b).values answer.old }
{
    note(field_calls::product(a, b), answer)
}

// The inverse of a coefficient.
#[unsafe(no_mangle)]
pub extern "C" fn test_inverse(a: u16, answer: &mut [usize]) -> u8
    ensures number { result ≡ (inverse_answer 0 a).number }
    ensures values { answer.new ≡ fitted (inverse_answer 0 a).values answer.old }
{
    note(field_calls::inverse(a), answer)
}

// The product of two lists.
#[unsafe(no_mangle)]
pub extern "C" fn test_product(f: &[u16], g: &[u16], out: &mut [u16]) -> u8
    ensures number { result ≡ (product_answer 0 f.now g.now out.old).number }
    ensures writes { out.new ≡ product_written 0 f.now g.now out.old }
{
    refusal::outcome_number(list_calls::product(f, g, out))
}

// A list raised to a naive degree.
#[unsafe(no_mangle)]
pub extern "C" fn test_raise(f: &[u16], to: usize, out: &mut [u16]) -> u8
    ensures number { result ≡ (raise_answer 0 f.now to out.old).number }
    ensures writes { out.new ≡ raise_written 0 f.now to out.old }
{
    refusal::outcome_number(list_calls::raise(f, NaiveDegree(to), out))
}

// The sum of two lists.
#[unsafe(no_mangle)]
pub extern "C" fn test_sum(f: &[u16], g: &[u16], out: &mut [u16]) -> u8
    ensures number { result ≡ (sum_answer 0 f.now g.now out.old).number }
    ensures writes { out.new ≡ sum_written 0 f.now g.now out.old }
{
    refusal::outcome_number(list_calls::sum(f, g, out))
}

// The difference of two lists.
#[unsafe(no_mangle)]
pub extern "C" fn test_difference(f: &[u16], g: &[u16], out: &mut [u16]) -> u8
    ensures number { result ≡ (sum_answer 0 f.now g.now out.old).number }
    ensures writes { out.new ≡ difference_written 0 f.now g.now out.old }
{
    refusal::outcome_number(list_calls::difference(f, g, out))
}

// The extent of a list; a zero list has none, and the answer is left as it came.
#[unsafe(no_mangle)]
pub extern "C" fn test_find_extent(f: &[u16], answer: &mut [usize]) -> u8
    ensures number { result ≡ (extent_answer 0 f.now).number }
    ensures values { answer.new ≡ fitted (extent_answer 0 f.now).values answer.old }
{
    note(list_calls::find_extent(f), answer)
}

// The same call, and how many words its search read.
#[unsafe(no_mangle)]
pub extern "C" fn test_searched(f: &[u16], answer: &mut [usize]) -> u8
    ensures number { result ≡ (searched_answer 0 f.now).number }
    ensures values { answer.new ≡ fitted (searched_answer 0 f.now).values answer.old }
{
    note_read(list_calls::find_extent(f), answer)
}

// A list less its top zeros.
#[unsafe(no_mangle)]
pub extern "C" fn test_trim(f: &[u16], out: &mut [u16]) -> u8
    ensures number { result ≡ (trim_answer 0 f.now out.old).number }
    ensures writes { out.new ≡ trim_written 0 f.now out.old }
{
    refusal::outcome_number(list_calls::trim(f, out))
}

// The derivative of a list.
#[unsafe(no_mangle)]
pub extern "C" fn test_derivative(f: &[u16], out: &mut [u16]) -> u8
    ensures number { result ≡ (derivative_answer 0 f.now out.old).number }
    ensures writes { out.new ≡ derivative_written 0 f.now out.old }
{
    refusal::outcome_number(list_calls::derivative(f, out))
}

// The value of f at x.
#[unsafe(no_mangle)]
pub extern "C" fn test_evaluate(f: &[u16], x: u16, answer: &mut [usize]) -> u8
    ensures number { result ≡ (evaluate_answer 0 f.now x).number }
    ensures values { answer.new ≡ fitted (evaluate_answer 0 f.now x).values answer.old }
{
    note(list_calls::evaluate(f, x), answer)
}

// g divided by f.
#[unsafe(no_mangle)]
pub extern "C" fn test_divide(g: &[u16], f: &[u16], q: &mut [u16], r: &mut [u16]) -> u8
    ensures number { result ≡ (divide_answer 0 g.now f.now q.old r.old).number }
    ensures quotient { q.new ≡ quotient_written 0 g.now f.now q.old r.old }
    ensures remainder { r.new ≡ remainder_written 0 g.now f.now q.old r.old }
{
    refusal::outcome_number(list_calls::divide(g, f, q, r))
}

// g divided by f in the usual sense.
#[unsafe(no_mangle)]
pub extern "C" fn test_divide_ordinary(g: &[u16], f: &[u16], q: &mut [u16], r: &mut [u16]) -> u8
    ensures number { result ≡ (ordinary_answer 0 g.now f.now q.old r.old).number }
    ensures quotient { q.new ≡ ordinary_quotient_written 0 g.now f.now q.old r.old }
    ensures remainder { r.new ≡ ordinary_remainder_written 0 g.now f.now q.old r.old }
{
    refusal::outcome_number(list_calls::divide_ordinary(g, f, q, r))
}

// The degree in t of a list, which is behind no call: what a worker of the engine finds.
#[unsafe(no_mangle)]
pub extern "C" fn test_degree_in_t(list: &[u16]) -> usize
    ensures { result ≡ degree_found 0 list.now }
{
    list_powers::degree_in_t(0, list).0
}

// The GCD of two lists; the answer is w, c and rounds.
#[unsafe(no_mangle)]
pub extern "C" fn test_gcd(f: &[u16], g: &[u16], h: &mut [u16], answer: &mut [usize]) -> u8
    ensures number { result ≡ (gcd_answer 0 f.now g.now h.old).number }
    ensures writes { h.new ≡ gcd_written 0 f.now g.now h.old }
    ensures values { answer.new ≡ fitted (gcd_answer 0 f.now g.now h.old).values answer.old }
{
    note(list_calls::gcd_of(f, g, h), answer)
}

// The GCD of two lists with its cofactors; the answer is w, c and rounds.
#[unsafe(no_mangle)]
pub extern "C" fn test_cofactors(
    f: &[u16],
    g: &[u16],
    h: &mut [u16],
    a: &mut [u16],
    b: &mut [u16],
    answer: &mut [usize],
) -> u8
    ensures number { result ≡ (cofactor_answer 0 f.now g.now h.old a.old b.old).number }
    ensures gcd { h.new ≡ cofactor_gcd 0 f.now g.now h.old a.old b.old }
    ensures cofactor_a { a.new ≡ cofactors_written_a 0 f.now g.now h.old a.old b.old }
    ensures cofactor_b { b.new ≡ cofactors_written_b 0 f.now g.now h.old a.old b.old }
    ensures values { answer.new ≡ fitted (cofactor_answer 0 f.now g.now h.old a.old b.old).values answer.old }
{
    note(list_calls::find_cofactors(f, g, h, a, b), answer)
}

// The check of an album with an index.
#[unsafe(no_mangle)]
pub extern "C" fn test_check(album: &[u8], i: usize) -> u8
    ensures number { result ≡ (check_answer 0 album.now i).number }
{
    refusal::outcome_number(album_calls::check(album, i))
}

// The bytes of list i, in a slice of exactly their number. The call has no number to return: the number of its bytes, 0 when refused.
#[unsafe(no_mangle)]
pub extern "C" fn test_body(album: &[u8], i: usize, out: &mut [u8]) -> usize
    ensures answer { result ≡ length (body_of 0 album.now i) }
    ensures writes { out.new ≡ fitted (body_of 0 album.now i) out.old }
{
    let part = album_calls::body(album, i);
    if out.len() == part.len() {
        copy(part, out);
    }
    part.len()
}

// The bytes of one slice in another, which is as long. A loop of its own: LLVM makes memcpy of it, where it makes memmove of
// `copy_from_slice` between what a caller lends, and the archive is to ask for no more names than the engine does.
fn copy(from: &[u8], to: &mut [u8])
    requires { length from.now ≡ length to.old }
    ensures { to.new ≡ from.now }
{
    for (k, byte) in from.iter().enumerate() {
        to[k] = *byte;
    }
}

// List i of an album; the answer is its naive degree.
#[unsafe(no_mangle)]
pub extern "C" fn test_read_list(
    album: &[u8],
    i: usize,
    out: &mut [u16],
    answer: &mut [usize],
) -> u8
    ensures number { result ≡ (read_answer 0 album.now i out.old).number }
    ensures writes { out.new ≡ read_written 0 album.now i out.old }
    ensures values { answer.new ≡ fitted (read_answer 0 album.now i out.old).values answer.old }
{
    note(album_calls::read_list(album, i, out), answer)
}

// The value of a line of algebra over an album; the answer is its naive degree.
#[unsafe(no_mangle)]
pub extern "C" fn test_line_value(
    album: &[u8],
    line: &[u8],
    out: &mut [u16],
    answer: &mut [usize],
) -> u8
    ensures number { result ≡ (line_answer 0 album.now line.now out.old).number }
    ensures writes { out.new ≡ line_written 0 album.now line.now out.old }
    ensures values { answer.new ≡ fitted (line_answer 0 album.now line.now out.old).values answer.old }
{
    note(album_calls::line_value(album, line, out), answer)
}

// The album of some lists; the answer is the number of its bytes.
#[unsafe(no_mangle)]
pub extern "C" fn test_write_album(
    words: &[u16],
    degrees: &[u16],
    out: &mut [u8],
    answer: &mut [usize],
) -> u8
    ensures number { result ≡ (write_answer 0 words.now degrees.now out.old).number }
    ensures writes { out.new ≡ write_written 0 words.now degrees.now out.old }
    ensures values { answer.new ≡ fitted (write_answer 0 words.now degrees.now out.old).values answer.old }
{
    note(album_calls::write_album(words, degrees, out), answer)
}

// The contents of an album as records.
#[unsafe(no_mangle)]
pub extern "C" fn test_contents(album: &[u8], out: &mut [Entry]) -> u8
    ensures number { result ≡ (contents_answer 0 album.now out.old).number }
    ensures writes { out.new ≡ contents_written 0 album.now out.old }
{
    refusal::outcome_number(album_contents::contents(album, out))
}

// The GCD of an album; the answer is w, c and rounds.
#[unsafe(no_mangle)]
pub extern "C" fn test_gcd_of_album(album: &[u8], h: &mut [u16], answer: &mut [usize]) -> u8
    ensures number { result ≡ (album_gcd_answer 0 album.now h.old).number }
    ensures writes { h.new ≡ album_gcd_written 0 album.now h.old }
    ensures values { answer.new ≡ fitted (album_gcd_answer 0 album.now h.old).values answer.old }
{
    note(album_calls::gcd_of_album(album, h), answer)
}

// What an answer hands back, as numbers.
trait Told: Copy {
    ghost told: { Self → List ℕ };

    // Offers the numbers to a slice.
    fn offer(self, answer: &mut [usize])
        ensures { answer.new ≡ fitted (told self) answer.old };
}

impl Told for usize {
    ghost told = { λ n. n ∷ [] };

    fn offer(self, answer: &mut [usize]) {
        offer_one(self, answer);
    }
}

impl Told for u16 {
    ghost told = { λ n. n ∷ [] };

    fn offer(self, answer: &mut [usize]) {
        offer_one(usize::from(self), answer);
    }
}

impl Told for NaiveDegree {
    ghost told = { λ degree. degree.0 ∷ [] };

    fn offer(self, answer: &mut [usize]) {
        offer_one(self.0, answer);
    }
}

impl Told for Search {
    ghost told = { λ search. option_to_list (option_map (λ e. e.0) search.extent) };

    fn offer(self, answer: &mut [usize]) {
        if let Some(extent) = self.extent {
            offer_one(extent.0, answer);
        }
    }
}

impl Told for Gcd {
    ghost told = { λ gcd. gcd.degree.0 ∷ gcd.power.0 ∷ gcd.rounds.0 ∷ [] };

    fn offer(self, answer: &mut [usize]) {
        if answer.len() == 3 {
            answer[0] = self.degree.0;
            answer[1] = self.power.0;
            answer[2] = self.rounds.0;
        }
    }
}

fn offer_one(value: usize, answer: &mut [usize])
    ensures { answer.new ≡ fitted (value ∷ []) answer.old }
{
    if answer.len() == 1 {
        answer[0] = value;
    }
}

// The number of an answer; what it hands back is offered to a slice.
fn note<T: Told>(found: Result<T, Refusal>, answer: &mut [usize]) -> u8
    ensures number { result ≡ (told_reply T.told found).number }
    ensures values { answer.new ≡ fitted (told_reply T.told found).values answer.old }
{
    match found {
        Ok(told) => {
            told.offer(answer);
            COMPLETED
        }
        Err(why) => u8::from(why),
    }
}

// The same of a search for an extent, and how many words it read.
fn note_read(found: Result<Search, Refusal>, answer: &mut [usize]) -> u8
    ensures number { result ≡ (searched_reply found).number }
    ensures values { answer.new ≡ fitted (searched_reply found).values answer.old }
{
    match found {
        Ok(search) => {
            offer_one(search.read.0, answer);
            COMPLETED
        }
        Err(why) => u8::from(why),
    }
}
