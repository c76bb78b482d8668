// An album from a text: a list on each line, its words in decimal.
#![tactic(auto)]

ghost use Rattle.std.specs.Prelude.{◌≡◌, map, ◌-◌, ◌*◌, ◌<◌, length};
ghost use Rattle.std.specs.Iterator.{YieldsFirstRef, item_count};
ghost use Rattle.refusal.specs.Limits.{max_lists, max_words};
ghost use Rattle.refusal.specs.Lowest.{lowest};
ghost use Rattle.lists.specs.Refused.{wrong_length, any_of};
ghost use Rattle.album_writer.specs.Calls.{written_reply};
ghost use Rattle.bind_text.specs.Text.{lines_of, list_of, lists_in, value_of, is_other, has_other};
ghost use Rattle.bind_text.specs.Calls.{text_refusals, bind_answer, bind_written};
ghost use Rattle.bind_text.specs.Internal.{lines_left, words_left, capped, Sound, Loaded};

use refusal::Refusal;

// The most bytes of a text: 16 for each word of the largest album, where five digits and a space would do.
pub const MAX_INPUT: usize = 16 * ALL_WORDS;

// The words of the largest album.
const ALL_WORDS: usize = refusal::MAX_LISTS * refusal::MAX_WORDS;

const LINE_END: u8 = b'\n';

const SPACE: u8 = b' ';

// The largest word.
const MOST_WORD: usize = 65535;

// The album of the lists that a text says, at the front of the target; the program's is that over field 0.
pub fn bind_over(field: u8, text: &[u8], out: &mut [u8]) -> Result<usize, Refusal>
    ensures answer { written_reply result ≡ bind_answer field text.now out.old }
    ensures writes { out.new ≡ bind_written field text.now out.old }
{
    judge_text(text)?;
    let mut words = [0u16; ALL_WORDS];
    let mut degrees = [0u16; refusal::MAX_LISTS];
    let n = read_lines(text, &mut words, &mut degrees);
    let lists = count_lines(text);
    album_writer::write_album_over(field, &words[..n], &degrees[..lists], out)
}

// What a text is refused with before its numbers are read.
fn judge_text(text: &[u8]) -> Result<(), Refusal>
    ensures { result ≡ lowest (text_refusals text.now) }
{
    let lists = count_lines(text);
    if lists == 0 || refusal::MAX_LISTS < lists {
        return Err(Refusal::Count);
    }
    if MAX_INPUT < text.len() {
        return Err(Refusal::Contents);
    }
    if has_other(text) {
        return Err(Refusal::Contents);
    }
    if has_wrong_line(text) {
        return Err(Refusal::Length);
    }
    Ok(())
}

// Whether no text has such a byte. Most bytes are digits, so these are tried first.
#[tactic(auto, unfolding(crate::specs::Text::is_other))]
fn is_other(x: u8) -> bool
    ensures { result ≡ is_other x }
{
    !(x.is_ascii_digit() || x == SPACE || x == LINE_END)
}

// Whether some byte is such.
fn has_other(text: &[u8]) -> bool
    ensures { result ≡ has_other text.now }
{
    text.iter().any(|&x| is_other(x))
}

// The lines that are left of a text, each without its end.
#[derive(Drop)]
struct Lines<'a>(&'a [u8]);

impl<'a> Iterator for Lines<'a> {
    type Item = &'a [u8];

    ghost next_gives = { YieldsFirstRef lines_left };

    ghost remaining = { item_count lines_left };

    fn next(&mut self) -> Option<&'a [u8]> {
        let text = self.0;
        // After the last line end no line begins.
        if text.is_empty() {
            return None;
        }
        match text.iter().position(|&x| x == LINE_END) {
            Some(end) => {
                self.0 = &text[end + 1..];
                Some(&text[..end])
            }
            None => {
                self.0 = &[];
                Some(text)
            }
        }
    }
}

// The numbers that are left of a line, each as its digits.
#[derive(Drop)]
struct Words<'a>(&'a [u8]);

impl<'a> Iterator for Words<'a> {
    type Item = &'a [u8];

    ghost next_gives = { YieldsFirstRef words_left };

    ghost remaining = { item_count words_left };

    fn next(&mut self) -> Option<&'a [u8]> {
        let line = self.0;
        let start = line.iter().position(|&x| x != SPACE)?;
        let word = &line[start..];
        match word.iter().position(|&x| x == SPACE) {
            Some(end) => {
                self.0 = &word[end + 1..];
                Some(&word[..end])
            }
            None => {
                self.0 = &[];
                Some(word)
            }
        }
    }
}

// The number of lines: one ends at each line end, and one more with the text where no line end comes last. Unlike a walk over
// `Lines` the sum has no early way out, so it can be done on many bytes at once.
fn count_lines(text: &[u8]) -> usize
    ensures { result ≡ length (lines_of text.now) }
{
    let ends: usize = text.iter().map(|&x| usize::from(x == LINE_END)).sum();
    match text.last() {
        Some(&x) if x != LINE_END => ends + 1,
        _ => ends,
    }
}

// The number of words that a line says.
fn words_in(line: &[u8]) -> usize
    ensures { result ≡ length (list_of line.now) }
{
    Words(line).count()
}

// Whether a line has no words, or more than a list may have.
#[tactic(auto, unfolding(lists::specs::Refused::wrong_length))]
fn wrong_line(line: &[u8]) -> bool
    ensures { result ≡ wrong_length max_words (list_of line.now) }
{
    let n = words_in(line);
    n == 0 || refusal::MAX_WORDS < n
}

// Whether some line is such.
fn has_wrong_line(text: &[u8]) -> bool
    ensures { result ≡ any_of (wrong_length max_words) (lists_in text.now) }
{
    Lines(text).any(wrong_line)
}

// What a digit stands for.
fn digit(x: u8) -> usize
    ensures { (result ≡ x - 48) × (result < 256) }
{
    usize::from(x).saturating_sub(usize::from(b'0'))
}

// The number that digits say; the largest word where it is larger.
fn number(digits: &[u8]) -> u16
    ensures { result ≡ capped (value_of digits.now) }
{
    digits.iter().fold(0, |value: u16, &x| {
        (10 * usize::from(value) + digit(x)).min(MOST_WORD) as u16
    })
}

// The words of a line, in a slice of exactly so many.
fn read_line(line: &[u8], out: &mut [u16])
    requires { length out.old ≡ length (list_of line.now) }
    ensures { out.new ≡ map capped (list_of line.now) }
{
    for (n, digits) in Words(line).enumerate() {
        out[n] = number(digits);
    }
}

// The words of all lines, one after the other, and the naive degree of each; their number.
fn read_lines(text: &[u8], words: &mut [u16], degrees: &mut [u16]) -> usize
    requires sound { Sound text.now }
    requires words_len { (length words.old ≡ max_lists * max_words) × (length degrees.old ≡ max_lists) }
    ensures { Loaded text.now words.new degrees.new result }
{
    let mut used = 0;
    for (k, line) in Lines(text).enumerate() {
        let n = words_in(line);
        read_line(line, &mut words[used..used + n]);
        degrees[k] = (n - 1) as u16;
        used += n;
    }
    used
}
