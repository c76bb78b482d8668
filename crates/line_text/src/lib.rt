// The value of a line of algebra over an album, as text in a slice of bytes. The line and the album come in one input: the line, byte 0A,
// the album.
#![tactic(auto)]

ghost use Rattle.std.specs.Prelude.{◌≡◌, length};
ghost use Rattle.report_text.specs.Calls.{text_reply};
ghost use Rattle.report_text.specs.Internal.{Put};
ghost use Rattle.line_text.specs.Calls.{line_of, value_text, line_text, line_text_answer, line_text_written};

use refusal::Refusal;
use report_text::Page;

const LINE_END: u8 = 10;

// The text of a line's value, zeros after it; the program's is that over field 0.
pub fn line_text_over(field: u8, input: &[u8], out: &mut [u8]) -> Result<usize, Refusal>
    ensures answer { text_reply result ≡ line_text_answer field input.now out.old }
    ensures writes { out.new ≡ line_text_written field input.now out.old }
{
    if out.len() != report_text::MAX_TEXT {
        return Err(Refusal::Misfit);
    }
    let mut page = Page::new();
    put_text(field, input, &mut page);
    let n = page.used;
    out[..n].copy_from_slice(&page.bytes[..n]);
    report_text::clear(n, out);
    Ok(n)
}

// The text: the input is cut into the line and the album. Without a byte 0A no album is left.
fn put_text(field: u8, input: &[u8], page: &mut Page)
    requires { page.old.used ≡ 0 }
    ensures { Put (line_text field input.now) page.old.used page.old.bytes page.new.bytes page.new.used }
{
    let end = line_end(input);
    let start = words::smaller(end + 1, input.len());
    let line = &input[..end];
    let album = &input[start..];
    put_value(field, album, line, page);
}

// Where the line ends: at the first byte 0A, or with the input.
fn line_end(input: &[u8]) -> usize
    ensures { result ≡ length (line_of input.now) }
{
    for (i, &byte) in input.iter().enumerate() {
        if byte == LINE_END {
            return i;
        }
    }
    input.len()
}

// The words of the value, or the line of its refusal.
fn put_value(field: u8, album: &[u8], line: &[u8], page: &mut Page)
    requires { page.old.used ≡ 0 }
    ensures { Put (value_text field album.now line.now) page.old.used page.old.bytes page.new.bytes page.new.used }
{
    let mut list = [0u16; refusal::MAX_WORDS];
    match line_values::line_value_over(field, album, line, &mut list) {
        Ok(n) => page.put_words(&list[..n.0 + 1]),
        Err(why) => page.put_refused(why),
    }
}
