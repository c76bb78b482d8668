// A text that is put at a place in a slice of bytes: each function returns the place after it. The other bytes stay.
ghost use Rattle.std.specs.Prelude.{◌≡◌, [], ◌∷◌, map, ◌≤◌, ◌<◌, length, take};
ghost use Rattle.lists.specs.Padded.{padded};
ghost use Rattle.report_text.specs.Text.{decimal, line};
ghost use Rattle.report_text.specs.Report.{refused_line};
ghost use Rattle.report_text.specs.Internal.{Room, Put};

use refusal::Refusal;

// Zeros from a place on.
pub fn clear(from: usize, out: &mut [u8])
    requires { from ≤ length out.old }
    ensures { out.new ≡ padded (length out.old) (take from out.old) }
{
    out[from..].fill(0);
}

// One byte.
pub fn put(byte: u8, at: usize, out: &mut [u8]) -> usize
    requires { Room (byte ∷ []) at out.old }
    ensures { Put (byte ∷ []) at out.old out.new result }
{
    out[at] = byte;
    at + 1
}

// Some bytes.
pub fn put_bytes(bytes: &[u8], at: usize, out: &mut [u8]) -> usize
    requires { Room bytes.now at out.old }
    ensures { Put bytes.now at out.old out.new result }
{
    let mut place = at;
    for &byte in bytes {
        place = put(byte, place, out);
    }
    place
}

// A number in decimal digits.
pub fn put_number(n: usize, at: usize, out: &mut [u8]) -> usize
    requires { Room (decimal n) at out.old }
    ensures { Put (decimal n) at out.old out.new result }
{
    if n < 10 {
        return put(b'0' + n as u8, at, out);
    }
    let last = put_number(n / 10, at, out);
    put(b'0' + (n % 10) as u8, last, out)
}

// A space and a number.
pub fn put_field(n: usize, at: usize, out: &mut [u8]) -> usize
    requires { Room (32 ∷ decimal n) at out.old }
    ensures { Put (32 ∷ decimal n) at out.old out.new result }
{
    let next = put(b' ', at, out);
    put_number(n, next, out)
}

// A line of a name and a number.
pub fn put_named(name: &[u8], n: usize, at: usize, out: &mut [u8]) -> usize
    requires { Room (line (name.now ∷ decimal n ∷ [])) at out.old }
    ensures { Put (line (name.now ∷ decimal n ∷ [])) at out.old out.new result }
{
    let named = put_bytes(name, at, out);
    let end = put_field(n, named, out);
    put(b'\n', end, out)
}

// The line of a refusal.
pub fn put_refused(why: Refusal, at: usize, out: &mut [u8]) -> usize
    requires { Room (refused_line why) at out.old }
    ensures { Put (refused_line why) at out.old out.new result }
{
    put_named(b"refused", u8::from(why) as usize, at, out)
}

// The words of a list on a line, one space between them.
pub fn put_words(h: &[u16], at: usize, out: &mut [u8]) -> usize
    requires { (0 < length h.now) × (Room (line (map decimal h.now)) at out.old) }
    ensures { Put (line (map decimal h.now)) at out.old out.new result }
{
    let mut place = put_number(h[0] as usize, at, out);
    for k in 1..h.len() {
        place = put_field(h[k] as usize, place, out);
    }
    put(b'\n', place, out)
}
