// The report on an album, as text in a slice of bytes.
#![tactic(auto)]

ghost use Rattle.std.specs.Prelude.{◌≡◌, [], ◌∷◌, map, ◌+◌, ◌≤◌, ◌<◌, length, take};
ghost use Rattle.field.specs.Fields.{modulus, field_at, longest};
ghost use Rattle.refusal.specs.Limits.{max_words};
ghost use Rattle.lists.specs.Padded.{padded};
ghost use Rattle.album_layout.specs.Layout.{lists_of};
ghost use Rattle.album_layout.specs.Internal.{Passed};
ghost use Rattle.report_text.specs.Text.{decimal, line};
ghost use Rattle.report_text.specs.Report.{list_line, list_lines, gcd_degree, gcd_lines, refused_line, sound_report, report_of};
ghost use Rattle.report_text.specs.Calls.{max_text, report_answer, report_written, text_reply};
ghost use Rattle.report_text.specs.Internal.{Room, Put, line_end, max_answer, answer_lines};

mod page;
mod slice;

use list_gcd::Gcd;
use lists::Power;
pub use page::Page;
use refusal::Refusal;
pub use slice::{clear, put_refused, put_words};

// The bytes of the result slice, eight for each word of the longest list: a word of h takes at most six, five digits and a space, and the
// other lines take less than two for each word.
pub const MAX_TEXT: usize = 8 * refusal::MAX_WORDS;

// The report on an album, zeros after it; the program's is that over field 0.
pub fn report_over(field: u8, album: &[u8], out: &mut [u8]) -> Result<usize, Refusal>
    ensures answer { text_reply result ≡ report_answer field album.now out.old }
    ensures writes { out.new ≡ report_written field album.now out.old }
{
    if out.len() != MAX_TEXT {
        return Err(Refusal::Misfit);
    }
    let mut page = Page::new();
    put_report(field, album, &mut page);
    let n = page.used;
    out[..n].copy_from_slice(&page.bytes[..n]);
    clear(n, out);
    Ok(n)
}

// The report, which may be that the album is refused.
fn put_report(field: u8, album: &[u8], page: &mut Page)
    requires { page.old.used ≡ 0 }
    ensures { Put (report_of (modulus field) (field_at field) album.now) page.old.used page.old.bytes page.new.bytes page.new.used }
{
    match album_layout::judge_album(field, album) {
        Err(why) => page.put_refused(why),
        Ok(()) => put_sound(field, album, page),
    }
}

// The report on an album that is not refused.
fn put_sound(field: u8, album: &[u8], page: &mut Page)
    requires { Passed (modulus field) album.now × (page.old.used ≡ 0) }
    ensures { Put (sound_report (field_at field) (lists_of album.now)) page.old.used page.old.bytes page.new.bytes page.new.used }
{
    let mut h = [0u16; refusal::MAX_WORDS];
    page.put_named(b"lists", words::byte_at(album, 0));
    put_lists(field, album, page);
    put_answer(field, album, &mut h, page);
}

// What the report says of the GCD; h is room for it.
fn put_answer(field: u8, album: &[u8], h: &mut [u16], page: &mut Page)
    requires passed { Passed (modulus field) album.now × (length h.old ≡ longest field) }
    requires max_answer_in_bounds { page.old.used + max_answer ≤ max_text }
    ensures { Put (answer_lines (field_at field) (lists_of album.now)) page.old.used page.old.bytes page.new.bytes page.new.used }
{
    match album_gcd::album_gcd_over(field, album, h) {
        Ok(gcd) => put_gcd(field, &h[..gcd.degree.0 + 1], gcd.power, page),
        Err(why) => page.put_refused(why),
    }
}

// The extent and the power of a list, `-` for each where it is zero, and the end of its line.
fn put_extent(list: &[u16], page: &mut Page)
    requires { Room (line_end list.now) page.old.used page.old.bytes }
    ensures { Put (line_end list.now) page.old.used page.old.bytes page.new.bytes page.new.used }
{
    if lists::significant_words(list) == 0 {
        page.put_bytes(b" - -\n");
        return;
    }
    let extent = lists::extent_of(list);
    let power = lists::power_in(list);
    page.put_field(extent.0);
    page.put_field(power.0);
    page.put(b'\n');
}

// The line of list i.
fn put_list(i: usize, list: &[u16], page: &mut Page)
    requires { (0 < length list.now) × (Room (list_line i list.now) page.old.used page.old.bytes) }
    ensures { Put (list_line i list.now) page.old.used page.old.bytes page.new.bytes page.new.used }
{
    page.put_number(i);
    let degree = lists::degree_of(list);
    page.put_field(degree.0);
    put_extent(list, page);
}

// The degree in t of (1-t)^c · h.
fn gcd_degree(field: u8, h: &[u16], c: Power) -> usize
    requires { (length h.now ≤ longest field) × (c.0 < max_words) }
    ensures { result ≡ gcd_degree (field_at field) h.now c.0 }
{
    list_powers::degree_in_t(field, h).0 + c.0
}

// The two lines of the GCD.
fn put_gcd(field: u8, h: &[u16], c: Power, page: &mut Page)
    requires h_nonzero { (0 < length h.now) × (length h.now ≤ longest field) × (c.0 < max_words) }
    requires room { Room (gcd_lines (field_at field) h.now c.0) page.old.used page.old.bytes }
    ensures { Put (gcd_lines (field_at field) h.now c.0) page.old.used page.old.bytes page.new.bytes page.new.used }
{
    page.put_bytes(b"gcd");
    page.put_field(gcd_degree(field, h, c));
    page.put_field(c.0);
    page.put(b'\n');
    page.put_words(h);
}

// The lines of the lists.
fn put_lists(field: u8, album: &[u8], page: &mut Page)
    requires passed { Passed (modulus field) album.now }
    requires room { Room (list_lines 0 (lists_of album.now)) page.old.used page.old.bytes }
    ensures { Put (list_lines 0 (lists_of album.now)) page.old.used page.old.bytes page.new.bytes page.new.used }
{
    let mut list = [0u16; refusal::MAX_WORDS];
    for i in 0..words::byte_at(album, 0) {
        let m = album_reader::read_at(album, i, &mut list);
        put_list(i, &list[..m], page);
    }
}
