// A text that grows: bytes, and how many of them are used; the others are 0. Each method puts its text as the function of that name for any
// slice does, after the text that the page has.
ghost use Rattle.std.specs.Prelude.{◌≡◌, [], ◌∷◌, map, ◌≤◌, ◌<◌, length, replicate};
ghost use Rattle.lists.specs.Words.{ZeroFrom};
ghost use Rattle.report_text.specs.Text.{decimal, line};
ghost use Rattle.report_text.specs.Report.{refused_line};
ghost use Rattle.report_text.specs.Calls.{max_text};
ghost use Rattle.report_text.specs.Internal.{Room, Put};

use crate::{MAX_TEXT, slice};
use refusal::Refusal;

#[derive(Drop)]
pub struct Page {
    pub bytes: [u8; MAX_TEXT],
    pub used: usize,
    ghost whole: { length bytes ≡ max_text },
    ghost inside: { used ≤ max_text },
    ghost rest: { ZeroFrom used bytes },
}

impl Page {
    // A page with no text.
    pub fn new() -> Page
        ensures bytes { result.bytes ≡ replicate max_text 0 }
        ensures used { result.used ≡ 0 }
    {
        Page {
            bytes: [0u8; MAX_TEXT],
            used: 0,
        }
    }

    // One byte more.
    pub fn put(&mut self, byte: u8)
        requires { Room (byte ∷ []) self.old.used self.old.bytes }
        ensures { Put (byte ∷ []) self.old.used self.old.bytes self.new.bytes self.new.used }
    {
        self.used = slice::put(byte, self.used, &mut self.bytes);
    }

    // Some bytes more.
    pub fn put_bytes(&mut self, bytes: &[u8])
        requires { Room bytes.now self.old.used self.old.bytes }
        ensures { Put bytes.now self.old.used self.old.bytes self.new.bytes self.new.used }
    {
        self.used = slice::put_bytes(bytes, self.used, &mut self.bytes);
    }

    // A number in decimal digits.
    pub fn put_number(&mut self, n: usize)
        requires { Room (decimal n) self.old.used self.old.bytes }
        ensures { Put (decimal n) self.old.used self.old.bytes self.new.bytes self.new.used }
    {
        self.used = slice::put_number(n, self.used, &mut self.bytes);
    }

    // A space and a number.
    pub fn put_field(&mut self, n: usize)
        requires { Room (32 ∷ decimal n) self.old.used self.old.bytes }
        ensures { Put (32 ∷ decimal n) self.old.used self.old.bytes self.new.bytes self.new.used }
    {
        self.used = slice::put_field(n, self.used, &mut self.bytes);
    }

    // A line of a name and a number.
    pub fn put_named(&mut self, name: &[u8], n: usize)
        requires { Room (line (name.now ∷ decimal n ∷ [])) self.old.used self.old.bytes }
        ensures { Put (line (name.now ∷ decimal n ∷ [])) self.old.used self.old.bytes self.new.bytes self.new.used }
    {
        self.used = slice::put_named(name, n, self.used, &mut self.bytes);
    }

    // The line of a refusal.
    pub fn put_refused(&mut self, why: Refusal)
        requires { Room (refused_line why) self.old.used self.old.bytes }
        ensures { Put (refused_line why) self.old.used self.old.bytes self.new.bytes self.new.used }
    {
        self.used = slice::put_refused(why, self.used, &mut self.bytes);
    }

    // The words of a list on a line, one space between them.
    pub fn put_words(&mut self, words: &[u16])
        requires { (0 < length words.now) × (Room (line (map decimal words.now)) self.old.used self.old.bytes) }
        ensures { Put (line (map decimal words.now)) self.old.used self.old.bytes self.new.bytes self.new.used }
    {
        self.used = slice::put_words(words, self.used, &mut self.bytes);
    }
}
