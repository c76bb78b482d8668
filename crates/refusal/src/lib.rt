// The refusals of the engine's calls, each with its number, and the limits of lists, albums and lines.
#![tactic(auto)]

ghost use Rattle.std.specs.Prelude.{◌≡◌};
ghost use Rattle.refusal.specs.Refusal.{number, outcome_number};

use std::fmt;

// The longest list.
pub const MAX_DEGREE: usize = 1023;

pub const MAX_WORDS: usize = MAX_DEGREE + 1;

// The words of a small buffer. A call on few words lends its workers small arrays, since arrays are filled with zeros.
pub const FEW_WORDS: usize = 256;

// The largest album: the count, and for each list an entry and a body of words of 2 bytes.
pub const MAX_LISTS: usize = 16;

pub const ENTRY_BYTES: usize = 4;

pub const MAX_BYTES: usize = 1 + MAX_LISTS * (ENTRY_BYTES + 2 * MAX_WORDS);

// The longest line of algebra, and the most parentheses that may be open together in it.
pub const MAX_LINE: usize = 256;

pub const MAX_OPEN: usize = 32;

#[derive(Clone, Copy, Debug, PartialEq, Eq)]
pub enum Refusal {
    Count,
    Contents,
    Index,
    Length,
    LooseWord,
    Over,
    Backwards,
    Vanishes,
    AllZero,
    Misfit,
    NoInverse,
    Line,
    Nesting,
}

// The number of a refusal.
impl From<Refusal> for u8 {
    ghost from_gives = { λ why n. n ≡ number why };

    fn from(why: Refusal) -> u8 {
        match why {
            Refusal::Count => 1,
            Refusal::Contents => 2,
            Refusal::Index => 3,
            Refusal::Length => 4,
            Refusal::LooseWord => 5,
            Refusal::Over => 6,
            Refusal::Backwards => 7,
            Refusal::Vanishes => 8,
            Refusal::AllZero => 9,
            Refusal::Misfit => 10,
            Refusal::NoInverse => 11,
            Refusal::Line => 12,
            Refusal::Nesting => 13,
        }
    }
}

impl fmt::Display for Refusal {
    fn fmt<W: fmt::Write>(&self, f: &mut fmt::Formatter<W>) -> fmt::Result {
        write!(f, "refused {}", u8::from(*self))
    }
}

// The number of a refusal, or 0 where the call completes.
pub fn outcome_number(outcome: Result<(), Refusal>) -> u8
    ensures { result ≡ outcome_number outcome }
{
    match outcome {
        Ok(()) => 0,
        Err(why) => u8::from(why),
    }
}
