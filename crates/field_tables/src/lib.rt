// The tables of each field: the factorials of the naive degrees modulo p, their inverses, and the inverses of the numbers of words.
#![tactic(auto)]

ghost use Rattle.std.specs.Prelude.{◌≡◌};
ghost use Rattle.refusal.specs.Limits.{max_words};
ghost use Rattle.field.specs.Fields.{field_at, longest};
ghost use Rattle.field_tables.specs.Factorials.{Holds, factorial_in, inverse_factorial_in};
ghost use Rattle.field_tables.specs.Inverses.{inverse_table};

mod field_0;
mod field_1;
mod field_2;

pub const INVERSE_ENTRIES: usize = refusal::MAX_WORDS + 1;

pub type Table = [u16; refusal::MAX_WORDS];

pub type InverseTable = [u16; INVERSE_ENTRIES];

// The factorials of all naive degrees.
pub fn factorials(field: u8) -> &'static Table
    ensures { Holds (field_at field) (longest field) (factorial_in (field_at field)) result.now }
{
    match field {
        0 => &field_0::factorials::FACTORIALS,
        1 => &field_1::factorials::FACTORIALS,
        _ => &field_2::factorials::FACTORIALS,
    }
}

// Their inverses.
pub fn inverse_factorials(field: u8) -> &'static Table
    ensures { Holds (field_at field) (longest field) (inverse_factorial_in (field_at field)) result.now }
{
    match field {
        0 => &field_0::inverse_factorials::INVERSE_FACTORIALS,
        1 => &field_1::inverse_factorials::INVERSE_FACTORIALS,
        _ => &field_2::inverse_factorials::INVERSE_FACTORIALS,
    }
}

// The inverses of the numbers of words, entry k that of k; entry 0 is 0.
pub fn inverses(field: u8) -> &'static InverseTable
    ensures { result.now ≡ inverse_table max_words (field_at field) }
{
    match field {
        0 => &field_0::inverses::INVERSES,
        1 => &field_1::inverses::INVERSES,
        _ => &field_2::inverses::INVERSES,
    }
}
