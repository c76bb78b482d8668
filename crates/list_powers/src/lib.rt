// A list's polynomial in powers of t, and back, on words; the degree in t. Powers of t stay inside the engine: no call takes them or hands
// them out.
#![tactic(auto)]

ghost use Rattle.std.specs.Prelude.{◌≡◌, true, ◌≤◌, length};
ghost use Rattle.field.specs.Fields.{modulus, longest};
ghost use Rattle.word_expansion.specs.Expansion.{expanded_into};
ghost use Rattle.list_powers.specs.Powers.{powers_written, list_written, degree_found};

// The degree in t, a counter beside the naive degree and the extent.
#[derive(Clone, Copy)]
pub struct DegreeInT(pub usize);

// The coefficients of 1, t, t², … of a list, in as many words.
pub fn powers_of_t(field: u8, list: &[u16], out: &mut [u16])
    requires { length out.old ≤ longest field }
    ensures { out.new ≡ powers_written field list.now out.old }
{
    let whole = field_tables::factorials(field);
    let part = field_tables::inverse_factorials(field);
    word_scaling::weigh(field, list, whole, part, out);
    word_expansion_halves::expand(field, false, out);
}

// The list, of as many words as out, that means the polynomial with these coefficients, which become its scaled form.
pub fn list_of_powers(field: u8, powers: &mut [u16], out: &mut [u16])
    requires { length powers.old ≤ longest field }
    ensures form { powers.new ≡ expanded_into (modulus field) true powers.old }
    ensures writes { out.new ≡ list_written field (expanded_into (modulus field) true powers.old) out.old }
{
    word_expansion_halves::expand(field, true, powers);
    let whole = field_tables::factorials(field);
    let part = field_tables::inverse_factorials(field);
    word_scaling::weigh(field, powers, part, whole, out);
}

// The degree in t of a list; 0 for a zero list, which has none, and for one that is too long.
pub fn degree_in_t(field: u8, list: &[u16]) -> DegreeInT
    ensures { result.0 ≡ degree_found field list.now }
{
    let n = list.len();
    if field::longest_of(field) < n {
        return DegreeInT(0);
    }
    let mut buffer = [0u16; refusal::MAX_WORDS];
    let x = &mut buffer[..n];
    powers_of_t(field, list, x);
    DegreeInT(lists::extent_of(x).0)
}
