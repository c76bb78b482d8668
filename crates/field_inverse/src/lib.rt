// The inverse of a coefficient, by Euclid's steps on whole numbers and a table of inverses.
#![tactic(auto)]

ghost use Rattle.std.specs.Prelude.{◌≡◌, ◌&&◌, ◌*◌, ◌%◌, ◌<◌, ◌≤◌, ltb, eqb, nat_abs};
ghost use Rattle.field.specs.Field.{word_reply, inverse_of, inverse_or_zero};
ghost use Rattle.field.specs.Fields.{modulus, field_at};
ghost use Rattle.field_inverse.specs.Calls.{inverse_answer, Inverts};
ghost use Rattle.field_inverse.specs.Internal.{residue_of, Leaves};

use refusal::Refusal;

// The inverse of a coefficient over a field. The table of inverses saves steps; the answer does not depend on it.
pub fn inverse_over(field: u8, inverses: &[u16], a: u16) -> Result<u16, Refusal>
    ensures answer { word_reply result ≡ inverse_answer field a }
    ensures inverts { Inverts (modulus field) a result }
{
    if field::modulus_of(field) <= a {
        return Err(Refusal::LooseWord);
    }
    if a == 0 {
        return Err(Refusal::AllZero);
    }
    let b = find(field, inverses, a);
    // The modulus is prime, so every coefficient but 0 has an inverse.
    if b == 0 {
        return Err(Refusal::NoInverse);
    }
    Ok(b)
}

// The inverse of a coefficient that is not 0; else 0.
pub fn inverse_or_zero(field: u8, inverses: &[u16], a: u16) -> u16
    ensures { result ≡ inverse_or_zero (field_at field) a }
{
    inverse_over(field, inverses, a).unwrap_or(0)
}

// What is found by the table is tried. Where the table is wrong, the steps go on to the remainder 1, whose cofactor is the inverse.
fn find(field: u8, inverses: &[u16], a: u16) -> u16
    requires { (0 < a) × (a < modulus field) }
    ensures { result ≡ inverse_of (field_at field) a }
{
    let b = by_table(field, inverses, a);
    if inverts(field, a, b) {
        return b;
    }
    let last = steps(field, a, 1);
    last.cofactor
}

// Whether b is a word below p whose product with a leaves 1.
fn inverts(field: u8, a: u16, b: u16) -> bool
    ensures { result ≡ (ltb b (modulus field) && eqb ((a * b) % modulus field) 1) }
{
    if field::modulus_of(field) <= b {
        return false;
    }
    field::mul(field, a, b) == 1
}

// The inverse, if the table holds that of the remainder where the steps stop. Nothing is promised: the answer is tried.
fn by_table(field: u8, inverses: &[u16], a: u16) -> u16
    requires { (0 < a) × (a < modulus field) }
{
    let n = inverses.len();
    if n < 2 {
        return 0;
    }
    let met = steps(field, a, n - 1);
    field::mul(field, met.cofactor, inverses[met.remainder as usize])
}

// A remainder of Euclid's steps on p and a, and its cofactor as a word: a times the cofactor leaves the remainder.
#[derive(Clone, Copy)]
struct Met {
    remainder: u16,
    cofactor: u16,
}

// Euclid's steps on p and a: each remainder is its cofactor times a, but for multiples of p. They stop at a remainder of at most `stop`. p is
// prime, so no remainder is 0 before one is 1.
fn steps(field: u8, a: u16, stop: usize) -> Met
    requires { (0 < a) × (a < modulus field) × (0 < stop) }
    ensures { (0 < result.remainder) × (result.remainder ≤ stop) × Leaves (modulus field) a result.remainder result.cofactor }
{
    let mut r0: u32 = field::modulus_of(field) as u32;
    let mut r1: u32 = a as u32;
    let mut t0: i32 = 0;
    let mut t1: i32 = 1;
    while stop < r1 as usize {
        let q = r0 / r1;
        let r2 = r0 % r1;
        let t2 = t0 - (q as i32) * t1;
        r0 = r1;
        r1 = r2;
        t0 = t1;
        t1 = t2;
    }
    let cofactor = brought_back(field, t1);
    Met {
        remainder: r1 as u16,
        cofactor,
    }
}

// A cofactor, which may be negative, brought back by remainder to a word below p.
fn brought_back(field: u8, t: i32) -> u16
    requires { nat_abs t ≤ modulus field }
    ensures { result ≡ residue_of (modulus field) t }
{
    if t < 0 {
        field::sub(field, 0, field::reduce(field, (0 - t) as u64))
    } else {
        field::reduce(field, t as u64)
    }
}
