// The fields on words of 16 bits: sum, difference and product, and the constants of each field. A field goes by its number, as a caller hands
// it over: every byte is answered for (from 2 on it is field 2), and the definitions are over numbers; an enum would ask more of callers.
#![tactic(auto)]

ghost use Rattle.std.specs.Prelude.{◌≡◌, ◌+◌, ◌-◌, ◌*◌, ◌%◌};
ghost use Rattle.refusal.specs.Lowest.{lowest};
ghost use Rattle.field.specs.Field.{word_reply, operand_refusals};
ghost use Rattle.field.specs.Calls.{word_sum_answer, word_difference_answer, word_product_answer};
ghost use Rattle.field.specs.Fields.{modulus, longest, word_inverse, square, fourth};

use refusal::Refusal;

// Sum, difference and product of two coefficients.
pub fn sum_over(field: u8, a: u16, b: u16) -> Result<u16, Refusal>
    ensures answer { word_reply result ≡ word_sum_answer field a b }
{
    judge_operands(field, a, b)?;
    Ok(add(field, a, b))
}

pub fn difference_over(field: u8, a: u16, b: u16) -> Result<u16, Refusal>
    ensures answer { word_reply result ≡ word_difference_answer field a b }
{
    judge_operands(field, a, b)?;
    Ok(sub(field, a, b))
}

pub fn product_over(field: u8, a: u16, b: u16) -> Result<u16, Refusal>
    ensures answer { word_reply result ≡ word_product_answer field a b }
{
    judge_operands(field, a, b)?;
    Ok(mul(field, a, b))
}

// What a call on two operands refuses.
fn judge_operands(field: u8, a: u16, b: u16) -> Result<(), Refusal>
    ensures { result ≡ lowest (operand_refusals (modulus field) a b) }
{
    let p = modulus_of(field);
    if p <= a || p <= b {
        return Err(Refusal::LooseWord);
    }
    Ok(())
}

// p of a field.
pub fn modulus_of(field: u8) -> u16
    ensures { result ≡ modulus field }
{
    match field {
        0 => 65521,
        1 => 65519,
        _ => 65497,
    }
}

// The largest number of words of a list over a field.
pub fn longest_of(field: u8) -> usize
    ensures { result ≡ longest field }
{
    refusal::MAX_WORDS
}

// 1/p modulo 2^16.
pub fn word_inverse_of(field: u8) -> u16
    ensures { result ≡ word_inverse field }
{
    match field {
        0 => 4369,
        1 => 3855,
        _ => 36969,
    }
}

// 2^32 modulo p.
pub fn square_of(field: u8) -> u16
    ensures { result ≡ square field }
{
    match field {
        0 => 225,
        1 => 289,
        _ => 1521,
    }
}

// 2^64 modulo p.
pub fn fourth_of(field: u8) -> u16
    ensures { result ≡ fourth field }
{
    match field {
        0 => 50625,
        1 => 18002,
        _ => 21046,
    }
}

// Arithmetic for loops: total on words, reduced once.
pub fn add(field: u8, x: u16, y: u16) -> u16
    ensures { result ≡ (x + y) % modulus field }
{
    remainder(field, x as u32 + y as u32)
}

pub fn sub(field: u8, x: u16, y: u16) -> u16
    ensures { result ≡ (x + (modulus field - y % modulus field)) % modulus field }
{
    let p = modulus_of(field) as u32;
    let less = remainder(field, y as u32) as u32;
    remainder(field, x as u32 + (p - less))
}

pub fn mul(field: u8, x: u16, y: u16) -> u16
    ensures { result ≡ (x * y) % modulus field }
{
    remainder(field, x as u32 * y as u32)
}

// x plus m times y
pub fn add_mul(field: u8, x: u16, m: u16, y: u16) -> u16
    ensures { result ≡ (x + m * y) % modulus field }
{
    remainder(field, x as u32 + m as u32 * y as u32)
}

// Each field's remainder has a literal divisor, so that LLVM multiplies in place of a division.
fn remainder(field: u8, n: u32) -> u16
    ensures { result ≡ n % modulus field }
{
    match field {
        0 => (n % 65521) as u16,
        1 => (n % 65519) as u16,
        _ => (n % 65497) as u16,
    }
}

pub fn reduce(field: u8, x: u64) -> u16
    ensures { result ≡ x % modulus field }
{
    match field {
        0 => (x % 65521) as u16,
        1 => (x % 65519) as u16,
        _ => (x % 65497) as u16,
    }
}
