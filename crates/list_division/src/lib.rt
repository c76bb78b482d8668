// Division of lists.
#![tactic(auto)]

ghost use Rattle.std.specs.Prelude.{Ok, ◌≡◌, ◌≤◌, length};
ghost use Rattle.refusal.specs.Limits.{max_words};
ghost use Rattle.field.specs.Fields.{modulus, field_at, longest};
ghost use Rattle.refusal.specs.Refusal.{outcome_reply};
ghost use Rattle.refusal.specs.Lowest.{lowest};
ghost use Rattle.euclid_theory.specs.Division.{quotient_of, remainder_of};
ghost use Rattle.list_division.specs.Calls.{divide_rows, divide_answer, quotient_written, remainder_written, DividesSo};
ghost use Rattle.list_division.specs.Internal.{DivideFits};

use refusal::Refusal;

// g divided by f over a field: the quotient goes to q, the remainder to r.
pub fn divide_over(
    field: u8,
    g: &[u16],
    f: &[u16],
    q: &mut [u16],
    r: &mut [u16],
) -> Result<(), Refusal>
    ensures answer { outcome_reply result ≡ divide_answer field g.now f.now q.old r.old }
    ensures quotient { q.new ≡ quotient_written field g.now f.now q.old r.old }
    ensures remainder { r.new ≡ remainder_written field g.now f.now q.old r.old }
    ensures property { result ≡ Ok tt → DividesSo (field_at field) g.now f.now q.new r.new }
{
    judge_divide(field, g, f, q, r)?;
    divide_into(field, g, f, q, r);
    Ok(())
}

// What a division refuses.
fn judge_divide(field: u8, g: &[u16], f: &[u16], q: &[u16], r: &[u16]) -> Result<(), Refusal>
    ensures { result ≡ lowest (divide_rows (modulus field) (longest field) g.now f.now q.now r.now) }
{
    lists::judge_lists(field, g, f)?;
    if g.len() < f.len() {
        return Err(Refusal::Backwards);
    }
    if f[f.len() - 1] == 0 {
        return Err(Refusal::Vanishes);
    }
    if q.len() != g.len() - f.len() + 1 {
        return Err(Refusal::Misfit);
    }
    if r.len() != f.len() - 1 {
        return Err(Refusal::Misfit);
    }
    Ok(())
}

// The scaled forms of g and f in x and y, the quotient of them in k and the remainder in x, and back into q and r.
fn divide_in(
    field: u8,
    g: &[u16],
    f: &[u16],
    x: &mut [u16],
    y: &mut [u16],
    k: &mut [u16],
    q: &mut [u16],
    r: &mut [u16],
)
    requires divide_fits { DivideFits (field_at field) (longest field) g.now f.now q.old r.old }
    requires x_len { (length x.old ≡ length g.now) × (length y.old ≡ length f.now) × (length k.old ≡ length q.old) }
    ensures quotient { q.new ≡ quotient_of (field_at field) g.now f.now }
    ensures remainder { r.new ≡ remainder_of (field_at field) g.now f.now }
{
    let whole = field_tables::factorials(field);
    let part = field_tables::inverse_factorials(field);
    let inverses = field_tables::inverses(field);
    let inv = field_inverse::inverse_or_zero(field, inverses, f[f.len() - 1]);
    word_scaling::weigh(field, g, whole, part, x);
    word_scaling::weigh(field, f, whole, part, y);
    word_block_division::reduce(field, x, y, inv, k);
    word_scaling::weigh(field, k, part, whole, q);
    word_scaling::weigh(field, x, part, whole, r);
}

// The division where nothing is refused, in arrays of N words, which are filled with zeros.
fn divide_sized<const N: usize>(field: u8, g: &[u16], f: &[u16], q: &mut [u16], r: &mut [u16])
    requires divide_fits { DivideFits (field_at field) (longest field) g.now f.now q.old r.old }
    requires size { (length g.now ≤ N) × (N ≤ max_words) }
    ensures quotient { q.new ≡ quotient_of (field_at field) g.now f.now }
    ensures remainder { r.new ≡ remainder_of (field_at field) g.now f.now }
{
    let m = g.len();
    let n = f.len();
    let s = q.len();
    let mut x = [0u16; N];
    let mut y = [0u16; N];
    let mut k = [0u16; N];
    divide_in(field, g, f, &mut x[..m], &mut y[..n], &mut k[..s], q, r);
}

// The same in arrays of the size that the dividend needs.
fn divide_into(field: u8, g: &[u16], f: &[u16], q: &mut [u16], r: &mut [u16])
    requires { DivideFits (field_at field) (longest field) g.now f.now q.old r.old }
    ensures quotient { q.new ≡ quotient_of (field_at field) g.now f.now }
    ensures remainder { r.new ≡ remainder_of (field_at field) g.now f.now }
{
    if g.len() <= refusal::FEW_WORDS {
        divide_sized::<{ refusal::FEW_WORDS }>(field, g, f, q, r);
        return;
    }
    divide_sized::<{ refusal::MAX_WORDS }>(field, g, f, q, r);
}
