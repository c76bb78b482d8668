// Product and raise of lists.
#![tactic(auto)]

ghost use Rattle.std.specs.Prelude.{◌≡◌, ◌≤◌, length};
ghost use Rattle.field.specs.Fields.{modulus, field_at, longest};
ghost use Rattle.refusal.specs.Limits.{max_words};
ghost use Rattle.refusal.specs.Refusal.{outcome_reply};
ghost use Rattle.refusal.specs.Lowest.{lowest};
ghost use Rattle.lists.specs.Degrees.{naive_degree};
ghost use Rattle.lists.specs.Operations as of;
ghost use Rattle.list_product.specs.Calls.{product_rows, raise_rows, product_answer, product_written, raise_answer, raise_written};
ghost use Rattle.list_product.specs.Internal.{ProductFits, RaiseFits};

use lists::NaiveDegree;
use refusal::Refusal;

// The product over a field.
pub fn product_over(field: u8, f: &[u16], g: &[u16], out: &mut [u16]) -> Result<(), Refusal>
    ensures answer { outcome_reply result ≡ product_answer field f.now g.now out.old }
    ensures writes { out.new ≡ product_written field f.now g.now out.old }
{
    judge_product(field, f, g, out)?;
    product_into(field, f, g, out);
    Ok(())
}

// The raise over a field.
pub fn raise_over(field: u8, f: &[u16], to: NaiveDegree, out: &mut [u16]) -> Result<(), Refusal>
    ensures answer { outcome_reply result ≡ raise_answer field f.now to.0 out.old }
    ensures writes { out.new ≡ raise_written field f.now to.0 out.old }
{
    judge_raise(field, f, to, out)?;
    raise_into(field, f, out);
    Ok(())
}

// What the product refuses.
#[tactic(auto, unfolding(field::specs::Fields::longest))]
fn judge_product(field: u8, f: &[u16], g: &[u16], out: &[u16]) -> Result<(), Refusal>
    ensures { result ≡ lowest (product_rows (modulus field) (longest field) f.now g.now out.now) }
{
    lists::judge_lists(field, f, g)?;
    if field::longest_of(field) + 1 < f.len() + g.len() {
        return Err(Refusal::Over);
    }
    if out.len() + 1 != f.len() + g.len() {
        return Err(Refusal::Misfit);
    }
    Ok(())
}

// What a raise refuses.
fn judge_raise(field: u8, f: &[u16], to: NaiveDegree, out: &[u16]) -> Result<(), Refusal>
    ensures { result ≡ lowest (raise_rows (modulus field) (longest field) f.now to.0 out.now) }
{
    let target = to.0;
    lists::judge_list(field, f)?;
    if field::longest_of(field) <= target {
        return Err(Refusal::Over);
    }
    if target + 1 < f.len() {
        return Err(Refusal::Backwards);
    }
    if out.len() != target + 1 {
        return Err(Refusal::Misfit);
    }
    Ok(())
}

// The scaled forms of f and g in a and b, their product in s, and back into out.
fn product_in(
    field: u8,
    f: &[u16],
    g: &[u16],
    a: &mut [u16],
    b: &mut [u16],
    s: &mut [u16],
    out: &mut [u16],
)
    requires product_fits { ProductFits (longest field) f.now g.now out.old }
    requires a_len { (length a.old ≡ length f.now) × (length b.old ≡ length g.now) × (length s.old ≡ length out.old) }
    ensures { out.new ≡ of.product (field_at field) f.now g.now }
{
    let whole = field_tables::factorials(field);
    let part = field_tables::inverse_factorials(field);
    word_scaling::weigh(field, f, whole, part, a);
    word_scaling::weigh(field, g, whole, part, b);
    word_karatsuba::convolve(field, a, b, s);
    word_scaling::weigh(field, s, part, whole, out);
}

// The product where nothing is refused, in arrays of N words, which are filled with zeros.
fn product_sized<const N: usize>(field: u8, f: &[u16], g: &[u16], out: &mut [u16])
    requires { ProductFits (longest field) f.now g.now out.old × (length out.old ≤ N) × (N ≤ max_words) }
    ensures { out.new ≡ of.product (field_at field) f.now g.now }
{
    let d = f.len();
    let e = g.len();
    let n = out.len();
    let mut a = [0u16; N];
    let mut b = [0u16; N];
    let mut s = [0u16; N];
    product_in(field, f, g, &mut a[..d], &mut b[..e], &mut s[..n], out);
}

// The same in arrays of the size that the result needs.
#[tactic(auto, unfolding(field::specs::Fields::longest))]
fn product_into(field: u8, f: &[u16], g: &[u16], out: &mut [u16])
    requires { ProductFits (longest field) f.now g.now out.old }
    ensures { out.new ≡ of.product (field_at field) f.now g.now }
{
    if out.len() <= refusal::FEW_WORDS {
        product_sized::<{ refusal::FEW_WORDS }>(field, f, g, out);
        return;
    }
    product_sized::<{ refusal::MAX_WORDS }>(field, f, g, out);
}

// f raised to the naive degree of out: f times a list of ones, which means 1.
#[tactic(auto, unfolding(field::specs::Fields::longest))]
fn raise_into(field: u8, f: &[u16], out: &mut [u16])
    requires { RaiseFits (modulus field) (longest field) f.now out.old }
    ensures { out.new ≡ of.raise (field_at field) (naive_degree out.old) f.now }
{
    let ones = [1u16; refusal::MAX_WORDS];
    let m = out.len() - f.len() + 1;
    product_into(field, f, &ones[..m], out);
}
