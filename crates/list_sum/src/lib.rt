// Sum and difference of lists.
#![tactic(auto)]

ghost use Rattle.std.specs.Prelude.{◌≡◌, length};
ghost use Rattle.field.specs.Fields.{modulus, field_at, longest};
ghost use Rattle.refusal.specs.Refusal.{outcome_reply};
ghost use Rattle.refusal.specs.Lowest.{lowest};
ghost use Rattle.list_sum.specs.Calls.{sum_rows, sum_answer, sum_written, difference_written};
ghost use Rattle.list_sum.specs.Internal.{SumFits, Combines, CombinesRaised};

use lists::NaiveDegree;
use refusal::Refusal;

// The sum over a field.
pub fn sum_over(field: u8, f: &[u16], g: &[u16], out: &mut [u16]) -> Result<(), Refusal>
    ensures answer { outcome_reply result ≡ sum_answer field f.now g.now out.old }
    ensures writes { out.new ≡ sum_written field f.now g.now out.old }
{
    judge_sum(field, f, g, out)?;
    combine(field, f, g, |a, b| field::add(field, a, b), out);
    Ok(())
}

// The difference over a field.
pub fn difference_over(field: u8, f: &[u16], g: &[u16], out: &mut [u16]) -> Result<(), Refusal>
    ensures answer { outcome_reply result ≡ sum_answer field f.now g.now out.old }
    ensures writes { out.new ≡ difference_written field f.now g.now out.old }
{
    judge_sum(field, f, g, out)?;
    combine(field, f, g, |a, b| field::sub(field, a, b), out);
    Ok(())
}

// What a sum and a difference refuse.
fn judge_sum(field: u8, f: &[u16], g: &[u16], out: &[u16]) -> Result<(), Refusal>
    ensures { result ≡ lowest (sum_rows (modulus field) (longest field) f.now g.now out.now) }
{
    lists::judge_lists(field, f, g)?;
    if out.len() != f.len().max(g.len()) {
        return Err(Refusal::Misfit);
    }
    Ok(())
}

// An operation on words, word by word.
fn combine_words<Op: Fn(u16, u16) -> u16>(a: &[u16], b: &[u16], op: Op, out: &mut [u16])
    requires callable { Op.IsAlwaysCallable op }
    requires lengths { (length a.now ≡ length out.old) × (length b.now ≡ length out.old) }
    ensures { Combines (Op.post op) a.now b.now out.new }
{
    for (k, word) in out.iter_mut().enumerate() {
        *word = op(a[k], b[k]);
    }
}

// The same of f and g, raised into a and b.
fn combine_in<Op: Fn(u16, u16) -> u16>(
    field: u8,
    f: &[u16],
    g: &[u16],
    op: Op,
    a: &mut [u16],
    b: &mut [u16],
    out: &mut [u16],
)
    requires callable { Op.IsAlwaysCallable op }
    requires sum_fits { SumFits (modulus field) (longest field) f.now g.now out.old }
    requires a_len { (length a.old ≡ length out.old) × (length b.old ≡ length out.old) }
    ensures { CombinesRaised (field_at field) (Op.post op) f.now g.now out.new }
{
    let degree = NaiveDegree(out.len() - 1);
    // Neither raise is refused.
    let _ = list_product::raise_over(field, f, degree, a);
    let _ = list_product::raise_over(field, g, degree, b);
    combine_words(a, b, op, out);
}

// The same where nothing is refused.
#[tactic(auto, unfolding(field::specs::Fields::longest))]
fn combine<Op: Fn(u16, u16) -> u16>(field: u8, f: &[u16], g: &[u16], op: Op, out: &mut [u16])
    requires callable { Op.IsAlwaysCallable op }
    requires sum_fits { SumFits (modulus field) (longest field) f.now g.now out.old }
    ensures { CombinesRaised (field_at field) (Op.post op) f.now g.now out.new }
{
    let n = out.len();
    let mut a = [0u16; refusal::MAX_WORDS];
    let mut b = [0u16; refusal::MAX_WORDS];
    combine_in(field, f, g, op, &mut a[..n], &mut b[..n], out);
}
