// The derivative of a list.
#![tactic(auto)]

ghost use Rattle.std.specs.Prelude.{◌≡◌, ◌+◌, ◌≤◌, ◌<◌, length};
ghost use Rattle.field.specs.Fields.{modulus, field_at, longest};
ghost use Rattle.refusal.specs.Refusal.{outcome_reply};
ghost use Rattle.refusal.specs.Lowest.{lowest};
ghost use Rattle.lists.specs.Operations as of;
ghost use Rattle.list_derivative.specs.Calls.{derivative_rows, derivative_answer, derivative_written};
ghost use Rattle.list_derivative.specs.Internal.{DerivativeFits};

use refusal::Refusal;

// The derivative over a field.
pub fn derivative_over(field: u8, f: &[u16], out: &mut [u16]) -> Result<(), Refusal>
    ensures answer { outcome_reply result ≡ derivative_answer field f.now out.old }
    ensures writes { out.new ≡ derivative_written field f.now out.old }
{
    judge_derivative(field, f, out)?;
    derivative_into(field, f, out);
    Ok(())
}

// What a derivative refuses.
fn judge_derivative(field: u8, f: &[u16], out: &[u16]) -> Result<(), Refusal>
    ensures { result ≡ lowest (derivative_rows (modulus field) (longest field) f.now out.now) }
{
    lists::judge_list(field, f)?;
    if out.len() != (f.len() - 1).max(1) {
        return Err(Refusal::Misfit);
    }
    Ok(())
}

// n times the difference of each word of f to the next.
#[tactic(auto, unfolding(field::specs::Fields::longest))]
fn differences(field: u8, f: &[u16], out: &mut [u16])
    requires { (0 < length out.old) × (length f.now ≡ length out.old + 1) × (length f.now ≤ longest field) }
    ensures { out.new ≡ of.derivative (field_at field) f.now }
{
    let n = out.len() as u16;
    for (k, word) in out.iter_mut().enumerate() {
        *word = field::mul(field, n, field::sub(field, f[k + 1], f[k]));
    }
}

fn derivative_into(field: u8, f: &[u16], out: &mut [u16])
    requires { DerivativeFits (longest field) f.now out.old }
    ensures { out.new ≡ of.derivative (field_at field) f.now }
{
    if f.len() == 1 {
        out[0] = 0;
    } else {
        differences(field, f, out);
    }
}
