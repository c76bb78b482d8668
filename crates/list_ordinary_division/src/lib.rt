// Division of lists in the usual sense: g = q·f + r as polynomials in t, where r is 0 or has a smaller degree in t than f.
#![tactic(auto)]

ghost use Rattle.std.specs.Prelude.{Ok, ◌≡◌, true, ◌++◌, ◌≤◌, length, take, drop};
ghost use Rattle.refusal.specs.Limits.{max_words};
ghost use Rattle.refusal.specs.Refusal.{outcome_reply};
ghost use Rattle.refusal.specs.Lowest.{lowest};
ghost use Rattle.field.specs.Fields.{modulus, field_at, longest};
ghost use Rattle.word_expansion.specs.Expansion.{expanded_into};
ghost use Rattle.list_powers.specs.Powers.{list_written};
ghost use Rattle.ordinary_theory.specs.InT.{power_words};
ghost use Rattle.ordinary_theory.specs.Ordinary.{ordinary_quotient, ordinary_remainder, OrdinarySo};
ghost use Rattle.list_ordinary_division.specs.Calls.{ordinary_rows, ordinary_answer, ordinary_quotient_written, ordinary_remainder_written};
ghost use Rattle.list_ordinary_division.specs.Internal.{OrdinaryFits, Buffers};

use refusal::Refusal;

// g divided by f in the usual sense over a field: the quotient goes to q, the remainder to r, both of g's own naive degree.
pub fn divide_ordinary_over(
    field: u8,
    g: &[u16],
    f: &[u16],
    q: &mut [u16],
    r: &mut [u16],
) -> Result<(), Refusal>
    ensures answer { outcome_reply result ≡ ordinary_answer field g.now f.now q.old r.old }
    ensures quotient { q.new ≡ ordinary_quotient_written field g.now f.now q.old r.old }
    ensures remainder { r.new ≡ ordinary_remainder_written field g.now f.now q.old r.old }
    ensures property { result ≡ Ok tt → OrdinarySo (field_at field) g.now f.now q.new r.new }
{
    judge_ordinary(field, g, f, q, r)?;
    divide_into(field, g, f, q, r);
    Ok(())
}

// What the division refuses.
fn judge_ordinary(field: u8, g: &[u16], f: &[u16], q: &[u16], r: &[u16]) -> Result<(), Refusal>
    ensures { result ≡ lowest (ordinary_rows (modulus field) (longest field) g.now f.now q.now r.now) }
{
    lists::judge_lists(field, g, f)?;
    if lists::significant_words(f) == 0 {
        return Err(Refusal::AllZero);
    }
    if q.len() != g.len() {
        return Err(Refusal::Misfit);
    }
    if r.len() != g.len() {
        return Err(Refusal::Misfit);
    }
    Ok(())
}

// The powers of t of a list, at the front of a buffer.
fn place(field: u8, list: &[u16], x: &mut [u16])
    requires { (length list.now ≤ length x.old) × (length list.now ≤ longest field) }
    ensures { x.new ≡ power_words (field_at field) list.now ++ drop (length list.now) x.old }
{
    list_powers::powers_of_t(field, list, &mut x[..list.len()]);
}

// The list of a polynomial whose powers of t are at the front of a buffer.
fn write_back(field: u8, x: &mut [u16], out: &mut [u16])
    requires { (length out.old ≤ length x.old) × (length out.old ≤ longest field) }
    ensures { out.new ≡ list_written field (expanded_into (modulus field) true (take (length out.old) x.old)) out.old }
{
    list_powers::list_of_powers(field, &mut x[..out.len()], out);
}

// The powers of t of g and f in x and y, their quotient in k and their remainder in x, and back into q and r. The buffers are 0 and equally
// long, as a round of Euclid's wants them.
fn divide_in(
    field: u8,
    g: &[u16],
    f: &[u16],
    x: &mut [u16],
    y: &mut [u16],
    k: &mut [u16],
    q: &mut [u16],
    r: &mut [u16],
)
    requires ordinary_fits { OrdinaryFits (field_at field) (longest field) g.now f.now q.old r.old }
    requires buffers { Buffers (length g.now) (length f.now) x.old y.old k.old }
    ensures quotient { q.new ≡ ordinary_quotient (field_at field) g.now f.now }
    ensures remainder { r.new ≡ ordinary_remainder (field_at field) g.now f.now }
{
    let l = x.len();
    place(field, g, x);
    place(field, f, y);
    euclid_round::shorten(field, field_tables::inverses(field), x, l, y, l, k);
    write_back(field, k, q);
    write_back(field, x, r);
}

// The division where nothing is refused, in buffers of l words, in arrays of N words, which are filled with zeros.
fn divide_sized<const N: usize>(
    field: u8,
    g: &[u16],
    f: &[u16],
    l: usize,
    q: &mut [u16],
    r: &mut [u16],
)
    requires ordinary_fits { OrdinaryFits (field_at field) (longest field) g.now f.now q.old r.old }
    requires g_len_bound { (length g.now ≤ l) × (length f.now ≤ l) × (l ≤ N) × (N ≤ max_words) }
    ensures quotient { q.new ≡ ordinary_quotient (field_at field) g.now f.now }
    ensures remainder { r.new ≡ ordinary_remainder (field_at field) g.now f.now }
{
    let mut x = [0u16; N];
    let mut y = [0u16; N];
    let mut k = [0u16; N];
    divide_in(field, g, f, &mut x[..l], &mut y[..l], &mut k[..l], q, r);
}

// The same in arrays of the size that the longer list needs.
fn divide_into(field: u8, g: &[u16], f: &[u16], q: &mut [u16], r: &mut [u16])
    requires { OrdinaryFits (field_at field) (longest field) g.now f.now q.old r.old }
    ensures quotient { q.new ≡ ordinary_quotient (field_at field) g.now f.now }
    ensures remainder { r.new ≡ ordinary_remainder (field_at field) g.now f.now }
{
    let l = g.len().max(f.len());
    if l <= refusal::FEW_WORDS {
        divide_sized::<{ refusal::FEW_WORDS }>(field, g, f, l, q, r);
        return;
    }
    divide_sized::<{ refusal::MAX_WORDS }>(field, g, f, l, q, r);
}
