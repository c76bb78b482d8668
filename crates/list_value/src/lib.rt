// The value of a list at a point.
#![tactic(auto)]

ghost use Rattle.std.specs.Prelude.{◌≡◌, ◌+◌, ◌*◌, ◌/◌, ◌%◌, ◌≤◌, length};
ghost use Rattle.refusal.specs.Limits.{max_words};
ghost use Rattle.field.specs.Fields.{modulus, field_at, longest};
ghost use Rattle.refusal.specs.Lowest.{lowest};
ghost use Rattle.field.specs.Field.{word_reply};
ghost use Rattle.lists.specs.Lists.{word};
ghost use Rattle.lists.specs.Operations as of;
ghost use Rattle.lists.specs.Refused.{IsList};
ghost use Rattle.list_value.specs.Calls.{evaluate_rows, evaluate_answer};
ghost use Rattle.list_value.specs.Internal.{homogeneous_of, power_of, powers_of, weights_of, most_of_product, most_of_group, products_of, groups, Terms};

use refusal::Refusal;

// The value over a field.
pub fn evaluate_over(field: u8, f: &[u16], x: u16) -> Result<u16, Refusal>
    ensures answer { word_reply result ≡ evaluate_answer field f.now x }
{
    judge_evaluate(field, f, x)?;
    Ok(value_at(field, f, x))
}

// What an evaluation refuses.
fn judge_evaluate(field: u8, f: &[u16], x: u16) -> Result<(), Refusal>
    ensures { result ≡ lowest (evaluate_rows (modulus field) (longest field) f.now x) }
{
    lists::judge_list(field, f)?;
    if field::modulus_of(field) <= x {
        return Err(Refusal::LooseWord);
    }
    Ok(())
}

// a·b + c·d, reduced once.
fn two_products(field: u8, a: u16, b: u16, c: u64, d: u16) -> u16
    requires { c ≤ most_of_group }
    ensures { result ≡ (a * b + c * d) % modulus field }
{
    field::reduce(field, a as u64 * b as u64 + c * d as u64)
}

// The powers 1, x, x^2, … in u, and the next one.
fn fill_powers(field: u8, x: u16, u: &mut [u16]) -> u16
    ensures words { u.new ≡ powers_of (field_at field) x (length u.old) }
    ensures next { result ≡ power_of (field_at field) x (length u.old) }
{
    let mut power: u16 = 1;
    for word in u.iter_mut() {
        *word = power;
        power = field::mul(field, power, x);
    }
    power
}

// The weights of a group of n words: word j of u is x^j y^(n-1-j), from the powers of x in a and those of y in b.
fn fill_weights(field: u8, a: &[u16], b: &[u16], u: &mut [u16])
    requires { (length a.now ≡ length u.old) × (length b.now ≡ length u.old) }
    ensures { u.new ≡ weights_of (modulus field) (length u.old) a.now b.now }
{
    let n = u.len();
    // By places: of what a `zip` over `iter_mut` has written a proof knows nothing.
    for (j, word) in u.iter_mut().enumerate() {
        *word = field::mul(field, a[j], b[n - 1 - j]);
    }
}

// sum + a·b
fn add_product(sum: u64, a: u16, b: u16) -> u64
    requires { sum ≤ most_of_group }
    ensures { (result ≡ sum + a * b) × (result ≤ sum + most_of_product) }
{
    sum + a as u64 * b as u64
}

// The products of the words of s with those of u, added up, and not reduced.
fn sum_products(s: &[u16], u: &[u16]) -> u64
    requires { (length s.now ≡ length u.now) × (length u.now ≤ 8) }
    ensures { (result ≡ products_of s.now 0 u.now (length u.now)) × (result ≤ most_of_group) }
{
    let mut sum: u64 = 0;
    for (&a, &b) in s.iter().zip(u) {
        sum = add_product(sum, a, b);
    }
    sum
}

// The sum of the first terms, as if there were no more, and the next power of x, both times a factor c.
#[derive(Clone, Copy)]
struct Begun {
    sum: u16,
    power: u16,
}

// The sum of c t_i x^i y^(n-1-i) over the n whole groups of eight words of s, t_i being the products of the words of group i with those of u,
// added up. Each group is reduced once.
fn sum_groups(field: u8, s: &[u16], u: &[u16], x: u16, y: u16, c: u16) -> Begun
    requires { length u.now ≡ 8 }
    ensures { Terms (field_at field) (groups (field_at field) 8 s.now u.now) x y c (length s.now / 8) result.sum result.power }
{
    let mut sum: u16 = 0;
    let mut power = c;
    for group in s.chunks_exact(8) {
        sum = two_products(field, sum, y, sum_products(group, u), power);
        power = field::mul(field, power, x);
    }
    Begun { sum, power }
}

// Whole groups of eight words: each is summed with the weights x^j y^(7-j), and these sums at x^8 and y^8.
fn begin_in(
    field: u8,
    s: &[u16],
    x: u16,
    y: u16,
    c: u16,
    a: &mut [u16],
    b: &mut [u16],
    u: &mut [u16],
) -> Begun
    requires { (length a.old ≡ 8) × (length b.old ≡ 8) × (length u.old ≡ 8) }
    ensures { Terms (field_at field) (word (field_at field) s.now) x y c (8 * (length s.now / 8)) result.sum result.power }
{
    let x8 = fill_powers(field, x, a);
    let y8 = fill_powers(field, y, b);
    fill_weights(field, a, b, u);
    sum_groups(field, s, u, x8, y8, c)
}

fn begin(field: u8, s: &[u16], x: u16, y: u16, c: u16) -> Begun
    ensures { Terms (field_at field) (word (field_at field) s.now) x y c (8 * (length s.now / 8)) result.sum result.power }
{
    let mut a = [0u16; 8];
    let mut b = [0u16; 8];
    let mut u = [0u16; 8];
    begin_in(field, s, x, y, c, &mut a, &mut b, &mut u)
}

// The sum of c s_k x^k y^(n-k) for words s_0 to s_n: whole groups of eight, then the words after them. The first power is c times 1, so that
// the factor costs nothing.
fn homogeneous(field: u8, s: &[u16], x: u16, y: u16, c: u16) -> u16
    ensures { result ≡ homogeneous_of (field_at field) s.now x y c }
{
    let Begun { mut sum, mut power } = begin(field, s, x, y, c);
    for &word in &s[8 * (s.len() / 8)..] {
        sum = two_products(field, sum, y, word as u64, power);
        power = field::mul(field, power, x);
    }
    sum
}

// The scaled form of f in s, but for the factor c, and its value: t is x, and 1 - t is y.
fn value_in(field: u8, f: &[u16], x: u16, s: &mut [u16]) -> u16
    requires list { IsList (modulus field) (longest field) f.now }
    requires s_len { length s.old ≡ length f.now }
    ensures { result ≡ of.evaluate (field_at field) f.now x }
{
    let whole = field_tables::factorials(field);
    let part = field_tables::inverse_factorials(field);
    word_scaling::weigh_partly(field, f, part, s);
    let c = field::mul(field, whole[f.len() - 1], field::square_of(field));
    let y = field::sub(field, 1, x);
    homogeneous(field, s, x, y, c)
}

// The value of a list that is not refused, in an array of N words, which is filled with zeros.
fn value_sized<const N: usize>(field: u8, f: &[u16], x: u16) -> u16
    requires list { IsList (modulus field) (longest field) f.now }
    requires size { (length f.now ≤ N) × (N ≤ max_words) }
    ensures { result ≡ of.evaluate (field_at field) f.now x }
{
    let n = f.len();
    let mut s = [0u16; N];
    value_in(field, f, x, &mut s[..n])
}

// The same in an array of the size that the list needs.
fn value_at(field: u8, f: &[u16], x: u16) -> u16
    requires { IsList (modulus field) (longest field) f.now }
    ensures { result ≡ of.evaluate (field_at field) f.now x }
{
    if f.len() <= refusal::FEW_WORDS {
        return value_sized::<{ refusal::FEW_WORDS }>(field, f, x);
    }
    value_sized::<{ refusal::MAX_WORDS }>(field, f, x)
}
