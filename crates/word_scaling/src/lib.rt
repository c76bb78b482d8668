// Words weighed with tables: with those of factorials, a list's scaled form, and the list of a scaled form. Total: where the slices' lengths do
// not fit, nothing is written. The loops go over places: of what a `zip` over `iter_mut` has written a proof knows nothing.
#![tactic(auto)]

ghost use Rattle.std.specs.Prelude.{◌≡◌, ◌*◌, ◌%◌, ◌<◌, ◌≤◌, length};
ghost use Rattle.field.specs.Fields.{modulus, word_inverse};
ghost use Rattle.lists.specs.Words.{Tight};
ghost use Rattle.word_montgomery.specs.Montgomery.{montgomery};
ghost use Rattle.word_scaling.specs.Scaling.{weighed_into, weighted, partly, partly_weighted};

// x times y divided by 2^16 modulo p, where e is 1/p modulo 2^16: the multiple of p that has the low half of x times y is taken off. The
// two high halves are compared by their differences from p: themselves LLVM would compare in 32 bits.
fn montgomery_product(x: u16, y: u16, p: u16, e: u16) -> u16
    requires { y < p }
    ensures { result ≡ montgomery p e x y }
{
    let high = word_montgomery::high_half(x, y);
    let less = word_montgomery::high_half(
        word_montgomery::low_half(word_montgomery::low_half(x, y), e),
        p,
    );
    let d = high.wrapping_sub(less);
    if p.wrapping_sub(less) < p.wrapping_sub(high) {
        d.wrapping_add(p)
    } else {
        d
    }
}

// x times d times a times b modulo p, by Montgomery's products. Each divides by 2^16, and the constant is 2^64 modulo p. The first is the same
// in each turn of a loop that does not change d, and LLVM does it before the loop.
fn product_of_four(field: u8, x: u16, d: u16, a: u16, b: u16) -> u16
    ensures { result ≡ (x * d * a * b) % modulus field }
{
    let p = field::modulus_of(field);
    let e = field::word_inverse_of(field);
    let c = montgomery_product(d, field::fourth_of(field), p, e);
    let xc = montgomery_product(x, c, p, e);
    let xca = montgomery_product(a, xc, p, e);
    montgomery_product(b, xca, p, e)
}

// Word k times whole[n], part[k] and part[n - k], n + 1 being the length of out. C(n,k) is n! / (k! (n - k)!): with the factorials as
// whole and their inverses as part the words are multiplied by C(n,k), and with the two exchanged they are divided by it.
#[tactic(auto, unfolding(crate::specs::Scaling::weigh_fits))]
pub fn weigh(field: u8, words: &[u16], whole: &[u16], part: &[u16], out: &mut [u16])
    ensures { out.new ≡ weighed_into (modulus field) words.now whole.now part.now out.old }
{
    if words.len() < out.len() {
        return;
    }
    if whole.len() < out.len() {
        return;
    }
    if part.len() < out.len() {
        return;
    }
    weigh_in(field, words, whole, part, out);
}

// The same, where the lengths fit.
fn weigh_in(field: u8, words: &[u16], whole: &[u16], part: &[u16], out: &mut [u16])
    requires { (length out.old ≤ length words.now) × (length out.old ≤ length whole.now) × (length out.old ≤ length part.now) }
    ensures { out.new ≡ weighted (modulus field) whole.now part.now (length out.old) words.now }
{
    if out.is_empty() {
        return;
    }
    let n = out.len();
    let d = whole[n - 1];
    for k in 0..n {
        out[k] = product_of_four(field, words[k], d, part[k], part[n - 1 - k]);
    }
}

// x times a times b divided by 2^32 modulo p, by two of Montgomery's products.
fn product_of_three(field: u8, x: u16, a: u16, b: u16) -> u16
    requires { x < modulus field }
    ensures { result ≡ partly (modulus field) (word_inverse field) x a b }
{
    let p = field::modulus_of(field);
    let e = field::word_inverse_of(field);
    let xa = montgomery_product(a, x, p, e);
    montgomery_product(b, xa, p, e)
}

// Word k times part[k] and part[n - 1 - k], divided by 2^32, n being the length of out. Times whole[n - 1] and 2^32 these are the words that
// `weigh` writes: where these factors can be left to the end, a word takes two products and not three. No word is loose.
pub fn weigh_partly(field: u8, words: &[u16], part: &[u16], out: &mut [u16])
    requires { (length out.old ≤ length words.now) × (length out.old ≤ length part.now) × Tight (modulus field) words.now }
    ensures { out.new ≡ partly_weighted (modulus field) (word_inverse field) part.now (length out.old) words.now }
{
    let n = out.len();
    for k in 0..n {
        out[k] = product_of_three(field, words[k], part[k], part[n - 1 - k]);
    }
}
