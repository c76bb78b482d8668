// The product of two scaled forms modulo p, from three products of their halves while these are long (Karatsuba). a0 and b0 are the first h
// words of the factors, a1 and b1 the rest. Factors that are not cut go to crate `word_product`.
#![tactic(auto)]

ghost use Rattle.std.specs.Prelude.{IfSome, ◌≡◌, ◌||◌, ◌+◌, ◌-◌, ◌*◌, ◌%◌, ◌≤◌, ◌<◌, eqb, ltb, length};
ghost use Rattle.refusal.specs.Limits.{max_words};
ghost use Rattle.field.specs.Fields.{modulus, field_at};
ghost use Rattle.lists.specs.Words.{ZeroFrom, Tight};
ghost use Rattle.word_product.specs.Convolution.{convolved_into, convolution};
ghost use Rattle.word_row.specs.Rows.{row};
ghost use Rattle.word_division.specs.Reduction.{negated};
ghost use Rattle.word_karatsuba.specs.Halves.{Cut, Apart, halves_added, products_joined};

// Two factors of at most so many words together are not cut: `word_product` is about as quick with the whole as with the parts.
const SHORT: usize = 400;

// The words of the buffers: the sum of the halves of the first factor, that of the second, which may have a word more, and their product.
const FIRST: usize = refusal::MAX_WORDS / 2;

const SECOND: usize = refusal::MAX_WORDS / 2 + 1;

const MIDDLE: usize = refusal::MAX_WORDS;

// How many words a0 and b0 have, where the factors are cut: they are long, and the second has about as many words as the first.
fn halving(n: usize, m: usize) -> Option<usize>
    requires { (n ≤ max_words) × (m ≤ max_words) }
    ensures { IfSome result (Cut n m) }
{
    let h = (n + 1) / 2;
    if n + m <= SHORT {
        return None;
    }
    if 2 * h + 1 < m {
        return None;
    }
    if 2 * m < 3 * h {
        return None;
    }
    Some(h)
}

// a plus b modulo p, as a row has it. b need not be below p.
fn plus(a: u16, b: u16, p: u16) -> u16
    requires { (a < p) × (32768 ≤ p) }
    ensures { result ≡ (a + 1 * b) % p }
{
    word_montgomery::sub_below(a, p - word_montgomery::once_reduced(b, p), p)
}

// x plus y. The words of x are below p; those of y need not be. x by index, here and below: what a loop over `zip` writes through
// `iter_mut` no proof knows.
fn add_words(x: &mut [u16], y: &[u16], p: u16)
    requires { (length y.now ≤ length x.old) × (32768 ≤ p) × Tight p x.old }
    ensures { x.new ≡ row p x.old 1 y.now }
{
    for (i, b) in y.iter().enumerate() {
        x[i] = plus(x[i], *b, p);
    }
}

// x less y. All words are below p.
pub fn sub_words(x: &mut [u16], y: &[u16], p: u16)
    requires { (length y.now ≤ length x.old) × (2 ≤ p) × Tight p x.old × Tight p y.now }
    ensures { x.new ≡ row p x.old (negated p 1) y.now }
{
    for (i, b) in y.iter().enumerate() {
        x[i] = word_montgomery::sub_below(x[i], *b, p);
    }
}

// x, whose words are below p, plus the first h words of a list, plus the rest of it.
fn add_halves(field: u8, list: &[u16], h: usize, x: &mut [u16])
    requires { (h ≤ length list.now) × (h ≤ length x.old) × (length list.now ≤ h + length x.old) × Tight (modulus field) x.old }
    ensures { x.new ≡ halves_added (modulus field) h list.now x.old }
{
    let p = field::modulus_of(field);
    add_words(x, &list[..h], p);
    add_words(x, &list[h..], p);
}

// out has a0 b0 and, from word 2 h on, a1 b1; s has (a0 + a1) (b0 + b1). Less the two it is a0 b1 + a1 b0, which out gains from word h on.
fn join(field: u8, h: usize, s: &mut [u16], out: &mut [u16])
    requires le_h { (1 ≤ h) × (2 * h ≤ length s.old) × (length s.old + h ≤ length out.old) × (length out.old ≤ length s.old + 2 * h) }
    requires out_len_bound { (length out.old < 2 * max_words) × Tight (modulus field) s.old × Tight (modulus field) out.old }
    ensures { out.new ≡ products_joined (modulus field) h s.old out.old }
{
    let p = field::modulus_of(field);
    sub_words(s, &out[..2 * h - 1], p);
    sub_words(s, &out[2 * h..], p);
    add_words(&mut out[h..], s, p);
}

// a0 b0 in out and, from word 2 h on, a1 b1, with a 0 between them.
#[cycle(convolve_fitting_convolve_in_convolve_parts)]
fn convolve_parts(field: u8, a: &[u16], b: &[u16], h: usize, out: &mut [u16])
    requires cut { Cut (length a.now) (length b.now) h }
    requires a_len_bound { (length a.now ≤ max_words) × (length b.now ≤ max_words) × (length out.old + 1 ≡ length a.now + length b.now) }
    ensures { Apart (field_at field) h a.now b.now out.new }
{
    convolve_fitting(field, &a[..h], &b[..h], &mut out[..2 * h - 1]);
    out[2 * h - 1] = 0;
    convolve_fitting(field, &a[h..], &b[h..], &mut out[2 * h..]);
}

// The product of factors that are cut. x and y are 0.
#[cycle(convolve_fitting_convolve_in_convolve_parts)]
fn convolve_in(
    field: u8,
    a: &[u16],
    b: &[u16],
    h: usize,
    x: &mut [u16],
    y: &mut [u16],
    s: &mut [u16],
    out: &mut [u16],
)
    requires cut { Cut (length a.now) (length b.now) h }
    requires a_len_bound { (length a.now ≤ max_words) × (length b.now ≤ max_words) × (length out.old + 1 ≡ length a.now + length b.now) }
    requires x_len { (length x.old ≡ h) × (length y.old ≡ h + 1) × (length s.old ≡ 2 * h) }
    requires zero_from { ZeroFrom 0 x.old × ZeroFrom 0 y.old }
    ensures { out.new ≡ convolution (field_at field) a.now b.now }
{
    add_halves(field, a, h, x);
    add_halves(field, b, h, y);
    convolve_fitting(field, x, y, s);
    convolve_parts(field, a, b, h, out);
    join(field, h, s, out);
}

// The product, where the lengths fit.
#[cycle(convolve_fitting_convolve_in_convolve_parts)]
fn convolve_fitting(field: u8, a: &[u16], b: &[u16], out: &mut [u16])
    requires { (length a.now ≤ max_words) × (length b.now ≤ max_words) × (length out.old + 1 ≡ length a.now + length b.now) }
    ensures { out.new ≡ convolution (field_at field) a.now b.now }
{
    let Some(h) = halving(a.len(), b.len()) else {
        word_product::convolve(field, a, b, out);
        return;
    };
    let k = h + 1;
    let n = 2 * h;
    let mut x = [0u16; FIRST];
    let mut y = [0u16; SECOND];
    let mut s = [0u16; MIDDLE];
    convolve_in(field, a, b, h, &mut x[..h], &mut y[..k], &mut s[..n], out);
}

// Whether the factors are exchanged. They are best cut where the second has as many words as the first or one more; of others, where it is
// the shorter.
fn is_turned(n: usize, m: usize) -> bool
    requires { (n ≤ max_words) × (m ≤ max_words) }
    ensures { result ≡ (eqb n (m + 1) || ltb (n + 1) m) }
{
    n == m + 1 || n + 1 < m
}

// The words of the product of two scaled forms. Short factors go to `word_product` from here: called from two places, it is not written into
// the recursion, where each level would have its buffers.
pub fn convolve(field: u8, a: &[u16], b: &[u16], out: &mut [u16])
    ensures { out.new ≡ convolved_into (field_at field) max_words a.now b.now out.old }
{
    if refusal::MAX_WORDS < a.len() {
        return;
    }
    if refusal::MAX_WORDS < b.len() {
        return;
    }
    if a.len() + b.len() <= SHORT {
        word_product::convolve(field, a, b, out);
        return;
    }
    if out.len() + 1 != a.len() + b.len() {
        return;
    }
    if is_turned(a.len(), b.len()) {
        convolve_fitting(field, b, a, out);
        return;
    }
    convolve_fitting(field, a, b, out);
}
