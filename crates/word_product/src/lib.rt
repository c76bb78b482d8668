// The product of two scaled forms modulo p. Of few words each word is a sum of products, reduced once. Else the factors are laid in buffers
// (crate `word_layout`), and the product is formed by groups of sixteen rows (crate `word_grid`): a row is a word of the first factor times
// the second. The shorter factor is the first, as that has fewer words to form.
#![tactic(auto)]

ghost use Rattle.std.specs.Prelude.{◌≡◌, ◌+◌, ◌-◌, ◌*◌, ◌≤◌, ◌<◌, min, length};
ghost use Rattle.refusal.specs.Limits.{max_words};
ghost use Rattle.field.specs.Fields.{field_at};
ghost use Rattle.lists.specs.Words.{ZeroFrom};
ghost use Rattle.word_product.specs.Convolution.{convolved_into, convolution};
ghost use Rattle.word_product.specs.Sums.{word_sum, Ready};

// Two factors of at most so many words together take the smaller buffers, as there is less to fill with zeros; any two take the largest.
const FEW: usize = 48;

const MORE: usize = 272;

const MANY: usize = 704;

const ANY: usize = refusal::MAX_WORDS;

// The words of the buffers: for the first factor, for the second, for its pairs, and for each sum. A const argument has to be a name.
const FEW_FIRST: usize = FEW + 16;

const FEW_SECOND: usize = FEW + 48;

const FEW_PAIRS: usize = 2 * FEW + 96;

const FEW_SUMS: usize = FEW + 32;

const MORE_FIRST: usize = MORE + 16;

const MORE_SECOND: usize = MORE + 48;

const MORE_PAIRS: usize = 2 * MORE + 96;

const MORE_SUMS: usize = MORE + 32;

const MANY_FIRST: usize = MANY + 16;

const MANY_SECOND: usize = MANY + 48;

const MANY_PAIRS: usize = 2 * MANY + 96;

const MANY_SUMS: usize = MANY + 32;

const ANY_FIRST: usize = ANY + 16;

const ANY_SECOND: usize = ANY + 48;

const ANY_PAIRS: usize = 2 * ANY + 96;

const ANY_SUMS: usize = 2 * ANY + 32;

// A product of two words.
fn times(a: u16, b: u16) -> u64
    ensures { (result ≡ a * b) × (result ≤ 4294836225) }
{
    (a as u64) * (b as u64)
}

// The first row that has a word at k, where the second factor has m words. By a test: from `saturating_sub`, and `min` below, LLVM makes
// more to compute for each word, and a tiny product takes up to a tenth longer.
fn first_row(k: usize, m: usize) -> usize
    requires { (k ≤ 2 * max_words) × (m ≤ max_words) }
    ensures { result ≡ k + 1 - m }
{
    if k < m { 0 } else { k + 1 - m }
}

// After the last row that has one, where there are n rows.
fn end_row(k: usize, n: usize) -> usize
    requires { (k ≤ 2 * max_words) × (n ≤ max_words) }
    ensures { result ≡ min (k + 1) n }
{
    if k < n { k + 1 } else { n }
}

// Word k of the product, in whole numbers. An index: of the factors' words, zipped, a tiny product takes up to a tenth longer too.
fn dot(a: &[u16], b: &[u16], k: usize) -> u64
    requires { (k + 1 < length a.now + length b.now) × (length a.now ≤ max_words) × (length b.now ≤ max_words) }
    ensures { result ≡ word_sum a.now b.now k }
{
    let mut s = 0;
    for j in first_row(k, b.len())..end_row(k, a.len()) {
        s += times(a[j], b[k - j]);
    }
    s
}

// The product, word by word.
fn dots(field: u8, a: &[u16], b: &[u16], out: &mut [u16])
    requires { (length a.now ≤ max_words) × (length b.now ≤ max_words) × (length out.old + 1 ≡ length a.now + length b.now) }
    ensures { out.new ≡ convolution (field_at field) a.now b.now }
{
    for (k, word) in out.iter_mut().enumerate() {
        *word = field::reduce(field, dot(a, b, k));
    }
}

// The factors in their buffers, which are 0, for n strips of outputs. The strips read 16 n + 14 pairs of w; of
// 16 n + 16 none is left over from LLVM's vectors.
fn lay(a: &[u16], b: &[u16], x: &mut [u16], y: &mut [u16], w: &mut [u16], n: usize, p: u16)
    requires le_p { (32768 ≤ p) × (length a.now ≤ length x.old) × (length b.now + 15 ≤ 16 * n) × (16 * n + 16 < length y.old) × (32 * n + 32 ≤ length w.old) × (n ≤ 1024) }
    requires zero_from { ZeroFrom 0 x.old × ZeroFrom 0 y.old × ZeroFrom 0 w.old }
    ensures { Ready p a.now b.now w.new x.new }
{
    word_layout::centre(x, 0, a, p);
    word_layout::centre(y, 15, b, p);
    word_layout::weave(w, y, 16 * n + 16);
}

// The product, with buffers that are 0; v may hold anything. They are no struct: only the one caller has them all too, and each goes to other
// calls.
fn convolve_in(
    field: u8,
    a: &[u16],
    b: &[u16],
    x: &mut [u16],
    y: &mut [u16],
    w: &mut [u16],
    v: &mut [u16],
    lo: &mut [u32],
    hi: &mut [u32],
    out: &mut [u16],
)
    requires a_len_bound { (length a.now ≤ max_words) × (length b.now ≤ max_words) × (length out.old + 1 ≡ length a.now + length b.now) }
    requires a_in_bounds { (length a.now + 15 ≤ length x.old) × (length b.now + 47 ≤ length y.old) × (2 * length b.now + 92 ≤ length w.old) × (256 ≤ length v.old) }
    requires b_in_bounds { (length a.now + length b.now + 29 ≤ length lo.old) × (length a.now + length b.now + 29 ≤ length hi.old) }
    requires zero_from { ZeroFrom 0 x.old × ZeroFrom 0 y.old × ZeroFrom 0 w.old × ZeroFrom 0 lo.old × ZeroFrom 0 hi.old }
    ensures { out.new ≡ convolution (field_at field) a.now b.now }
{
    let p = field::modulus_of(field);
    let n = (b.len() + 30) / 16;
    lay(a, b, x, y, w, n, p);
    word_grid::add_rows(lo, hi, w, x, v, a.len(), n);
    word_grid::reduce_words(lo, hi, out, p as u32);
}

// The product, with buffers of so many words: X and Y for the factors, W for the second where each word has a neighbour, S for each sum.
fn convolve_sized<const X: usize, const Y: usize, const W: usize, const S: usize>(
    field: u8,
    a: &[u16],
    b: &[u16],
    out: &mut [u16],
)
    requires a_len_bound { (length a.now ≤ max_words) × (length b.now ≤ max_words) × (length out.old + 1 ≡ length a.now + length b.now) }
    requires fits { (length a.now + 15 ≤ X) × (length b.now + 47 ≤ Y) × (2 * length b.now + 92 ≤ W) × (length a.now + length b.now + 29 ≤ S) }
    requires sizes { (X ≤ 4096) × (Y ≤ 4096) × (W ≤ 4096) × (S ≤ 4096) }
    ensures { out.new ≡ convolution (field_at field) a.now b.now }
{
    let mut x = [0u16; X];
    let mut y = [0u16; Y];
    let mut w = [0u16; W];
    let mut v = [0u16; 256];
    let mut lo = [0u32; S];
    let mut hi = [0u32; S];
    convolve_in(
        field, a, b, &mut x, &mut y, &mut w, &mut v, &mut lo, &mut hi, out,
    );
}

// Two factors of at most so many words together are multiplied without buffers, where the first has n: the fewer products a word is the sum
// of, the longer that is quicker.
fn tiny(n: usize) -> usize
    ensures { result ≤ 24 }
{
    if n <= 4 { 24 } else { 20 }
}

// The product, where the lengths fit, with buffers of the sizes that it needs.
fn convolve_fitting(field: u8, a: &[u16], b: &[u16], out: &mut [u16])
    requires { (length a.now ≤ max_words) × (length b.now ≤ max_words) × (length out.old + 1 ≡ length a.now + length b.now) }
    ensures { out.new ≡ convolution (field_at field) a.now b.now }
{
    let together = a.len() + b.len();
    if together <= tiny(a.len()) {
        dots(field, a, b, out);
        return;
    }
    if together <= FEW {
        convolve_sized::<{ FEW_FIRST }, { FEW_SECOND }, { FEW_PAIRS }, { FEW_SUMS }>(
            field, a, b, out,
        );
        return;
    }
    if together <= MORE {
        convolve_sized::<{ MORE_FIRST }, { MORE_SECOND }, { MORE_PAIRS }, { MORE_SUMS }>(
            field, a, b, out,
        );
        return;
    }
    if together <= MANY {
        convolve_sized::<{ MANY_FIRST }, { MANY_SECOND }, { MANY_PAIRS }, { MANY_SUMS }>(
            field, a, b, out,
        );
        return;
    }
    convolve_sized::<{ ANY_FIRST }, { ANY_SECOND }, { ANY_PAIRS }, { ANY_SUMS }>(field, a, b, out);
}

// The words of the product of two scaled forms.
pub fn convolve(field: u8, a: &[u16], b: &[u16], out: &mut [u16])
    ensures { out.new ≡ convolved_into (field_at field) max_words a.now b.now out.old }
{
    if refusal::MAX_WORDS < a.len() {
        return;
    }
    if refusal::MAX_WORDS < b.len() {
        return;
    }
    if out.len() + 1 != a.len() + b.len() {
        return;
    }
    if b.len() < a.len() {
        convolve_fitting(field, b, a, out);
        return;
    }
    convolve_fitting(field, a, b, out);
}
