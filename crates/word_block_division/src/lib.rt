// Division of words in blocks of the quotient. A block's words are the top of a product: that of the words of x that the block clears and
// of the reciprocal of the divisor's top, which is made once. The block's product with the divisor is then taken off x. Both products are
// those of crate `word_product`. Short divisions go to crate `word_division`, row by row.
#![tactic(auto)]

ghost use Rattle.std.specs.Prelude.{◌≡◌, IfSome, true, List, ℕ, ◌+◌, ◌-◌, ◌*◌, ◌≤◌, length, take, drop};
ghost use Rattle.refusal.specs.Limits.{max_words};
ghost use Rattle.field.specs.Fields.{modulus, field_at};
ghost use Rattle.lists.specs.Words.{ZeroFrom, Tight};
ghost use Rattle.word_division.specs.Reduction.{words_reduced, words_of_quotient, reduced, digits};
ghost use Rattle.word_block_division.specs.Blocks.{block_words, Inverts, Suits, Reciprocal, Divided, Begun};

// The words of a block, for divisions that are long and for those that are shorter.
const LONG: usize = 64;

const SHORT: usize = 32;

// How many words a block has, where rows are not quicker.
fn block_words(n: usize, k: usize) -> Option<usize>
    ensures { IfSome result (λ e. (1 ≤ e) × (e ≤ block_words) × (e ≤ n)) }
{
    if n.min(k) < SHORT {
        None
    } else if n < 4 * LONG {
        Some(SHORT)
    } else {
        Some(LONG)
    }
}

// Whether the division can be made in blocks: the lengths fit, no word is loose, and inv is the inverse of the divisor's last word.
fn is_suited(field: u8, x: &[u16], y: &[u16], inv: u16, k: usize) -> bool
    ensures { result ≡ true → Suits (modulus field) inv x.now y.now k }
{
    let n = y.len();
    1 <= n
        && n <= refusal::MAX_WORDS
        && n <= x.len()
        && x.len() - n + 1 == k
        && !lists::has_loose(field, x)
        && !lists::has_loose(field, y)
        && field::mul(field, inv, y[n - 1]) == 1
}

// The reciprocal of a divisor's top, of as many words: the quotient of u^(2 e - 2) by it. z is 0.
fn invert(field: u8, top: &[u16], inv: u16, z: &mut [u16], s: &mut [u16])
    requires { Inverts (modulus field) inv top.now × (length s.old ≡ length top.now) × (length z.old + 1 ≡ 2 * length top.now) × ZeroFrom 0 z.old }
    ensures { Reciprocal (field_at field) top.now s.new }
{
    let last = z.len() - 1;
    z[last] = 1;
    word_division::reduce(field, z, top, inv, s);
}

// One block: x, of so many words more than the remainder as the block has, becomes the remainder, and q the quotient.
fn reduce_block(
    field: u8,
    x: &mut [u16],
    y: &[u16],
    s: &[u16],
    q: &mut [u16],
    t: &mut [u16],
    v: &mut [u16],
)
    requires reciprocal { Reciprocal (field_at field) (drop (length y.now - length s.now) y.now) s.now × Tight (modulus field) x.old }
    requires y_len_bound { (length y.now ≤ max_words) × (length s.now ≤ length y.now) × (1 ≤ length q.old) × (length q.old ≤ length s.now) }
    requires x_len { (length x.old + 1 ≡ length y.now + length q.old) × (length t.old + 1 ≡ length q.old + length s.now) × (length v.old ≡ length x.old) }
    ensures { Divided (field_at field) y.now x.old q.new x.new }
{
    let d = y.len() - 1;
    let e = s.len() - 1;
    word_product::convolve(field, &x[d..], s, t);
    q.copy_from_slice(&t[e..]);
    word_product::convolve(field, q, y, v);
    word_karatsuba::sub_words(x, v, field::modulus_of(field));
}

// The block of n words from k on, of a division that has come to word k + n of the quotient.
fn reduce_at(
    field: u8,
    x: &mut [u16],
    y: &[u16],
    s: &[u16],
    q: &mut [u16],
    t: &mut [u16],
    v: &mut [u16],
    k: usize,
    n: usize,
)
    requires reciprocal { Reciprocal (field_at field) (drop (length y.now - length s.now) y.now) s.now × Tight (modulus field) x.old }
    requires y_len_bound { (length y.now ≤ max_words) × (length s.now ≤ length y.now) × (1 ≤ n) × (n ≤ length s.now) }
    requires y_in_bounds { (k + n + length y.now ≤ length x.old + 1) × (k + n ≤ length q.old) × (n + length s.now ≤ length t.old + 1) × (n + length y.now ≤ length v.old + 1) }
    ensures { (x₀ : List ℕ) → Begun (field_at field) y.now x₀ (k + n) x.old q.old → Begun (field_at field) y.now x₀ k x.new q.new }
{
    let m = n + y.len() - 1;
    let l = n + s.len() - 1;
    reduce_block(
        field,
        &mut x[k..k + m],
        y,
        s,
        &mut q[k..k + n],
        &mut t[..l],
        &mut v[..m],
    );
}

// All blocks, from the top.
fn reduce_blocks(
    field: u8,
    x: &mut [u16],
    y: &[u16],
    s: &[u16],
    q: &mut [u16],
    t: &mut [u16],
    v: &mut [u16],
)
    requires reciprocal { Reciprocal (field_at field) (drop (length y.now - length s.now) y.now) s.now × Tight (modulus field) x.old }
    requires y_len_bound { (length y.now ≤ max_words) × (1 ≤ length s.now) × (length s.now ≤ length y.now) }
    requires x_len { (length x.old + 1 ≡ length y.now + length q.old) × (length t.old + 1 ≡ 2 * length s.now) × (length y.now + length s.now ≤ length v.old + 1) }
    ensures { Divided (field_at field) y.now x.old q.new x.new }
{
    // By hand: k is a block's place in x too, where the parts of two blocks overlap.
    let mut k = q.len();
    while 0 < k {
        let n = k.min(s.len());
        k -= n;
        reduce_at(field, x, y, s, q, t, v, k, n);
    }
}

// The division, with buffers that are 0.
fn reduce_in(
    field: u8,
    x: &mut [u16],
    y: &[u16],
    inv: u16,
    q: &mut [u16],
    s: &mut [u16],
    t: &mut [u16],
    v: &mut [u16],
)
    requires suits { Suits (modulus field) inv x.old y.now (length q.old) × (1 ≤ length s.old) × (length s.old ≤ length y.now) }
    requires t_len { (length t.old + 1 ≡ 2 * length s.old) × (length y.now + length s.old ≤ length v.old + 1) × ZeroFrom 0 t.old }
    ensures { Divided (field_at field) y.now x.old q.new x.new }
{
    let c = y.len() - s.len();
    invert(field, &y[c..], inv, t, s);
    reduce_blocks(field, x, y, s, q, t, v);
}

// The division in blocks of e words.
fn reduce_by(field: u8, x: &mut [u16], y: &[u16], inv: u16, q: &mut [u16], e: usize)
    requires { Suits (modulus field) inv x.old y.now (length q.old) × (1 ≤ e) × (e ≤ block_words) × (e ≤ length y.now) }
    ensures { Divided (field_at field) y.now x.old q.new x.new }
{
    let m = 2 * e - 1;
    let mut s = [0u16; LONG];
    let mut t = [0u16; 2 * LONG - 1];
    let mut v = [0u16; refusal::MAX_WORDS + LONG];
    reduce_in(field, x, y, inv, q, &mut s[..e], &mut t[..m], &mut v);
}

// Division of x by y from the top: the quotient's words go to q, what is left stays in x. `inv` is the inverse of y's last word.
pub fn reduce(field: u8, x: &mut [u16], y: &[u16], inv: u16, q: &mut [u16])
    ensures left { x.new ≡ words_reduced (modulus field) inv x.old y.now q.old }
    ensures quotient { q.new ≡ words_of_quotient (modulus field) inv x.old y.now q.old }
{
    match block_words(y.len(), q.len()) {
        Some(e) if is_suited(field, x, y, inv, q.len()) => reduce_by(field, x, y, inv, q, e),
        _ => word_division::reduce(field, x, y, inv, q),
    }
}

// The division of x by the first n words of y, where the words of x are below p, and y is 0 after these. x may have more words than the
// division reaches.
pub fn reduce_padded(field: u8, x: &mut [u16], y: &[u16], n: usize, inv: u16, q: &mut [u16])
    requires le_n { (1 ≤ n) × (n ≤ length y.now) × (n - 1 + length q.old ≤ length x.old) }
    requires tight { Tight (modulus field) x.old }
    requires zero_from { ZeroFrom n y.now }
    ensures left { x.new ≡ reduced (modulus field) inv (take n y.now) (length q.old) x.old }
    ensures quotient { q.new ≡ digits (modulus field) inv (take n y.now) (length q.old) x.old }
{
    if q.len() < SHORT {
        word_division::reduce_padded(field, x, y, n, inv, q);
        return;
    }
    let m = n - 1 + q.len();
    reduce(field, &mut x[..m], &y[..n], inv, q);
}
