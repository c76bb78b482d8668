// A product modulo p by groups of sixteen rows (crate `word_strips`), and the reduction of its sums.
#![tactic(auto)]

ghost use Rattle.std.specs.Prelude.{◌≡◌, ◌+◌, ◌*◌, ◌/◌, ◌%◌, ◌<◌, ◌≤◌, length};
ghost use Rattle.lists.specs.Words.{ZeroFrom};
ghost use Rattle.word_pairs.specs.Pairs.{Odd};
ghost use Rattle.word_grid.specs.Grid.{Grid, low_of, high_of, Reducible, reduced_words};

// Groups of sixteen rows, one after the other, each of n strips. v is rewritten for each.
fn groups(
    lo: &mut [u32],
    hi: &mut [u32],
    w: &[u16],
    x: &[u16],
    v: &mut [u16],
    count: usize,
    n: usize,
)
    requires n_in_bounds { (16 * count + 16 * n ≤ length lo.old + 16) × (16 * count + 16 * n ≤ length hi.old + 16) × (32 * n + 28 ≤ length w.now) × (16 * count ≤ length x.now) × (256 ≤ length v.old) × (count ≤ 64) × (n ≤ 1024) }
    requires odd { Odd w.now }
    ensures { Grid w.now x.now n lo.old hi.old count lo.new hi.new }
{
    for g in 0..count {
        word_layout::spread(v, x, 16 * g, 8);
        word_strips::group::<false>(lo, hi, w, x, v, g, n);
    }
}

// All rows, m of them. Where eight or fewer are left for the last group, half of it is enough.
pub fn add_rows(
    lo: &mut [u32],
    hi: &mut [u32],
    w: &[u16],
    x: &[u16],
    v: &mut [u16],
    m: usize,
    n: usize,
)
    requires n_in_bounds { (m + 16 * n ≤ length lo.old + 1) × (m + 16 * n ≤ length hi.old + 1) × (32 * n + 28 ≤ length w.now) × (m + 15 ≤ length x.now) × (256 ≤ length v.old) × (m ≤ 1024) × (n ≤ 1024) }
    requires odd { Odd w.now × ZeroFrom m x.now }
    ensures { Grid w.now x.now n lo.old hi.old ((m + 15) / 16) lo.new hi.new }
{
    let g = (m + 7) / 16;
    groups(lo, hi, w, x, v, g, n);
    if 16 * g < m {
        word_layout::spread(v, x, 16 * g, 4);
        word_strips::group::<true>(lo, hi, w, x, v, g, n);
    }
}

// 2^16 modulo p. LLVM sees that it has 6 bits, so that a product with a number of 15 bits is one instruction (pmaddwd).
fn excess(p: u32) -> u32
    requires { (65497 ≤ p) × (p ≤ 65521) }
    ensures { (result + p ≡ 65536) × (result ≤ 39) }
{
    (65536 - p) % 64
}

// A number of 31 bits, made smaller modulo p.
fn fold(r: u32, p: u32) -> u32
    requires { (65497 ≤ p) × (p ≤ 65521) × (r < 2147483648) }
    ensures { (result + p * (r / 65536) ≡ r) × (result ≤ 65535 + 39 * (r / 65536)) }
{
    r % 65536 + excess(p) * (r / 65536 % 32768)
}

// A number below 2 p modulo p: with 2^16 - p it passes 2^16 where it is not below p.
fn last(r: u32, p: u32) -> u16
    requires { (65497 ≤ p) × (p ≤ 65521) × (r < 2 * p) }
    ensures { result ≡ r % p }
{
    let c = excess(p);
    ((r + c * ((r + c) / 65536 % 32768)) % 65536) as u16
}

// The sum of the low halves, from both sums.
fn low_of(a: u32, b: u32) -> u32
    ensures { result ≡ low_of a b }
{
    a.wrapping_sub(65536 * (b % 65536))
}

// The sum of the high halves, with a multiple of p that makes it a number.
fn high_of(b: u32, p: u32) -> u32
    requires { p ≤ 65521 }
    ensures { result ≡ high_of p b }
{
    b.wrapping_add(512 * p)
}

// The remainder of the two halves' sums.
fn reduce(a: u32, b: u32, p: u32) -> u16
    requires { (65497 ≤ p) × (p ≤ 65521) × (low_of a b ≤ 33554432) × (high_of p b ≤ 50331648) }
    ensures { result ≡ (low_of a b + 65536 * high_of p b) % p }
{
    last(
        fold(fold(low_of(a, b) + excess(p) * high_of(b, p), p), p),
        p,
    )
}

// All words, reduced.
pub fn reduce_words(lo: &[u32], hi: &[u32], out: &mut [u16], p: u32)
    requires { (65497 ≤ p) × (p ≤ 65521) × (length out.old ≤ length lo.now) × (length out.old ≤ length hi.now) × Reducible p lo.now hi.now }
    ensures { out.new ≡ reduced_words p (length out.old) lo.now hi.now }
{
    for (k, word) in out.iter_mut().enumerate() {
        *word = reduce(lo[k], hi[k], p);
    }
}
