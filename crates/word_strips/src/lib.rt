// Sixteen rows of a product, by pairs: row j is word j of the first factor times the second. Their words are added to two sums, of the
// whole pairs and of their high halves, both modulo 2^32. The second factor stands in w, behind 15 zeros, each word beside the one before it;
// the sixteen words of the first factor x stand in v, eight pairs, each sixteen times, so that LLVM reads both factors by vectors. Group g has
// the rows from 16 g on, strip s of it sixteen outputs, from 16 s on: given these numbers in place of rows and outputs, LLVM takes the half
// strips by vectors too (seen in the object code).
#![tactic(auto)]

ghost use Rattle.std.specs.Prelude.{◌+◌, ◌*◌, ◌<◌, ◌≤◌, if◌then◌else◌, IsTrue, length};
ghost use Rattle.lists.specs.Words.{ZeroFrom};
ghost use Rattle.word_pairs.specs.Pairs.{Odd};
ghost use Rattle.word_strips.specs.Strips.{Spread, Span};

// A strip of a group. x says what v repeats. Where the last eight rows of the group are 0, their pairs add nothing, and half a strip leaves
// them out.
fn strip<const HALF: bool>(
    lo: &mut [u32],
    hi: &mut [u32],
    w: &[u16],
    x: &[u16],
    v: &[u16],
    g: usize,
    s: usize,
)
    requires s_in_bounds { (16 * g + 16 * s + 16 ≤ length lo.old) × (16 * g + 16 * s + 16 ≤ length hi.old) × (32 * s + 60 ≤ length w.now) × (g ≤ 128) × (s ≤ 1024) }
    requires v_len { (if HALF then 128 else 256) ≤ length v.now }
    requires odd { Odd w.now }
    requires spread { Spread (if HALF then 4 else 8) v.now x.now (16 * g) }
    requires zero_from { IsTrue HALF → ZeroFrom (16 * g + 8) x.now }
    ensures { Span w.now x.now (16 * g) (16 * s) (16 * s + 16) lo.old hi.old lo.new hi.new }
{
    let o = 16 * (g + s);
    for l in 0..16 {
        let i = 2 * (16 * s + l);
        let j = 2 * l;
        let t0 = word_pairs::pair_at(w, v, i, 28, j, 0);
        let t1 = word_pairs::pair_at(w, v, i, 24, j, 32);
        let t2 = word_pairs::pair_at(w, v, i, 20, j, 64);
        let t3 = word_pairs::pair_at(w, v, i, 16, j, 96);
        let mut a = word_pairs::gain_whole(lo[o + l], t0, t1, t2, t3);
        let mut h = word_pairs::gain_high(hi[o + l], t0, t1, t2, t3);
        if !HALF {
            let t4 = word_pairs::pair_at(w, v, i, 12, j, 128);
            let t5 = word_pairs::pair_at(w, v, i, 8, j, 160);
            let t6 = word_pairs::pair_at(w, v, i, 4, j, 192);
            let t7 = word_pairs::pair_at(w, v, i, 0, j, 224);
            a = word_pairs::gain_whole(a, t4, t5, t6, t7);
            h = word_pairs::gain_high(h, t4, t5, t6, t7);
        }
        lo[o + l] = a;
        hi[o + l] = h;
    }
}

// A group on all its outputs, n strips; half of it is enough where its last eight rows are 0.
pub fn group<const HALF: bool>(
    lo: &mut [u32],
    hi: &mut [u32],
    w: &[u16],
    x: &[u16],
    v: &[u16],
    g: usize,
    n: usize,
)
    requires n_in_bounds { (16 * g + 16 * n ≤ length lo.old) × (16 * g + 16 * n ≤ length hi.old) × (32 * n + 28 ≤ length w.now) × (g ≤ 128) × (n ≤ 1024) }
    requires v_len { (if HALF then 128 else 256) ≤ length v.now }
    requires odd { Odd w.now }
    requires spread { Spread (if HALF then 4 else 8) v.now x.now (16 * g) }
    requires zero_from { IsTrue HALF → ZeroFrom (16 * g + 8) x.now }
    ensures { Span w.now x.now (16 * g) 0 (16 * n) lo.old hi.old lo.new hi.new }
{
    for s in 0..n {
        strip::<HALF>(lo, hi, w, x, v, g, s);
    }
}
