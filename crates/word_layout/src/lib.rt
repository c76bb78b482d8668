// The two factors of a product in their buffers, as crate `word_strips` reads them.
#![tactic(auto)]

ghost use Rattle.std.specs.Prelude.{◌+◌, ◌*◌, ◌<◌, ◌≤◌, length};
ghost use Rattle.lists.specs.Words.{ZeroFrom};
ghost use Rattle.word_pairs.specs.Pairs.{up};
ghost use Rattle.word_strips.specs.Strips.{Spread};
ghost use Rattle.word_layout.specs.Layout.{Stand, Centred, Repeated, Woven};

// A word as the bits of a signed integer that is the same modulo p: from 2^15 on, p is taken off. The word need not be below p.
fn centred(a: u16, p: u16) -> u16
    requires { 32768 ≤ p }
    ensures { Stand p a result × (0 < up result) }
{
    if a < 32768 { a } else { a.wrapping_sub(p) }
}

// The words of a list, centred, from d on, in s, which is 0. What is written here and below is written by index: what a loop over a part's
// `iter_mut` or over `chunks_exact_mut` writes no proof knows.
pub fn centre(s: &mut [u16], d: usize, list: &[u16], p: u16)
    requires { (d + length list.now ≤ length s.old) × (d ≤ 65536) × (32768 ≤ p) × ZeroFrom 0 s.old }
    ensures { Centred p d list.now s.new (length list.now) }
{
    for (i, a) in list.iter().enumerate() {
        s[d + i] = centred(*a, p);
    }
}

// Two words, sixteen times, from o on.
fn repeat_pair(v: &mut [u16], o: usize, s: u16, t: u16)
    requires { (o + 32 ≤ length v.old) × (o ≤ 65536) }
    ensures { Repeated o s t 16 v.old v.new }
{
    for l in 0..16 {
        let k = o + 2 * l;
        v[k] = s;
        v[k + 1] = t;
    }
}

// The first n pairs of words of x from d on, each sixteen times.
pub fn spread(v: &mut [u16], x: &[u16], d: usize, n: usize)
    requires { (32 * n ≤ length v.old) × (d + 2 * n ≤ length x.now) × (d ≤ 65536) × (n ≤ 8) }
    ensures { Spread n v.new x.now d }
{
    for j in 0..n {
        repeat_pair(v, 32 * j, x[d + 2 * j], x[d + 2 * j + 1]);
    }
}

// Each of the words 1 to n of y beside the one before it, in w, which is 0.
pub fn weave(w: &mut [u16], y: &[u16], n: usize)
    requires { (2 * n ≤ length w.old) × (n < length y.now) × (n ≤ 65536) × ZeroFrom 0 w.old }
    ensures { Woven y.now w.new n }
{
    for q in 0..n {
        let k = 2 * q;
        w[k] = y[q + 1];
        w[k + 1] = y[q];
    }
}
