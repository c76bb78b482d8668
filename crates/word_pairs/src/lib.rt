// Sums of products of signed words of 16 bits, two products at a time. LLVM forms four such pairs by one instruction (pmaddwd) where each
// pair is used twice: in a sum modulo 2^32 and, without its low half, in a second sum. Words are unsigned in memory and read as signed.
#![tactic(auto)]

ghost use Rattle.std.specs.Prelude.{◌≡◌, ◌+◌, ◌*◌, ◌/◌, ◌%◌, ◌<◌, length, FitsSigned, slice_index};
ghost use Rattle.std.specs.Int.{w32};
ghost use Rattle.word_pairs.specs.Pairs.{up, up32, Diff, pair_of, Odd};

// A word's bits as a signed integer.
fn signed(x: u16) -> i32
    ensures { Diff result (up x) 32768 }
{
    i32::from(x.cast_signed())
}

// The sum of two products.
fn pair(w0: u16, v0: u16, w1: u16, v1: u16) -> i32
    requires { (0 < up w0) × (0 < up w1) }
    ensures { FitsSigned w32 result × (up32 result ≡ pair_of w0 v0 w1 v1) }
{
    signed(w0) * signed(v0) + signed(w1) * signed(v1)
}

// The sum of two products of neighbours.
pub fn pair_at(w: &[u16], v: &[u16], i: usize, d: usize, j: usize, e: usize) -> i32
    requires { (i + d + 1 < length w.now) × (j + e + 1 < length v.now) × (i < 65536) × (d < 65536) × (j < 65536) × (e < 65536) × Odd w.now }
    ensures { FitsSigned w32 result × (up32 result ≡ pair_of (slice_index w.now (i + d)) (slice_index v.now (j + e)) (slice_index w.now (i + d + 1)) (slice_index v.now (j + e + 1))) }
{
    pair(w[i + d], v[j + e], w[i + d + 1], v[j + e + 1])
}

// The high half, above -2^15.
fn high(t: i32) -> u32
    ensures { result ≡ up32 t / 65536 }
{
    ((t >> 16) + 32768) as u32
}

// One integer more, modulo 2^32.
fn add_bits(s: u32, t: i32) -> u32
    ensures { result ≡ (s + (up32 t + 2147483648)) % 4294967296 }
{
    s.wrapping_add(t.cast_unsigned())
}

// One high half more, modulo 2^32.
fn add_high(s: u32, t: i32) -> u32
    ensures { result ≡ (s + up32 t / 65536) % 4294967296 }
{
    s.wrapping_add(high(t))
}

// Four integers more, modulo 2^32: 4 · 2^31 is 0.
pub fn gain_whole(a: u32, t0: i32, t1: i32, t2: i32, t3: i32) -> u32
    ensures { result ≡ (a + (up32 t0 + up32 t1 + up32 t2 + up32 t3)) % 4294967296 }
{
    let s0 = add_bits(a, t0);
    let s1 = add_bits(s0, t1);
    let s2 = add_bits(s1, t2);
    add_bits(s2, t3)
}

// Four high halves more, modulo 2^32, each less the 2^15 that it is above: 2^32 - 4 · 2^15 is added first.
pub fn gain_high(a: u32, t0: i32, t1: i32, t2: i32, t3: i32) -> u32
    ensures { result ≡ (a + 4294836224 + (up32 t0 / 65536 + up32 t1 / 65536 + up32 t2 / 65536 + up32 t3 / 65536)) % 4294967296 }
{
    let s = a.wrapping_add(4294836224);
    let s0 = add_high(s, t0);
    let s1 = add_high(s0, t1);
    let s2 = add_high(s1, t2);
    add_high(s2, t3)
}
