// The row step on words: x plus m times y, by Montgomery's products. The loops go over places: of what a `zip` over `iter_mut` has written a
// proof knows nothing.
#![tactic(auto)]

ghost use Rattle.std.specs.Prelude.{◌≡◌, ℕ, ◌+◌, ◌-◌, ◌*◌, ◌%◌, ◌<◌, ◌≤◌, min, length};
ghost use Rattle.field.specs.Fields.{modulus, square};
ghost use Rattle.lists.specs.Words.{Tight};
ghost use Rattle.word_row.specs.Rows.{row, minus_product, Partway};
ghost use Rattle.word_row.specs.Montgomery.{Modulus, Factor, lift_of};

// x plus m times y, as far as both reach: whole groups of 8 words by Montgomery's products, and the rest word by word.
pub fn add_row(field: u8, x: &mut [u16], m: u16, y: &[u16])
    ensures { x.new ≡ row (modulus field) x.old m y.now }
{
    let n = x.len().min(y.len());
    let wide = n - n % 8;
    montgomery_row(
        x,
        m,
        y,
        wide,
        field::modulus_of(field),
        field::word_inverse_of(field),
        field::square_of(field),
    );
    add_rest(field, &mut x[wide..], m, &y[wide..]);
}

// What sub_row takes of a factor m beside it: -m times 2^32 modulo p.
pub fn lift_of(field: u8, m: u16) -> u16
    ensures { result ≡ lift_of (modulus field) (square field) m }
{
    field::mul(field, m, field::modulus_of(field) - field::square_of(field))
}

// x less a times m times y, as far as both reach, where the words of x are below p. What depends on a takes one Montgomery product. Where both
// slices reach a multiple of 8 words, LLVM's loop has no rest.
pub fn sub_row(field: u8, x: &mut [u16], a: u16, m: u16, lift: u16, y: &[u16])
    requires tight { Tight (modulus field) x.old }
    requires lift_value { lift ≡ lift_of (modulus field) (square field) m }
    ensures { x.new ≡ row (modulus field) x.old (minus_product (modulus field) a m) y.now }
{
    let p = field::modulus_of(field);
    let e = field::word_inverse_of(field);
    let g = add_product_below(0, a, lift, word_montgomery::low_half(lift, e), p);
    let s = word_montgomery::low_half(g, e);
    lifted_row(x, y, x.len().min(y.len()), g, s, p);
}

// The first n words of x, which are below p, gain m times y modulo p, where g is m times 2^16 modulo p, and s is g/p modulo 2^16. Every step
// stays in 16 bits, so that LLVM does 8 words at a time; g has to be a sum or a difference of words, since of a remainder by p LLVM does not
// know that it has 16 bits.
fn lifted_row(x: &mut [u16], y: &[u16], n: usize, g: u16, s: u16, p: u16)
    requires le_p { (32768 ≤ p) × (g < p) }
    requires n_in_bounds { (n ≤ length x.old) × (n ≤ length y.now) }
    requires tight { Tight p x.old }
    ensures { (e m : ℕ) → Factor p e m g s → Partway p x.old m y.now x.new n }
{
    for j in 0..n {
        x[j] = add_product_below(x[j], y[j], g, s, p);
    }
}

// x plus m times y word by word, for the fewer than 8 words at a row's end.
fn add_rest(field: u8, x: &mut [u16], m: u16, y: &[u16])
    ensures { x.new ≡ row (modulus field) x.old m y.now }
{
    for i in 0..x.len().min(y.len()) {
        x[i] = field::add_mul(field, x[i], m, y[i]);
    }
}

// The first n words of x gain m times y modulo p, by Montgomery's products: e is 1/p modulo 2^16, and square is 2^32 modulo p. Every
// step of the loop stays in 16 bits, so that LLVM does 8 words at a time.
fn montgomery_row(x: &mut [u16], m: u16, y: &[u16], n: usize, p: u16, e: u16, square: u16)
    requires modulus { Modulus p e square }
    requires n_in_bounds { (n ≤ length x.old) × (n ≤ length y.now) }
    ensures { Partway p x.old m y.now x.new n }
{
    // m times 2^16. LLVM knows that it has 16 bits, since it is a difference of words; of a remainder by p it would not.
    let g = add_product(0, m, square, word_montgomery::low_half(square, e), p);
    let s = word_montgomery::low_half(g, e);
    for j in 0..n {
        x[j] = add_product(x[j], y[j], g, s, p);
    }
}

// x plus m times y modulo p, where g is m times 2^16 modulo p, and s is g/p modulo 2^16.
fn add_product(x: u16, y: u16, g: u16, s: u16, p: u16) -> u16
    requires { (32768 ≤ p) × (g < p) }
    ensures { (e m : ℕ) → Factor p e m g s → result ≡ (x + m * y) % p }
{
    add_product_below(word_montgomery::once_reduced(x, p), y, g, s, p)
}

// The same where x is below p. Modulo 2^16 y times g is y times s times p, so the difference of their high halves is m times y. Each is
// compared with a word of its own: two high halves LLVM compares in 32 bits.
fn add_product_below(x: u16, y: u16, g: u16, s: u16, p: u16) -> u16
    requires { (32768 ≤ p) × (g < p) × (x < p) }
    ensures { (result < p) × ((e m : ℕ) → Factor p e m g s → result ≡ (x + m * y) % p) }
{
    let less = word_montgomery::high_half(word_montgomery::low_half(y, s), p);
    add_below(
        word_montgomery::sub_below(x, less, p),
        word_montgomery::high_half(y, g),
        p,
    )
}

// a plus b modulo p: the smaller of the sum, at most 65,535, and the sum less p, which wraps where the sum is below p. LLVM has shorter code
// for both than for a comparison of words.
fn add_below(a: u16, b: u16, p: u16) -> u16
    requires { (a < p) × (b < p) }
    ensures { result ≡ (a + b) % p }
{
    a.saturating_add(b).min(a.wrapping_add(b).wrapping_sub(p))
}
