// The steps of polynomial division on words: the division, of any words and of words below p, and a product taken off.
#![tactic(auto)]

ghost use Rattle.std.specs.Prelude.{◌≡◌, ◌+◌, ◌-◌, ◌≤◌, length, take};
ghost use Rattle.field.specs.Fields.{modulus};
ghost use Rattle.lists.specs.Words.{ZeroFrom, Tight};
ghost use Rattle.word_division.specs.Reduction.{negated, reduced, digits, less_product, words_reduced, words_of_quotient};

// Division of x by y from the top: the quotient's words go to q, what is left stays in x. `inv` is the inverse of y's last word. Where the
// slices' lengths do not fit, nothing is written.
#[tactic(auto, unfolding(crate::specs::Reduction::reduce_fits))]
pub fn reduce(field: u8, x: &mut [u16], y: &[u16], inv: u16, q: &mut [u16])
    ensures left { x.new ≡ words_reduced (modulus field) inv x.old y.now q.old }
    ensures quotient { q.new ≡ words_of_quotient (modulus field) inv x.old y.now q.old }
{
    if y.is_empty() {
        return;
    }
    let d = y.len() - 1;
    if x.len() < d {
        return;
    }
    if x.len() - d != q.len() {
        return;
    }
    reduce_in(field, x, y, inv, q);
}

// The division, where the lengths fit.
fn reduce_in(field: u8, x: &mut [u16], y: &[u16], inv: u16, q: &mut [u16])
    requires { (1 ≤ length y.now) × (length x.old + 1 ≡ length y.now + length q.old) }
    ensures left { x.new ≡ reduced (modulus field) inv y.now (length q.old) x.old }
    ensures quotient { q.new ≡ digits (modulus field) inv y.now (length q.old) x.old }
{
    let d = y.len() - 1;
    for k in (0..q.len()).rev() {
        let c = field::mul(field, x[d + k], inv);
        q[k] = c;
        word_row::add_row(field, &mut x[k..], negate(field, c), y);
    }
}

// The division of x by the first n words of y, where the words of x are below p, and y is 0 after these: the rows run on through the zeros, so that
// no words are left over from groups of 8.
pub fn reduce_padded(field: u8, x: &mut [u16], y: &[u16], n: usize, inv: u16, q: &mut [u16])
    requires le_n { (1 ≤ n) × (n ≤ length y.now) × (n - 1 + length q.old ≤ length x.old) }
    requires tight { Tight (modulus field) x.old }
    requires zero_from { ZeroFrom n y.now }
    ensures left { x.new ≡ reduced (modulus field) inv (take n y.now) (length q.old) x.old }
    ensures quotient { q.new ≡ digits (modulus field) inv (take n y.now) (length q.old) x.old }
{
    let lift = word_row::lift_of(field, inv);
    for k in (0..q.len()).rev() {
        let top = x[n - 1 + k];
        q[k] = field::mul(field, top, inv);
        word_row::sub_row(field, &mut x[k..], top, inv, lift, y);
    }
}

// s less q times t, in as many words as s has, where the words of s are below p.
pub fn sub_product(field: u8, s: &mut [u16], q: &[u16], t: &[u16])
    requires q_in_bounds { length q.now ≤ length s.old }
    requires tight { Tight (modulus field) s.old }
    ensures { s.new ≡ less_product (modulus field) s.old q.now t.now }
{
    let lift = word_row::lift_of(field, 1);
    for (k, c) in q.iter().enumerate() {
        word_row::sub_row(field, &mut s[k..], *c, 1, lift, t);
    }
}

#[tactic(auto, unfolding(crate::specs::Reduction::negated))]
fn negate(field: u8, a: u16) -> u16
    ensures { result ≡ negated (modulus field) a }
{
    field::sub(field, 0, a)
}
