// One of Euclid's rounds on words, and the writing of a result. Where the input does not fit, nothing is written.
#![tactic(auto)]

ghost use Rattle.std.specs.Prelude.{◌≡◌, ◌++◌, ◌≤◌, length, take, drop};
ghost use Rattle.field.specs.Fields.{modulus};
ghost use Rattle.lists.specs.Degrees.{significant};
ghost use Rattle.lists.specs.Words.{ZeroFrom, Tight};
ghost use Rattle.euclid_round.specs.Round.{steps_made, words_left, quotient_left, form_left, out_left, multiplied, zeroed_from};

// What a round made: the number of words of its quotient, and of significant words that it left of x.
#[derive(Clone, Copy)]
pub struct Shortened {
    pub steps: usize,
    pub left: usize,
}

// A round on the first nx words of x and the first ny of y, where the words of x are below p, and y is 0 from word ny on. Where these are the
// significant ones it is the round on x and y, and each search for the end of x or y begins at the end, and not at the top of the zeros.
pub fn shorten(
    field: u8,
    inverses: &[u16],
    x: &mut [u16],
    nx: usize,
    y: &[u16],
    ny: usize,
    q: &mut [u16],
) -> Shortened
    requires { Tight (modulus field) x.old × ZeroFrom ny y.now }
    ensures steps { result.steps ≡ steps_made field (take nx x.old) (take ny y.now) q.old }
    ensures count { result.left ≡ significant (take nx x.new) }
    ensures left { x.new ≡ words_left field (take nx x.old) (take ny y.now) q.old ++ drop nx x.old }
    ensures quotient { q.new ≡ quotient_left field (take nx x.old) (take ny y.now) q.old }
{
    let mx = nx.min(x.len());
    let my = ny.min(y.len());
    let steps = round(field, inverses, x, mx, y, my, q);
    let left = lists::significant_words(&x[..mx]);
    Shortened { steps, left }
}

// The first mx words of x become the remainder by the first my of y; the words of the quotient go to q. Their number.
// The table of inverses saves time; nothing depends on it.
fn round(
    field: u8,
    inverses: &[u16],
    x: &mut [u16],
    mx: usize,
    y: &[u16],
    my: usize,
    q: &mut [u16],
) -> usize
    requires mx_in_bounds { (mx ≤ length x.old) × (my ≤ length y.now) }
    requires tight { Tight (modulus field) x.old × ZeroFrom my y.now }
    ensures steps { result ≡ steps_made field (take mx x.old) (take my y.now) q.old }
    ensures left { x.new ≡ words_left field (take mx x.old) (take my y.now) q.old ++ drop mx x.old }
    ensures quotient { q.new ≡ quotient_left field (take mx x.old) (take my y.now) q.old }
{
    let nx = lists::significant_words(&x[..mx]);
    let ny = lists::significant_words(&y[..my]);
    if ny == 0 {
        return 0;
    }
    let last = y[ny - 1];
    if field::modulus_of(field) <= last {
        return 0;
    }
    if nx < ny {
        return 0;
    }
    let k = nx - ny + 1;
    if q.len() < k {
        return 0;
    }
    let inv = field_inverse::inverse_or_zero(field, inverses, last);
    let wide = whole_groups(ny, y.len());
    word_block_division::reduce_padded(field, x, &y[..wide], ny, inv, &mut q[..k]);
    k
}

// n rounded up to a multiple of 8, as a row is added in groups of 8 words; `most` where that is too near.
fn whole_groups(n: usize, most: usize) -> usize
    requires { n ≤ most }
    ensures { (n ≤ result) × (result ≤ most) }
{
    if most - n < 7 {
        return most;
    }
    n.next_multiple_of(8)
}

// With the factorials as whole and their inverses as part: the list of `words` words whose scaled form is m times the words of form, and zeros
// after it.
#[tactic(auto, unfolding(crate::specs::Round::write_fits))]
pub fn write_list(
    field: u8,
    whole: &[u16],
    part: &[u16],
    form: &mut [u16],
    m: u16,
    words: usize,
    out: &mut [u16],
)
    ensures form { form.new ≡ form_left (modulus field) whole.now part.now words m form.old out.old }
    ensures writes { out.new ≡ out_left (modulus field) whole.now part.now words m form.old out.old }
{
    if form.len() < words {
        return;
    }
    if out.len() < words {
        return;
    }
    if whole.len() < words {
        return;
    }
    if part.len() < words {
        return;
    }
    times_word(field, form, m);
    word_scaling::weigh(field, form, part, whole, &mut out[..words]);
    zero_from(out, words);
}

// Each word times m.
fn times_word(field: u8, x: &mut [u16], m: u16)
    ensures { x.new ≡ multiplied (modulus field) m x.old }
{
    for word in x.iter_mut() {
        *word = field::mul(field, *word, m);
    }
}

// Zeros from word `from` on.
fn zero_from(out: &mut [u16], from: usize)
    ensures { out.new ≡ zeroed_from from out.old }
{
    let start = from.min(out.len());
    out[start..].fill(0);
}
