// From powers of 1 - t or 1 + t to powers of t, as crate `word_expansion` has it, with fewer steps where there are many words. Horner's rule
// takes steps that grow with the square of the number of words. The first h of n words and the other m are expanded by themselves, and
// (1 ± t)^m times the first plus t^h times the second are all of them.
#![tactic(auto)]

ghost use Rattle.std.specs.Prelude.{◌≡◌, ◌+◌, ◌-◌, ◌≤◌, ◌<◌, length};
ghost use Rattle.refusal.specs.Limits.{max_words};
ghost use Rattle.field.specs.Fields.{modulus, field_at, longest};
ghost use Rattle.lists.specs.Words.{Tight};
ghost use Rattle.word_expansion.specs.Expansion.{signed, expanded, expanded_into};
ghost use Rattle.word_expansion_halves.specs.Halves.{signs, power_row, joined, Room};

// So many words are not cut: Horner's rule is as quick.
const SHORT: usize = 448;

// The words of (1 ± t)^m, where at most half of the words are the second part.
const ROW: usize = refusal::MAX_WORDS / 2 + 1;

// The coefficients of the sum of x_k · t^k · (1 + t)^(n-k), or with 1 - t, n + 1 being the number of words; where a word is loose, nothing
// is written.
pub fn expand(field: u8, plus: bool, x: &mut [u16])
    requires { length x.old ≤ longest field }
    ensures { x.new ≡ expanded_into (modulus field) plus x.old }
{
    if lists::has_loose(field, x) {
        return;
    }
    expand_tight(field, plus, x);
}

// The same, where no word is loose. Words that are all 0 stay so.
fn expand_tight(field: u8, plus: bool, x: &mut [u16])
    requires { (length x.old ≤ max_words) × Tight (modulus field) x.old }
    ensures { x.new ≡ expanded (modulus field) plus x.old }
{
    let n = x.len();
    if n <= SHORT {
        word_expansion::expand(field, plus, x);
        return;
    }
    let s = lists::significant_words(x);
    if s == 0 {
        return;
    }
    let h = cut(n, s);
    let (first, second) = x.split_at_mut(h);
    expand_tight(field, plus, first);
    expand_tight(field, plus, second);
    join(field, plus, h, x);
}

// How many of n words are the first part, where from word s on all are 0: the first s where these are from half to three quarters of them, so
// that the second part is 0 throughout; else half.
fn cut(n: usize, s: usize) -> usize
    requires { (4 ≤ n) × (n ≤ max_words) }
    ensures { (1 ≤ result) × (result < n) × (n ≤ result + result) }
{
    let half = (n + 1) / 2;
    if half < s && s <= n - n / 4 { s } else { half }
}

// (1 ± t)^m times the first h words of x plus t^h times the other m.
fn join(field: u8, plus: bool, h: usize, x: &mut [u16])
    requires x_in_bounds { (length x.old ≤ max_words) × Tight (modulus field) x.old }
    requires h_in_bounds { (h < length x.old) × (length x.old ≤ h + h) }
    ensures { x.new ≡ joined (field_at field) plus h x.old }
{
    let n = x.len();
    let k = n - h + 1;
    let mut row = [0u16; ROW];
    let mut out = [0u16; refusal::MAX_WORDS];
    join_in(field, plus, h, x, &mut row[..k], &mut out[..n]);
}

// The same with buffers that are lent: row for (1 ± t)^m, and out, as long as x.
fn join_in(field: u8, plus: bool, h: usize, x: &mut [u16], row: &mut [u16], out: &mut [u16])
    requires x_in_bounds { (length x.old ≤ max_words) × Tight (modulus field) x.old }
    requires room { Room h (length x.old) (length row.old) (length out.old) }
    ensures { x.new ≡ joined (field_at field) plus h x.old }
{
    let k = row.len();
    fill_row(field, plus, &mut out[..k], row);
    word_karatsuba::convolve(field, &x[..h], row, out);
    word_row::add_row(field, &mut out[h..], 1, &x[h..]);
    x.copy_from_slice(out);
}

// The words of a power of 1 ± t, in row: the binomial coefficients with their signs, which come to the other slice.
fn fill_row(field: u8, plus: bool, sign: &mut [u16], row: &mut [u16])
    requires { (length sign.old ≡ length row.old) × (0 < length row.old) × (length row.old ≤ max_words) }
    ensures { row.new ≡ power_row (field_at field) plus (length row.old - 1) }
{
    fill_signs(field::modulus_of(field), plus, sign);
    let whole = field_tables::factorials(field);
    let part = field_tables::inverse_factorials(field);
    word_scaling::weigh(field, sign, whole, part, row);
}

// 1 throughout, or 1 and -1 in turn.
fn fill_signs(p: u16, plus: bool, x: &mut [u16])
    requires { 1 < p }
    ensures { x.new ≡ signs p plus (length x.old) }
{
    let mut sign: u16 = 1;
    for word in x.iter_mut() {
        *word = sign;
        sign = next_sign(p, plus, sign);
    }
}

// The sign of the next word. `plus` stays a bool, which `signed` and `expanded` take too: a closure would be made from it here.
fn next_sign(p: u16, plus: bool, sign: u16) -> u16
    requires { sign ≤ p }
    ensures { result ≡ signed p plus sign }
{
    if plus { sign } else { p - sign }
}
