// From powers of 1 - t or 1 + t to powers of t, on words, by Horner's rule: the sum of x_k · t^k · (1 ± t)^(n-k). Nothing is multiplied: each
// step adds or takes off the word before.
#![tactic(auto)]

ghost use Rattle.std.specs.Prelude.{◌≡◌, cond, ◌-◌, ◌<◌};
ghost use Rattle.field.specs.Fields.{modulus};
ghost use Rattle.lists.specs.Words.{Tight};
ghost use Rattle.word_expansion.specs.Expansion.{gained, expanded, expanded_into};

// The coefficients of the sum of x_k · t^k · (1 + t)^(n-k), or with 1 - t, n + 1 being the number of words; where a word is loose, nothing
// is written.
pub fn expand(field: u8, plus: bool, x: &mut [u16])
    ensures { x.new ≡ expanded_into (modulus field) plus x.old }
{
    if lists::has_loose(field, x) {
        return;
    }
    expand_in(field::modulus_of(field), plus, x);
}

// The same, where no word is loose: what the words before a word say is multiplied by 1 ± t, and that word comes to it.
fn expand_in(p: u16, plus: bool, x: &mut [u16])
    requires { Tight p x.old }
    ensures { x.new ≡ expanded p plus x.old }
{
    for k in 1..x.len() {
        gain(p, plus, &mut x[..=k]);
    }
}

// Each word gains the word before it, or loses it. The word before is kept in a variable, so that LLVM takes eight words at a time.
fn gain(p: u16, plus: bool, x: &mut [u16])
    requires { Tight p x.old }
    ensures { x.new ≡ gained p plus x.old }
{
    let mut before: u16 = 0;
    for word in x.iter_mut() {
        let old = *word;
        *word = word_montgomery::sub_below(old, taken(p, plus, before), p);
        before = old;
    }
}

// What is taken off: b, or p less b where b is to be added. `plus` stays a bool, which `expanded` takes too: a closure would be made from it
// here.
fn taken(p: u16, plus: bool, b: u16) -> u16
    requires { b < p }
    ensures { result ≡ cond plus (p - b) b }
{
    if plus { p - b } else { b }
}
