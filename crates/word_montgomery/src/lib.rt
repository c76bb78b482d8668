// Steps on words of 16 bits modulo p: the two halves of a product, of which Montgomery's product is made (two words' product divided by 2^16
// modulo p, without a division), a difference and a remainder. A loop over them stays in 16 bits, and LLVM does 8 words at a time.
#![tactic(auto)]

ghost use Rattle.std.specs.Prelude.{◌≡◌, ◌+◌, ◌-◌, ◌*◌, ◌/◌, ◌%◌, ◌<◌, ◌≤◌};

pub fn high_half(a: u16, b: u16) -> u16
    ensures { result ≡ a * b / 65536 }
{
    ((a as u32) * (b as u32) / 65536) as u16
}

pub fn low_half(a: u16, b: u16) -> u16
    ensures { result ≡ a * b % 65536 }
{
    ((a as u32) * (b as u32) % 65536) as u16
}

// a less b modulo p.
pub fn sub_below(a: u16, b: u16, p: u16) -> u16
    requires { (a < p) × (b ≤ p) }
    ensures { result ≡ (a + (p - b)) % p }
{
    let d = a.wrapping_sub(b);
    if a < b { d.wrapping_add(p) } else { d }
}

// A word modulo p, where p is at least half of 2^16.
pub fn once_reduced(a: u16, p: u16) -> u16
    requires { 32768 ≤ p }
    ensures { result ≡ a % p }
{
    if a < p { a } else { a - p }
}
