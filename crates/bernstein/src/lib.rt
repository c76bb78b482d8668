// The calls for a C host: product, division and GCD of two lists over document 01's field of 65,521 elements, which is field 0. Lists and
// results are bytes, two to a word, low byte first. Each call returns the refusal's number, 0 when it completes, and carries the demands
// themselves as clauses. include/bernstein.h declares them.
#![tactic(auto)]

ghost use Rattle.std.specs.Prelude.{◌≡◌, [], ◌∷◌};
ghost use Rattle.refusal.specs.Limits.{max_words};
ghost use Rattle.field.specs.Fields.{p, F65521};
ghost use Rattle.list_bytes.specs.Calls.{host_product_rows, host_product_answer, host_product_written};
ghost use Rattle.list_bytes.specs.Calls.{host_division_rows, host_division_answer, host_quotient_written, host_remainder_written};
ghost use Rattle.list_bytes.specs.Calls.{host_gcd_rows, host_gcd_answer, host_gcd_written, host_values_written};
ghost use Rattle.statement.specs.Demand1.{Demand1, slice_of};
ghost use Rattle.statement.specs.Demand2Calls.{HostProductSo};
ghost use Rattle.statement.specs.Demand3Calls.{HostDivisionSo, HostGcdSo};

// The product of f and g.
#[unsafe(no_mangle)]
pub extern "C" fn bernstein_product(f: &[u8], g: &[u8], out: &mut [u8]) -> u8
    ensures answer { result ≡ host_product_answer 0 f.now g.now out.old }
    ensures writes { out.new ≡ host_product_written 0 f.now g.now out.old }
    ensures demand1 { Demand1 (host_product_rows p max_words f.now g.now out.old) result (slice_of out.old out.new ∷ []) }
    ensures demand2 { HostProductSo F65521 f.now g.now out.new result }
{
    list_bytes::product_over(0, f, g, out)
}

// g divided by f: the quotient goes to q, the remainder to r.
#[unsafe(no_mangle)]
pub extern "C" fn bernstein_division(g: &[u8], f: &[u8], q: &mut [u8], r: &mut [u8]) -> u8
    ensures answer { result ≡ host_division_answer 0 g.now f.now q.old r.old }
    ensures quotient { q.new ≡ host_quotient_written 0 g.now f.now q.old r.old }
    ensures remainder { r.new ≡ host_remainder_written 0 g.now f.now q.old r.old }
    ensures demand1 { Demand1 (host_division_rows p max_words g.now f.now q.old r.old) result (slice_of q.old q.new ∷ slice_of r.old r.new ∷ []) }
    ensures demand3 { HostDivisionSo F65521 g.now f.now q.new r.new result }
{
    list_bytes::divide_over(0, g, f, q, r)
}

// The GCD of f and g: h, as many words as the longest list has; the answer, three words: w, c and rounds.
#[unsafe(no_mangle)]
pub extern "C" fn bernstein_gcd(f: &[u8], g: &[u8], h: &mut [u8], answer: &mut [u8]) -> u8
    ensures answer { result ≡ host_gcd_answer 0 f.now g.now h.old answer.old }
    ensures writes { h.new ≡ host_gcd_written 0 f.now g.now h.old answer.old }
    ensures values { answer.new ≡ host_values_written 0 f.now g.now h.old answer.old }
    ensures demand1 { Demand1 (host_gcd_rows p max_words f.now g.now h.old answer.old) result (slice_of h.old h.new ∷ slice_of answer.old answer.new ∷ []) }
    ensures demand3 { HostGcdSo F65521 f.now g.now h.new answer.new result }
{
    list_bytes::gcd_over(0, f, g, h, answer)
}
