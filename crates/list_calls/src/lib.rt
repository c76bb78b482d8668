// The public calls on lists over document 01's field of 65,521 elements, which is field 0. Each is its core at that field, and carries the
// demands themselves: `demand1`, what it refuses; `demand2`, what it computes; `demand3`, what is true of common factors and quotients.
#![tactic(auto)]

ghost use Rattle.std.specs.Prelude.{Ok, ◌≡◌, [], ◌∷◌};
ghost use Rattle.field.specs.Fields.{p, F65521};
ghost use Rattle.field.specs.Field.{word_reply};
ghost use Rattle.refusal.specs.Limits.{max_words};
ghost use Rattle.refusal.specs.Refusal.{outcome_reply};
ghost use Rattle.list_product.specs.Calls.{product_rows, product_answer, product_written, raise_rows, raise_answer, raise_written};
ghost use Rattle.list_sum.specs.Calls.{sum_rows, sum_answer, sum_written, difference_written};
ghost use Rattle.list_extent.specs.Calls.{extent_reply, searched_reply, extent_rows, extent_answer, searched_answer, trim_rows, trim_answer, trim_written};
ghost use Rattle.list_derivative.specs.Calls.{derivative_rows, derivative_answer, derivative_written};
ghost use Rattle.list_value.specs.Calls.{evaluate_rows, evaluate_answer};
ghost use Rattle.list_division.specs.Calls.{divide_rows, divide_answer, quotient_written, remainder_written, DividesSo};
ghost use Rattle.ordinary_theory.specs.Ordinary.{OrdinarySo};
ghost use Rattle.list_ordinary_division.specs.Calls.{ordinary_rows, ordinary_answer, ordinary_quotient_written, ordinary_remainder_written};
ghost use Rattle.list_gcd.specs.Calls.{gcd_reply, gcd_rows, gcd_answer, gcd_written, Greatest};
ghost use Rattle.list_cofactors.specs.Calls.{cofactor_rows, cofactor_answer, cofactor_gcd, cofactors_written_a, cofactors_written_b};
ghost use Rattle.statement.specs.Demand1.{Demand1, slice_of};
ghost use Rattle.statement.specs.Demand2Calls.{ProductSo, RaiseSo, SumSo, DifferenceSo, TrimSo, DerivativeSo, ExtentSo, ValueSo};
ghost use Rattle.statement.specs.Demand3Calls.{CofactorsOf};

use list_extent::Search;
use list_gcd::Gcd;
use lists::NaiveDegree;
use refusal::Refusal;

// The product of f and g, of naive degree d + e.
pub fn product(f: &[u16], g: &[u16], out: &mut [u16]) -> Result<(), Refusal>
    ensures answer { outcome_reply result ≡ product_answer 0 f.now g.now out.old }
    ensures writes { out.new ≡ product_written 0 f.now g.now out.old }
    ensures demand1 { Demand1 (product_rows p max_words f.now g.now out.old) (outcome_reply result).number (slice_of out.old out.new ∷ []) }
    ensures demand2 { ProductSo F65521 f.now g.now out.new (outcome_reply result) }
{
    list_product::product_over(0, f, g, out)
}

// f raised to the naive degree `to`.
pub fn raise(f: &[u16], to: NaiveDegree, out: &mut [u16]) -> Result<(), Refusal>
    ensures answer { outcome_reply result ≡ raise_answer 0 f.now to.0 out.old }
    ensures writes { out.new ≡ raise_written 0 f.now to.0 out.old }
    ensures demand1 { Demand1 (raise_rows p max_words f.now to.0 out.old) (outcome_reply result).number (slice_of out.old out.new ∷ []) }
    ensures demand2 { RaiseSo F65521 f.now to.0 out.new (outcome_reply result) }
{
    list_product::raise_over(0, f, to, out)
}

// The sum of f and g, the shorter list raised first.
pub fn sum(f: &[u16], g: &[u16], out: &mut [u16]) -> Result<(), Refusal>
    ensures answer { outcome_reply result ≡ sum_answer 0 f.now g.now out.old }
    ensures writes { out.new ≡ sum_written 0 f.now g.now out.old }
    ensures demand1 { Demand1 (sum_rows p max_words f.now g.now out.old) (outcome_reply result).number (slice_of out.old out.new ∷ []) }
    ensures demand2 { SumSo F65521 f.now g.now out.new (outcome_reply result) }
{
    list_sum::sum_over(0, f, g, out)
}

// f less g, the shorter list raised first.
pub fn difference(f: &[u16], g: &[u16], out: &mut [u16]) -> Result<(), Refusal>
    ensures answer { outcome_reply result ≡ sum_answer 0 f.now g.now out.old }
    ensures writes { out.new ≡ difference_written 0 f.now g.now out.old }
    ensures demand1 { Demand1 (sum_rows p max_words f.now g.now out.old) (outcome_reply result).number (slice_of out.old out.new ∷ []) }
    ensures demand2 { DifferenceSo F65521 f.now g.now out.new (outcome_reply result) }
{
    list_sum::difference_over(0, f, g, out)
}

// The extent of f, and how many words the search for it read.
pub fn find_extent(f: &[u16]) -> Result<Search, Refusal>
    ensures answer { extent_reply result ≡ extent_answer 0 f.now }
    ensures read { searched_reply result ≡ searched_answer 0 f.now }
    ensures demand1 { Demand1 (extent_rows p max_words f.now) (extent_reply result).number [] }
    ensures demand2 { ExtentSo f.now (extent_reply result) }
{
    list_extent::extent_over(0, f)
}

// f with its top zeros removed: the same scaled form, of naive degree equal to the extent.
pub fn trim(f: &[u16], out: &mut [u16]) -> Result<(), Refusal>
    ensures answer { outcome_reply result ≡ trim_answer 0 f.now out.old }
    ensures writes { out.new ≡ trim_written 0 f.now out.old }
    ensures demand1 { Demand1 (trim_rows p max_words f.now out.old) (outcome_reply result).number (slice_of out.old out.new ∷ []) }
    ensures demand2 { TrimSo F65521 f.now out.new (outcome_reply result) }
{
    list_extent::trim_over(0, f, out)
}

// The derivative of f: of n words, and [0] for n = 0.
pub fn derivative(f: &[u16], out: &mut [u16]) -> Result<(), Refusal>
    ensures answer { outcome_reply result ≡ derivative_answer 0 f.now out.old }
    ensures writes { out.new ≡ derivative_written 0 f.now out.old }
    ensures demand1 { Demand1 (derivative_rows p max_words f.now out.old) (outcome_reply result).number (slice_of out.old out.new ∷ []) }
    ensures demand2 { DerivativeSo F65521 f.now out.new (outcome_reply result) }
{
    list_derivative::derivative_over(0, f, out)
}

// The value of f at x.
pub fn evaluate(f: &[u16], x: u16) -> Result<u16, Refusal>
    ensures answer { word_reply result ≡ evaluate_answer 0 f.now x }
    ensures demand1 { Demand1 (evaluate_rows p max_words f.now x) (word_reply result).number [] }
    ensures demand2 { ValueSo F65521 f.now x (word_reply result) }
{
    list_value::evaluate_over(0, f, x)
}

// g divided by f: the quotient goes to q, the remainder to r.
pub fn divide(g: &[u16], f: &[u16], q: &mut [u16], r: &mut [u16]) -> Result<(), Refusal>
    ensures answer { outcome_reply result ≡ divide_answer 0 g.now f.now q.old r.old }
    ensures quotient { q.new ≡ quotient_written 0 g.now f.now q.old r.old }
    ensures remainder { r.new ≡ remainder_written 0 g.now f.now q.old r.old }
    ensures demand1 { Demand1 (divide_rows p max_words g.now f.now q.old r.old) (outcome_reply result).number (slice_of q.old q.new ∷ slice_of r.old r.new ∷ []) }
    ensures demand3 { result ≡ Ok tt → DividesSo F65521 g.now f.now q.new r.new }
{
    list_division::divide_over(0, g, f, q, r)
}

// g divided by f in the usual sense: g = q·f + r, where r is 0 or has a smaller degree in t than f, and q and r have g's own naive degree.
pub fn divide_ordinary(g: &[u16], f: &[u16], q: &mut [u16], r: &mut [u16]) -> Result<(), Refusal>
    ensures answer { outcome_reply result ≡ ordinary_answer 0 g.now f.now q.old r.old }
    ensures quotient { q.new ≡ ordinary_quotient_written 0 g.now f.now q.old r.old }
    ensures remainder { r.new ≡ ordinary_remainder_written 0 g.now f.now q.old r.old }
    ensures demand1 { Demand1 (ordinary_rows p max_words g.now f.now q.old r.old) (outcome_reply result).number (slice_of q.old q.new ∷ slice_of r.old r.new ∷ []) }
    ensures demand2 { result ≡ Ok tt → OrdinarySo F65521 g.now f.now q.new r.new }
{
    list_ordinary_division::divide_ordinary_over(0, g, f, q, r)
}

// The GCD of f and g: h goes to a slice of as many words as the longest list has, zeros after word w.
pub fn gcd_of(f: &[u16], g: &[u16], h: &mut [u16]) -> Result<Gcd, Refusal>
    ensures answer { gcd_reply result ≡ gcd_answer 0 f.now g.now h.old }
    ensures writes { h.new ≡ gcd_written 0 f.now g.now h.old }
    ensures demand1 { Demand1 (gcd_rows p max_words f.now g.now h.old) (gcd_reply result).number (slice_of h.old h.new ∷ []) }
    ensures demand3 { Greatest F65521 f.now g.now h.new result }
{
    list_gcd::gcd_over(0, f, g, h)
}

// The GCD of f and g with its cofactors: a·f + b·g = (1-t)^(m-w)·h.
pub fn find_cofactors(
    f: &[u16],
    g: &[u16],
    h: &mut [u16],
    a: &mut [u16],
    b: &mut [u16],
) -> Result<Gcd, Refusal>
    ensures answer { gcd_reply result ≡ cofactor_answer 0 f.now g.now h.old a.old b.old }
    ensures gcd { h.new ≡ cofactor_gcd 0 f.now g.now h.old a.old b.old }
    ensures cofactor_a { a.new ≡ cofactors_written_a 0 f.now g.now h.old a.old b.old }
    ensures cofactor_b { b.new ≡ cofactors_written_b 0 f.now g.now h.old a.old b.old }
    ensures demand1 { Demand1 (cofactor_rows p max_words f.now g.now h.old a.old b.old) (gcd_reply result).number (slice_of h.old h.new ∷ slice_of a.old a.new ∷ slice_of b.old b.new ∷ []) }
    ensures greatest { Greatest F65521 f.now g.now h.new result }
    ensures demand3 { CofactorsOf F65521 f.now g.now h.new a.new b.new (gcd_reply result) }
{
    list_cofactors::cofactors_over(0, f, g, h, a, b)
}
