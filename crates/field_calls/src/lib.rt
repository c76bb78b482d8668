// The public calls on coefficients of document 01's field of 65,521 elements, which is field 0. Each is its core at that field, and carries
// the demands themselves: `demand1`, what it refuses, and `demand2`, what it computes.
#![tactic(auto)]

ghost use Rattle.std.specs.Prelude.{◌≡◌, []};
ghost use Rattle.field.specs.Fields.{p, F65521};
ghost use Rattle.field.specs.Field.{word_reply, operand_refusals, inverse_refusals};
ghost use Rattle.field.specs.Calls.{word_sum_answer, word_difference_answer, word_product_answer};
ghost use Rattle.field_inverse.specs.Calls.{inverse_answer};
ghost use Rattle.statement.specs.Demand1.{Demand1};
ghost use Rattle.statement.specs.Demand2Calls.{WordSumSo, WordDifferenceSo, WordProductSo, InverseSo};

use refusal::Refusal;

// The sum of two coefficients.
pub fn sum(a: u16, b: u16) -> Result<u16, Refusal>
    ensures answer { word_reply result ≡ word_sum_answer 0 a b }
    ensures demand1 { Demand1 (operand_refusals p a b) (word_reply result).number [] }
    ensures demand2 { WordSumSo F65521 a b (word_reply result) }
{
    field::sum_over(0, a, b)
}

// a less b.
pub fn difference(a: u16, b: u16) -> Result<u16, Refusal>
    ensures answer { word_reply result ≡ word_difference_answer 0 a b }
    ensures demand1 { Demand1 (operand_refusals p a b) (word_reply result).number [] }
    ensures demand2 { WordDifferenceSo F65521 a b (word_reply result) }
{
    field::difference_over(0, a, b)
}

// The product of two coefficients.
pub fn product(a: u16, b: u16) -> Result<u16, Refusal>
    ensures answer { word_reply result ≡ word_product_answer 0 a b }
    ensures demand1 { Demand1 (operand_refusals p a b) (word_reply result).number [] }
    ensures demand2 { WordProductSo F65521 a b (word_reply result) }
{
    field::product_over(0, a, b)
}

// The inverse of a coefficient that is not 0.
pub fn inverse(a: u16) -> Result<u16, Refusal>
    ensures answer { word_reply result ≡ inverse_answer 0 a }
    ensures demand1 { Demand1 (inverse_refusals p a) (word_reply result).number [] }
    ensures demand2 { InverseSo F65521 a (word_reply result) }
{
    let inverses = field_tables::inverses(0);
    field_inverse::inverse_over(0, inverses, a)
}
