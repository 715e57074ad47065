// The operations on fractions by their two numbers, once for every width and every type.
ghost use Rattle.pa_frac.specs.Lowest.{IsLowest};
ghost use Rattle.pa_frac.specs.Narrow.{IsNarrow};
ghost use Rattle.pa_frac.specs.Operations.{fraction_in, sum_in, product_in, comparison_in, is_zero};
ghost use Rattle.pa_math.specs.Rational.{over, neg_ℚ, reciprocal};
ghost use Rattle.std.specs.Prelude.{◌≡◌, ◌≤◌, ◌<ℤ◌, ℕ, pos, false};

use crate::Wide;
use crate::shared::{divided, split};
use crate::whole::{MOST_BITS, bounded, plus, times};
use std::cmp::Ordering;

/// The two numbers of a fraction in lowest terms.
#[derive(Clone, Copy, Debug)]
pub struct LowestTerms {
    /// The numerator, which has the fraction's sign.
    pub num: i128,
    /// The denominator, which is at least 1.
    pub den: i128,
}

// The fraction `num / den`.
#[inline(always)]
pub(crate) fn fraction_of(width: u32, num: i128, den: i128) -> Result<LowestTerms, Wide>
    requires width { width ≤ MOST_BITS }
    requires positive { pos 0 <ℤ den }
    ensures { IsLowest width (fraction_in width (over num den)) result }
{
    let parts = split(num, den);
    let Ok(num) = bounded(width, parts.left) else {
        return Err(Wide);
    };
    let Ok(den) = bounded(width, parts.right) else {
        return Err(Wide);
    };
    Ok(LowestTerms { num, den })
}

// The sum over one denominator, where only the numerator can pass the width.
#[inline(always)]
fn sum_alike(width: u32, left: LowestTerms, right: LowestTerms) -> Result<LowestTerms, Wide>
    requires width { width ≤ MOST_BITS }
    requires alike { left.den ≡ right.den }
    requires left { IsNarrow width left.num left.den }
    requires right { IsNarrow width right.num right.den }
    ensures { IsLowest width (sum_in width (over left.num left.den) (over right.num right.den)) result }
{
    let sum = split(plus(left.num, right.num), left.den);
    let Ok(num) = bounded(width, sum.left) else {
        return Err(Wide);
    };
    Ok(LowestTerms {
        num,
        den: sum.right,
    })
}

// The sum.
#[inline(always)]
pub(crate) fn sum_of(width: u32, left: LowestTerms, right: LowestTerms) -> Result<LowestTerms, Wide>
    requires width { width ≤ MOST_BITS }
    requires left { IsNarrow width left.num left.den }
    requires right { IsNarrow width right.num right.den }
    ensures { IsLowest width (sum_in width (over left.num left.den) (over right.num right.den)) result }
{
    if left.den == right.den {
        return sum_alike(width, left, right);
    }
    let dens = split(left.den, right.den);
    let Ok(above) = times(width, left.num, dens.right) else {
        return Err(Wide);
    };
    let Ok(below) = times(width, right.num, dens.left) else {
        return Err(Wide);
    };
    let Ok(den) = times(width, left.den, dens.right) else {
        return Err(Wide);
    };
    let sum = split(plus(above, below), dens.shared);
    let Ok(num) = bounded(width, sum.left) else {
        return Err(Wide);
    };
    let den = divided(den, sum.shared);
    Ok(LowestTerms { num, den })
}

// The product.
#[inline(always)]
pub(crate) fn product_of(
    width: u32,
    left: LowestTerms,
    right: LowestTerms,
) -> Result<LowestTerms, Wide>
    requires width { width ≤ MOST_BITS }
    requires left { IsNarrow width left.num left.den }
    requires right { IsNarrow width right.num right.den }
    ensures { IsLowest width (product_in width (over left.num left.den) (over right.num right.den)) result }
{
    let falling = split(left.num, right.den);
    let rising = split(right.num, left.den);
    let Ok(num) = times(width, falling.left, rising.left) else {
        return Err(Wide);
    };
    let Ok(den) = times(width, rising.right, falling.right) else {
        return Err(Wide);
    };
    Ok(LowestTerms { num, den })
}

// Which of the two is the lesser.
#[inline(always)]
pub(crate) fn comparison_of(
    width: u32,
    left: LowestTerms,
    right: LowestTerms,
) -> Result<Ordering, Wide>
    requires width { width ≤ MOST_BITS }
    requires left { IsNarrow width left.num left.den }
    requires right { IsNarrow width right.num right.den }
    ensures { result ≡ comparison_in width (over left.num left.den) (over right.num right.den) }
{
    if left.den == right.den {
        return Ok(left.num.cmp(&right.num));
    }
    let dens = split(left.den, right.den);
    let Ok(above) = times(width, left.num, dens.right) else {
        return Err(Wide);
    };
    let Ok(below) = times(width, right.num, dens.left) else {
        return Err(Wide);
    };
    Ok(above.cmp(&below))
}

// The negation.
#[inline(always)]
#[tactic(auto, using(pa_math::proofs::Rationals::over_neg, crate::proofs::Quotients::neg_narrow))]
pub(crate) fn negation_of(terms: LowestTerms) -> LowestTerms
    requires { IsNarrow MOST_BITS terms.num terms.den }
    ensures value { over result.num result.den ≡ neg_ℚ (over terms.num terms.den) }
    ensures narrow { (w : ℕ) → IsNarrow w terms.num terms.den → IsNarrow w result.num result.den }
{
    LowestTerms {
        num: -terms.num,
        den: terms.den,
    }
}

// The reciprocal of a fraction that is not 0. Its denominator is positive, so a sign goes up.
#[inline(always)]
pub(crate) fn reciprocal_of(terms: LowestTerms) -> LowestTerms
    requires narrow { IsNarrow MOST_BITS terms.num terms.den }
    requires nonzero { is_zero (over terms.num terms.den) ≡ false }
    ensures value { over result.num result.den ≡ reciprocal (over terms.num terms.den) }
    ensures narrow { (w : ℕ) → IsNarrow w terms.num terms.den → IsNarrow w result.num result.den }
{
    if terms.num < 0 {
        return LowestTerms {
            num: -terms.den,
            den: -terms.num,
        };
    }
    LowestTerms {
        num: terms.den,
        den: terms.num,
    }
}
