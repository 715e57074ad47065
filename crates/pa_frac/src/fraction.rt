// What each type of fractions promises.
ghost use Rattle.pa_frac.specs.Narrow.{IsNarrow};
ghost use Rattle.pa_frac.specs.Operations.{fraction_in, sum_in, difference_in, product_in, quotient_in, comparison_in};
ghost use Rattle.pa_frac.specs.Operations.{is_zero as is_zero_value, sign as sign_of};
ghost use Rattle.pa_frac.specs.Width.{Fits, valued};
ghost use Rattle.pa_frac.specs.declared.whole.TheConstants.{MOST_BITS};
ghost use Rattle.pa_math.proofs.RationalOrders.{compare_total, compare_sum, compare_product};
ghost use Rattle.pa_math.proofs.Rationals.{reduced_form};
ghost use Rattle.pa_math.specs.Divisors.{IsReduced};
ghost use Rattle.pa_math.specs.Rational.{ℚ, whole, over, den as den_of, neg_ℚ, ◌+ℚ◌, ◌*ℚ◌};
ghost use Rattle.pa_math.specs.RationalOrder.{compare_ℚ, ◌<ℚ◌};
ghost use Rattle.std.specs.Cmp.{IsTotalOrder};
ghost use Rattle.std.specs.Prelude.{◌≡◌, ◌≤◌, ◌<ℤ◌, ℕ, pos, false};

use crate::arithmetic::{
    comparison_of, fraction_of, negation_of, product_of, reciprocal_of, sum_of,
};
use crate::{LowestTerms, MOST_BITS, Wide};
use std::cmp::Ordering;

/// Fractions of whole numbers, in lowest terms with a denominator of at least 1, whose two numbers
/// are below `2^WIDTH` in absolute value.
///
/// An operation gives its exact value, or `Wide` exactly where one of the numbers that its entry
/// names reaches `2^WIDTH` in absolute value. Those are the numbers that are formed when common
/// divisors are taken out before a product is made (D. E. Knuth, The Art of Computer Programming,
/// volume 2, section 4.5.1; P. Henrici, 1956). No operation takes memory. Below, the two fractions
/// are `a / b` and `c / d`, and the clauses say the same by the definitions of `specs/Operations.antt`.
///
/// # For a type that implements it
///
/// Keep two numbers with the fact `IsNarrow WIDTH num den` (`specs/Narrow.antt`), and let `value`
/// be `over num den`. Owed are:
///
/// - `WIDTH`, from 2 to 126, and the proofs `least_width` and `greatest_width` of these bounds;
/// - `from_lowest` and `lowest`, which make the value of its numbers and give them back. The
///   operations stand on these two, and a type may write one anew under its clause;
/// - `num_fits` and `den_fits`, which are the lemmas of these names in `specs/Narrow.antt`.
///
/// The other laws have proofs already. `src/narrow62.rt` is such a type.
pub trait Fraction: Copy {
    ghost WIDTH: { ℕ };

    /// How many bits a number may have, from 2 to 126.
    const WIDTH: u32;

    // the fraction that a value stands for
    ghost value: { Self → ℚ };

    /// The fraction of two numbers in lowest terms. The condition is that they are, with a
    /// denominator of at least 1, and that neither passes the width.
    fn from_lowest(terms: LowestTerms) -> Self
        requires { IsNarrow WIDTH terms.num terms.den }
        ensures { value result ≡ over terms.num terms.den };

    /// The two numbers in lowest terms, with a denominator of at least 1.
    fn lowest(self) -> LowestTerms
        ensures value { over result.num result.den ≡ value self }
        ensures narrow { IsNarrow WIDTH result.num result.den };

    /// The fraction 0.
    #[inline(always)]
    fn zero() -> Self
        ensures { value result ≡ whole (pos 0) }
    {
        Self::from_lowest(LowestTerms { num: 0, den: 1 })
    }

    /// The fraction 1.
    #[inline(always)]
    fn one() -> Self
        ensures { value result ≡ whole (pos 1) }
    {
        Self::from_lowest(LowestTerms { num: 1, den: 1 })
    }

    /// The fraction `num / den` in lowest terms. The condition is that `den` is at least 1.
    ///
    /// `Wide` exactly where the numerator or the denominator in lowest terms reaches `2^WIDTH`.
    fn from_parts(num: i128, den: i128) -> Result<Self, Wide>
        requires { pos 0 <ℤ den }
        ensures { valued value result ≡ fraction_in WIDTH (over num den) }
    {
        let lowest = fraction_of(Self::WIDTH, num, den)?;
        Ok(Self::from_lowest(lowest))
    }

    /// The sum.
    ///
    /// `Wide` exactly where, with `g = gcd(b, d)`, one of `a (d / g)`, `c (b / g)`, `b (d / g)` and
    /// the numerator of the sum in lowest terms reaches `2^WIDTH`.
    fn add(self, other: Self) -> Result<Self, Wide>
        ensures { valued value result ≡ sum_in WIDTH (value self) (value other) }
    {
        let sum = sum_of(Self::WIDTH, self.lowest(), other.lowest())?;
        Ok(Self::from_lowest(sum))
    }

    /// The difference.
    ///
    /// `Wide` exactly where, with `g = gcd(b, d)`, one of `a (d / g)`, `c (b / g)`, `b (d / g)` and
    /// the numerator of the difference in lowest terms reaches `2^WIDTH`.
    #[tactic(auto, using(crate::proofs::Sums::difference_is))]
    fn sub(self, other: Self) -> Result<Self, Wide>
        ensures { valued value result ≡ difference_in WIDTH (value self) (value other) }
    {
        self.add(other.neg())
    }

    /// The product.
    ///
    /// `Wide` exactly where, with `g = gcd(a, d)` and `h = gcd(c, b)`, one of `(a / g) (c / h)` and
    /// `(b / h) (d / g)` reaches `2^WIDTH`.
    fn mul(self, other: Self) -> Result<Self, Wide>
        ensures { valued value result ≡ product_in WIDTH (value self) (value other) }
    {
        let product = product_of(Self::WIDTH, self.lowest(), other.lowest())?;
        Ok(Self::from_lowest(product))
    }

    /// The quotient. The condition is that `other` is not 0.
    ///
    /// It is the product with the reciprocal, whose denominator is positive, and `Wide` exactly
    /// where that product is.
    fn div(self, other: Self) -> Result<Self, Wide>
        requires { is_zero_value (value other) ≡ false }
        ensures { valued value result ≡ quotient_in WIDTH (value self) (value other) }
    {
        let turned = reciprocal_of(other.lowest());
        let quotient = product_of(Self::WIDTH, self.lowest(), turned)?;
        Ok(Self::from_lowest(quotient))
    }

    /// Whether this fraction is below the other, equal or above.
    ///
    /// `Wide` exactly where, with `g = gcd(b, d)`, one of `a (d / g)` and `c (b / g)` reaches
    /// `2^WIDTH`.
    fn compare(self, other: Self) -> Result<Ordering, Wide>
        ensures { result ≡ comparison_in WIDTH (value self) (value other) }
    {
        comparison_of(Self::WIDTH, self.lowest(), other.lowest())
    }

    /// The negation.
    #[inline(always)]
    fn neg(self) -> Self
        ensures { value result ≡ neg_ℚ (value self) }
    {
        Self::from_lowest(negation_of(self.lowest()))
    }

    /// The numerator in lowest terms.
    #[inline(always)]
    #[tactic(auto, using(crate::proofs::Lowest::value_num))]
    fn num(self) -> i128
        ensures { result ≡ (value self).num }
    {
        self.lowest().num
    }

    /// The denominator in lowest terms, which is at least 1.
    #[inline(always)]
    #[tactic(auto, using(crate::proofs::Lowest::value_den))]
    fn den(self) -> i128
        ensures { result ≡ den_of (value self) }
    {
        self.lowest().den
    }

    /// Whether the fraction is 0.
    #[inline(always)]
    fn is_zero(self) -> bool
        ensures { result ≡ is_zero_value (value self) }
    {
        self.num() == 0
    }

    /// Whether the fraction is below 0, 0 or above.
    #[inline(always)]
    #[tactic(auto, using(pa_math::proofs::ReducedOperations::compare_zero))]
    fn sign(self) -> Ordering
        ensures { result ≡ sign_of (value self) }
    {
        self.num().cmp(&0)
    }

    ghost least_width: { 2 ≤ WIDTH };

    ghost greatest_width: { WIDTH ≤ MOST_BITS };

    // both numbers of a value are below 2 ^ WIDTH
    ghost num_fits: { (x : Self) → Fits WIDTH (value x).num };

    ghost den_fits: { (x : Self) → Fits WIDTH (den_of (value x)) };

    // a value is in lowest terms, with a denominator of at least 1
    ghost is_reduced: { (x : Self) → IsReduced (value x).num (den_of (value x)) } = { λ x. reduced_form (value x) };

    // the order is total
    ghost order_is_total: { IsTotalOrder (λ (x : Self) (y : Self). compare_ℚ (value x) (value y)) } = { record {
      antisymm = λ x y. compare_total.antisymm (value x) (value y);
      trans = λ x y z. compare_total.trans (value x) (value y) (value z);
      congr = λ x y z. compare_total.congr (value x) (value y) (value z);
    } };

    // and kept by a sum
    ghost sums_keep_order: { (x y z : Self) →
        compare_ℚ (value x +ℚ value z) (value y +ℚ value z) ≡ compare_ℚ (value x) (value y) } = { λ x y z. compare_sum (value x) (value y) (value z) };

    // and by a product with a positive value
    ghost products_keep_order: { (x y z : Self) → whole (pos 0) <ℚ value z →
        compare_ℚ (value x *ℚ value z) (value y *ℚ value z) ≡ compare_ℚ (value x) (value y) } = { λ x y z. compare_product (value x) (value y) (value z) };
}
