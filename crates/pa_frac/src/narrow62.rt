// Fractions of 62 bits over `i64`.
ghost use Rattle.pa_frac.specs.Narrow.{IsNarrow, num_fits, den_fits};
ghost use Rattle.pa_frac.specs.declared.narrow62.TheConstants.{BITS};
ghost use Rattle.pa_math.specs.Rational.{over};
ghost use Rattle.std.proofs.Common.{lit≤};

use crate::{Fraction, LowestTerms};

// How many bits its numbers have at most: a sum of two of them is an `i64`.
const BITS: u32 = 62;

/// A fraction in lowest terms with both numbers below `2^62` in absolute value.
#[derive(Clone, Copy, Debug)]
pub struct Narrow62 {
    num: i64,
    den: i64,
    ghost narrow: { IsNarrow BITS num den },
}

impl Fraction for Narrow62 {
    ghost WIDTH = { BITS };

    const WIDTH: u32 = BITS;

    ghost value = { λ x. over x.num x.den };

    #[inline(always)]
    fn from_lowest(terms: LowestTerms) -> Narrow62 {
        Narrow62 {
            num: terms.num as i64,
            den: terms.den as i64,
        }
    }

    #[inline(always)]
    fn lowest(self) -> LowestTerms {
        LowestTerms {
            num: i128::from(self.num),
            den: i128::from(self.den),
        }
    }

    ghost least_width = { lit≤ tt };

    ghost greatest_width = { lit≤ tt };

    ghost num_fits = { λ x. num_fits BITS x.num x.den x.narrow };

    ghost den_fits = { λ x. den_fits BITS x.num x.den x.narrow };
}
