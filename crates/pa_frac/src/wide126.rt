// Fractions of 126 bits over `i128`.
ghost use Rattle.pa_frac.specs.Narrow.{IsNarrow, num_fits, den_fits};
ghost use Rattle.pa_frac.specs.declared.whole.TheConstants.{MOST_BITS};
ghost use Rattle.pa_math.specs.Rational.{over};
ghost use Rattle.std.proofs.Common.{lit≤};

use crate::{Fraction, LowestTerms, MOST_BITS};

/// A fraction in lowest terms with both numbers below `2^126` in absolute value.
#[derive(Clone, Copy, Debug)]
pub struct Wide126 {
    num: i128,
    den: i128,
    ghost narrow: { IsNarrow MOST_BITS num den },
}

impl Fraction for Wide126 {
    ghost WIDTH = { MOST_BITS };

    const WIDTH: u32 = MOST_BITS;

    ghost value = { λ x. over x.num x.den };

    #[inline(always)]
    fn from_lowest(terms: LowestTerms) -> Wide126 {
        Wide126 {
            num: terms.num,
            den: terms.den,
        }
    }

    #[inline(always)]
    fn lowest(self) -> LowestTerms {
        LowestTerms {
            num: self.num,
            den: self.den,
        }
    }

    ghost least_width = { lit≤ tt };

    ghost greatest_width = { lit≤ tt };

    ghost num_fits = { λ x. num_fits MOST_BITS x.num x.den x.narrow };

    ghost den_fits = { λ x. den_fits MOST_BITS x.num x.den x.narrow };
}
