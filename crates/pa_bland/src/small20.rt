// A type of fractions of 20 bits, so that a run over it soon passes its width.
ghost use Rattle.pa_bland.specs.declared.small20.TheConstants.{BITS};
ghost use Rattle.pa_frac.specs.Narrow.{IsNarrow, num_fits, den_fits};
ghost use Rattle.pa_math.specs.Rational.{over};
ghost use Rattle.std.proofs.Common.{lit≤};

use pa_frac::{Fraction, LowestTerms};

const BITS: u32 = 20;

/// A fraction in lowest terms with both numbers below `2^20` in absolute value.
#[derive(Clone, Copy, Debug)]
pub struct Small20 {
    num: i64,
    den: i64,
    ghost narrow: { IsNarrow BITS num den },
}

impl Fraction for Small20 {
    ghost WIDTH = { BITS };

    const WIDTH: u32 = BITS;

    ghost value = { λ x. over x.num x.den };

    fn from_lowest(terms: LowestTerms) -> Small20 {
        Small20 {
            num: terms.num as i64,
            den: terms.den as i64,
        }
    }

    fn lowest(self) -> LowestTerms {
        LowestTerms {
            num: i128::from(self.num),
            den: i128::from(self.den),
        }
    }

    ghost least_width = { lit≤ tt };

    ghost greatest_width = { lit≤ tt };

    ghost num_fits = { λ x. num_fits BITS x.num x.den x.narrow };

    ghost den_fits = { λ x. den_fits BITS x.num x.den x.narrow };
}
