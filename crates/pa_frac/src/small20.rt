// A type of fractions as one outside this crate is written: 20 bits over `i32`, by public names alone.
ghost use Rattle.pa_frac.specs.Narrow.{IsNarrow, num_fits, den_fits};
ghost use Rattle.pa_frac.specs.declared.small20.TheConstants.{BITS};
ghost use Rattle.pa_math.specs.Rational.{over};
ghost use Rattle.std.proofs.Common.{lit≤};

use crate::{Fraction, LowestTerms};

// How many bits its numbers have at most.
const BITS: u32 = 20;

/// A fraction in lowest terms with both numbers below `2^20` in absolute value.
#[derive(Clone, Copy, Debug)]
pub struct Small20 {
    num: i32,
    den: i32,
    ghost narrow: { IsNarrow BITS num den },
}

impl Fraction for Small20 {
    ghost WIDTH = { BITS };

    const WIDTH: u32 = BITS;

    ghost value = { λ x. over x.num x.den };

    #[inline(always)]
    fn from_lowest(terms: LowestTerms) -> Small20 {
        Small20 {
            num: terms.num as i32,
            den: terms.den as i32,
        }
    }

    #[inline(always)]
    fn lowest(self) -> LowestTerms {
        LowestTerms {
            num: i128::from(self.num),
            den: i128::from(self.den),
        }
    }

    ghost least_width = { lit≤ tt };

    ghost greatest_width = { lit≤ tt };

    ghost num_fits = { λ x. num_fits BITS x.num x.den x.narrow };

    ghost den_fits = { λ x. den_fits BITS x.num x.den x.narrow };
}
