// The value of a goal, by the least value of its problem.
ghost use Rattle.std.specs.Prelude.{◌≡◌, ◌<ℤ◌, pos};
ghost use Rattle.pa_math.specs.Rational.{over, whole};
ghost use Rattle.pa_frac.specs.Width.{Fits, valued};
ghost use Rattle.pa_row.specs.Fractions.{IsFraction};
ghost use Rattle.pa_replay.specs.Readings.{numbers_in};
ghost use Rattle.pa_refine.specs.Bounding as spec;

use pa_bland::LeastAnswer;
use pa_frac::{Fraction, LowestTerms, Wide, Wide126};

// The least value of the problem as a fraction.
fn fraction_of(num: i128, den: i128) -> Wide126
    requires { IsFraction (num, den) }
    ensures { over result.num result.den ≡ over num den }
{
    Wide126::from_lowest(LowestTerms { num, den })
}

// A whole number as a fraction.
#[tactic(auto, using(pa_farkas::proofs::Comparisons::whole_fraction))]
fn whole_of(number: i128) -> Wide126
    requires { Fits 126 number }
    ensures { over result.num result.den ≡ whole number }
{
    fraction_of(number, 1)
}

// The value, or its negative where the least value is sought.
fn turned(least: bool, value: Wide126) -> Wide126
    ensures { over result.num result.den ≡ spec.turned_value least (over value.num value.den) }
{
    if least { value.neg() } else { value }
}

// The sum over the denominator.
#[tactic(auto, using(crate::proofs::Values::whole_not_zero))]
fn over_denominator(sum: Wide126, q: i128) -> Result<Wide126, Wide>
    requires narrow { Fits 126 q }
    requires positive { pos 0 <ℤ q }
    ensures { valued (λ x. over x.num x.den) result ≡ spec.over_denominator (over sum.num sum.den) q }
{
    sum.div(whole_of(q))
}

/// The goal's best value: the value of its coefficients with `b`, over `q`.
#[tactic(auto, using(crate::proofs::Values::sum_refused))]
pub(crate) fn value_of(least: bool, b: i128, q: i128, answer: &LeastAnswer) -> Result<Wide126, Wide>
    requires constant { Fits 126 b }
    requires denominator { Fits 126 q }
    requires positive { pos 0 <ℤ q }
    ensures { valued (λ x. over x.num x.den) result ≡ spec.value_of least b q answer.now }
{
    let value = turned(least, fraction_of(answer.num, answer.den));
    let Ok(sum) = value.add(whole_of(b)) else {
        return Err(Wide);
    };
    over_denominator(sum, q)
}

/// The two numbers of a fraction.
pub(crate) fn numbers_of(value: Wide126) -> (i128, i128)
    ensures { result ≡ numbers_in (over value.num value.den) }
{
    (value.num(), value.den())
}
