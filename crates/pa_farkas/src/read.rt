// What is read at the least end of a problem.
ghost use Rattle.std.specs.Prelude.{◌≡◌, ◌<ℤ◌, IfOk, pos};
ghost use Rattle.pa_math.specs.Answers.{IsAnswer, told_as};
ghost use Rattle.pa_math.specs.Rational.{over};
ghost use Rattle.pa_row.specs.Answers.{as_fault};
ghost use Rattle.pa_row.specs.Fractions.{IsFraction, point_in};
ghost use Rattle.pa_row.specs.declared.fault.RowFault.TheVariants as RowFault;
ghost use Rattle.pa_farkas.specs.Answered as spec;
ghost use Rattle.pa_farkas.specs.Seen.{IsCompared, IsFound, IsPointOf};

use pa_bland::LeastAnswer;
use pa_frac::{Fraction, LowestTerms, Wide, Wide126};
use pa_row::{Point, Row, RowFault, point_of};
use std::alloc::Global;
use std::cmp::Ordering;

// A fraction that is in lowest terms and below the width.
fn fraction_of(num: i128, den: i128) -> Wide126
    requires { IsFraction (num, den) }
    ensures { over result.num result.den ≡ over num den }
{
    Wide126::from_lowest(LowestTerms { num, den })
}

// How the least value stands to the row's bound.
#[tactic(auto, using(crate::proofs::Comparisons::whole_fraction))]
fn comparison(row: &Row, least: &LeastAnswer) -> Result<Ordering, Wide>
    ensures { result ≡ spec.compared_in row.now least.now }
{
    let value = fraction_of(least.num, least.den);
    value.compare(fraction_of(row.b, 1))
}

/// The same, with what it means.
#[tactic(auto, using(crate::proofs::Comparisons::compared_meant))]
pub(crate) fn compared(row: &Row, least: &LeastAnswer) -> Result<Ordering, Wide>
    requires { pos 0 <ℤ least.now.value.1 }
    ensures exact { result ≡ spec.compared_in row.now least.now }
    ensures meaning { IfOk result (IsCompared row.now least.now) }
{
    comparison(row, least)
}

/// Whether what was compared is above the other.
pub(crate) fn is_above(order: Ordering) -> bool
    ensures { result ≡ spec.is_above order }
{
    match order {
        Ordering::Less => false,
        Ordering::Equal => false,
        Ordering::Greater => true,
    }
}

/// The point of the least end.
pub(crate) fn least_point(alloc: Global, least: &LeastAnswer) -> Result<Point, RowFault>
    ensures exact { IsAnswer RowFault.Memory (told_as as_fault (point_in least.now.point)) result }
    ensures meaning { IfOk result (IsPointOf least.now) }
{
    point_of(alloc, &least.point)
}

/// The point of the least end, where its value is above the row's bound.
pub(crate) fn point_above(
    alloc: Global,
    row: &Row,
    least: &LeastAnswer,
) -> Result<Option<Point>, RowFault>
    requires { pos 0 <ℤ least.now.value.1 }
    ensures exact { IsAnswer RowFault.Memory (told_as as_fault (spec.point_above row.now least.now)) result }
    ensures found { IfOk result (IsFound row.now least.now) }
{
    let Ok(order) = compared(row, least) else {
        return Err(RowFault::Wide);
    };
    if !is_above(order) {
        return Ok(None);
    }
    let at = least_point(alloc, least)?;
    Ok(Some(at))
}
