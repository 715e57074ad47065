// What is read at the end of a run: exact fractions, each by its numerator and denominator in lowest terms.
ghost use Rattle.std.specs.Prelude.{◌≡◌, ◌≤◌, ◌<◌, ◌+◌, ◌++◌, ℤ, All, IfOk, MatchOption, map, false};
ghost use Rattle.pa_frac.specs.Operations.{is_zero};
ghost use Rattle.pa_frac.specs.Width.{Fits};
ghost use Rattle.pa_math.specs.Answers.{IsAnswer, seen_as, told_as};
ghost use Rattle.pa_row.specs.Answers.{as_fault};
ghost use Rattle.pa_row.specs.Fractions.{HasFractions, IsFraction, fraction_of, point_of_weights, weights_in};
ghost use Rattle.pa_replay.specs.Readings.{IsAscending, difference_at, differences_read, direction_answer, last_at, line_of as line_in, numbers_in, point_read, ray_at, ray_read, signed as signed_in, value_read, weight_at, weights_read};
ghost use Rattle.pa_bland.specs.Seen.{AreFractions, IsBegun};

use pa_frac::{Fraction, Wide, Wide126};
use pa_row::{RowFault, Weights, direction_of, weights_of};
use pa_tableau::Work;
use std::alloc::{AllocError, Global};

// The line in which a column is basic.
fn line_of<F: Fraction>(work: &Work<F>, lines: u32, column: u32) -> Option<u32>
    requires lines { lines ≤ work.now.lines }
    ensures exact { result ≡ line_in lines work.now.table column }
    ensures inside { MatchOption result (Unit {0}) (λ k. k < lines) }
{
    for line in 0..lines {
        if work.basis(line) == column {
            return Some(line);
        }
    }
    None
}

// The two numbers of a fraction.
fn numbers_of<F: Fraction>(number: F) -> (i128, i128)
    ensures value { result ≡ numbers_in (F.value number) }
    ensures fraction { IsFraction result }
{
    (number.num(), number.den())
}

// Puts the weight of a row behind the others, unless it is 0.
fn push_weight<F: Fraction>(
    parts: &mut Vec<(u32, i128, i128)>,
    place: u32,
    weight: F,
) -> Result<(), AllocError>
    requires fractions { AreFractions parts.old.items }
    ensures exact { IfOk result (λ done. parts.new.items ≡ parts.old.items ++ weight_at place (F.value weight)) }
    ensures fractions { IfOk result (λ done. AreFractions parts.new.items) }
{
    if weight.is_zero() {
        return Ok(());
    }
    let (num, den) = numbers_of(weight);
    parts.push((place, num, den))?;
    Ok(())
}

// Puts the last weight of a row behind the others.
fn push_last<F: Fraction>(
    parts: &mut Vec<(u32, i128, i128)>,
    work: &Work<F>,
    place: u32,
    lines: u32,
    rows: u32,
) -> Result<(), AllocError>
    requires begun { IsBegun lines rows work.now }
    requires fractions { AreFractions parts.old.items }
    ensures exact { IfOk result (λ done. parts.new.items ≡ parts.old.items ++ last_at lines rows work.now.table place) }
    ensures fractions { IfOk result (λ done. AreFractions parts.new.items) }
{
    let Some(line) = line_of(work, lines, place) else {
        return Ok(());
    };
    push_weight(parts, place, work.cell(line, lines + rows))
}

// Puts the number of the ray at a place behind the others.
fn push_ray<F: Fraction>(
    parts: &mut Vec<(u32, i128, i128)>,
    work: &Work<F>,
    column: u32,
    place: u32,
    lines: u32,
) -> Result<(), AllocError>
    requires lines { lines ≤ work.now.lines }
    requires column { column < work.now.columns }
    requires fractions { AreFractions parts.old.items }
    ensures exact { IfOk result (λ done. parts.new.items ≡ parts.old.items ++ ray_at lines column work.now.table place) }
    ensures fractions { IfOk result (λ done. AreFractions parts.new.items) }
{
    if place == column {
        return push_weight(parts, place, F::one());
    }
    let Some(line) = line_of(work, lines, place) else {
        return Ok(());
    };
    push_weight(parts, place, work.cell(line, column).neg())
}

/// The last weights: the values of the lines in which rows' columns are basic, by place, zeros left out.
pub(crate) fn weights<F: Fraction>(
    alloc: Global,
    work: &Work<F>,
    lines: u32,
    rows: u32,
) -> Result<Vec<(u32, i128, i128)>, AllocError>
    requires begun { IsBegun lines rows work.now }
    ensures exact { IfOk result (λ parts. parts.items ≡ weights_read lines rows work.now.table) }
    ensures fractions { IfOk result (λ parts. AreFractions parts.items) }
{
    let mut parts = Vec::new(alloc);
    for place in 0..rows {
        match push_last(&mut parts, work, place, lines, rows) {
            Ok(()) => {}
            Err(fault) => return Err(fault),
        }
    }
    Ok(parts)
}

/// The ray of an endless column: 1 at the column, and minus its cell in each line in which a row's column
/// is basic, by place, zeros left out.
pub(crate) fn ray<F: Fraction>(
    alloc: Global,
    work: &Work<F>,
    column: u32,
    lines: u32,
    rows: u32,
) -> Result<Vec<(u32, i128, i128)>, AllocError>
    requires begun { IsBegun lines rows work.now }
    requires column { column < rows }
    ensures exact { IfOk result (λ parts. parts.items ≡ ray_read lines rows column work.now.table) }
    ensures fractions { IfOk result (λ parts. AreFractions parts.items) }
{
    let mut parts = Vec::new(alloc);
    for place in 0..rows {
        match push_ray(&mut parts, work, column, place, lines) {
            Ok(()) => {}
            Err(fault) => return Err(fault),
        }
    }
    Ok(parts)
}

// A number by the sign of a line.
fn signed<F: Fraction, G: Fraction>(work: &Work<F>, line: u32, number: G) -> G
    requires { line < work.now.lines }
    ensures { G.value result ≡ signed_in work.now.table line (G.value number) }
{
    if work.is_turned(line) {
        number.neg()
    } else {
        number
    }
}

/// The point of the least end: minus cost row 2 in the artificial columns, by the signs.
pub(crate) fn point<F: Fraction>(
    alloc: Global,
    work: &Work<F>,
    lines: u32,
    rows: u32,
) -> Result<Vec<(i128, i128)>, AllocError>
    requires begun { IsBegun lines rows work.now }
    ensures exact { IfOk result (λ numbers. numbers.items ≡ map numbers_in (point_read lines rows work.now.table)) }
    ensures fractions { IfOk result (λ numbers. All IsFraction numbers.items) }
{
    let mut numbers = Vec::with_capacity(alloc, lines as usize)?;
    for line in 0..lines {
        let number = signed(work, line, work.cell(lines + 1, rows + line)).neg();
        numbers.push_reserved(numbers_of(number));
    }
    Ok(numbers)
}

/// The value of the least end: minus the value column of cost row 2.
pub(crate) fn value<F: Fraction>(work: &Work<F>, lines: u32, rows: u32) -> (i128, i128)
    requires begun { IsBegun lines rows work.now }
    ensures exact { result ≡ numbers_in (value_read lines rows work.now.table) }
    ensures fraction { IsFraction result }
{
    numbers_of(work.cell(lines + 1, lines + rows).neg())
}

// A number of the direction where no weights exist: 1 less a cell of cost row 1, by the sign of the line.
fn difference<F: Fraction>(
    work: &Work<F>,
    line: u32,
    lines: u32,
    rows: u32,
) -> Result<(i128, i128), Wide>
    requires begun { IsBegun lines rows work.now }
    requires line { line < lines }
    ensures exact { result ≡ difference_at lines rows work.now.table line }
    ensures fraction { IfOk result IsFraction }
{
    let number = Wide126::from_lowest(work.cell(lines, rows + line).lowest());
    let difference = Wide126::one().sub(number)?;
    Ok(numbers_of(signed(work, line, difference)))
}

/// The differences from 1 of which the direction is made, in the order of the lines and by their signs.
/// `Wide` exactly where one of them passes 126 bits.
pub(crate) fn differences<F: Fraction>(
    alloc: Global,
    work: &Work<F>,
    lines: u32,
    rows: u32,
) -> Result<Vec<(i128, i128)>, RowFault>
    requires begun { IsBegun lines rows work.now }
    ensures exact { IsAnswer RowFault.Memory (told_as as_fault (differences_read lines rows work.now.table)) (seen_as (λ v. v.items) result) }
    ensures fractions { IfOk result (λ numbers. All IsFraction numbers.items) }
{
    let Ok(mut numbers) = Vec::with_capacity(alloc, lines as usize) else {
        return Err(RowFault::Memory);
    };
    for line in 0..lines {
        let Ok(number) = difference(work, line, lines, rows) else {
            return Err(RowFault::Wide);
        };
        numbers.push_reserved(number);
    }
    Ok(numbers)
}

/// The direction where no weights exist, in whole numbers without a common divisor.
/// `Wide` exactly where a difference, a common denominator or a number over it passes 126 bits.
pub(crate) fn direction<F: Fraction>(
    alloc: Global,
    work: &Work<F>,
    lines: u32,
    rows: u32,
) -> Result<Vec<i128>, RowFault>
    requires begun { IsBegun lines rows work.now }
    ensures exact { IsAnswer RowFault.Memory (told_as as_fault (direction_answer lines rows work.now.table)) (seen_as (λ v. v.items) result) }
    ensures narrow { IfOk result (λ v. All (Fits 126) v.items) }
{
    let numbers = differences(alloc, work, lines, rows)?;
    direction_of(alloc, &numbers)
}

/// The last weights in whole numbers over the least common denominator.
/// `Wide` exactly where the denominator or a number over it passes 126 bits.
pub(crate) fn last_weights<F: Fraction>(
    alloc: Global,
    work: &Work<F>,
    lines: u32,
    rows: u32,
) -> Result<Weights, RowFault>
    requires begun { IsBegun lines rows work.now }
    requires ascending { IsAscending 0 rows (weights_read lines rows work.now.table) }
    ensures exact { IsAnswer RowFault.Memory (told_as as_fault (weights_in (weights_read lines rows work.now.table))) result }
    ensures meaning { IfOk result (λ w. HasFractions (map fraction_of (weights_read lines rows work.now.table)) (point_of_weights w)) }
{
    let Ok(parts) = weights(alloc, work, lines, rows) else {
        return Err(RowFault::Memory);
    };
    weights_of(alloc, &parts)
}

/// The ray of an endless column in whole numbers over the least common denominator.
/// `Wide` exactly where the denominator or a number over it passes 126 bits.
pub(crate) fn ray_weights<F: Fraction>(
    alloc: Global,
    work: &Work<F>,
    column: u32,
    lines: u32,
    rows: u32,
) -> Result<Weights, RowFault>
    requires begun { IsBegun lines rows work.now }
    requires column { column < rows }
    requires ascending { IsAscending 0 rows (ray_read lines rows column work.now.table) }
    ensures exact { IsAnswer RowFault.Memory (told_as as_fault (weights_in (ray_read lines rows column work.now.table))) result }
    ensures meaning { IfOk result (λ w. HasFractions (map fraction_of (ray_read lines rows column work.now.table)) (point_of_weights w)) }
{
    let Ok(parts) = ray(alloc, work, column, lines, rows) else {
        return Err(RowFault::Memory);
    };
    weights_of(alloc, &parts)
}
