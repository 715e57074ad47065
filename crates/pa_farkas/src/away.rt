// The point that a No shows: from a point that meets the rows, along a direction in which the row rises and no other does.
ghost use Rattle.std.specs.Prelude.{◌≡◌, ◌≤◌, ◌<ℤ◌, ◌-ℤ◌, All, IfOk, length, pos};
ghost use Rattle.pa_math.specs.Answers.{IsAnswer, seen_as, told_as};
ghost use Rattle.pa_frac.specs.Width.{Fits, within};
ghost use Rattle.pa_ring.specs.Sums as ring;
ghost use Rattle.pa_row.specs.Answers.{as_fault};
ghost use Rattle.pa_row.specs.declared.fault.RowFault.TheVariants as RowFault;
ghost use Rattle.pa_farkas.specs.Answered as spec;
ghost use Rattle.pa_farkas.specs.Seen.{IsAway};

use pa_frac::{Wide, add_whole, divided, mul_whole};
use pa_row::{Point, Row, RowFault, dot};
use std::alloc::Global;

// A number less another one.
#[tactic(auto, using(pa_frac::proofs::Width::fits_from_answer))]
fn less(a: i128, b: i128) -> Result<i128, Wide>
    requires { Fits 126 b }
    ensures exact { result ≡ within 126 (a -ℤ b) }
    ensures narrow { IfOk result (λ n. Fits 126 n) }
{
    add_whole(a, -b)
}

// How far the point is inside the row, times its denominator.
fn slack(row: &Row, at: &Point) -> Result<i128, Wide>
    requires { length row.now.c ≤ length at.now.p }
    ensures exact { result ≡ spec.slack_of row.now at.now }
    ensures narrow { IfOk result (λ n. Fits 126 n) }
{
    let sum = dot(&row.c, &at.p)?;
    let bound = mul_whole(row.b, at.q)?;
    less(bound, sum)
}

// How much the row rises in one step along the direction, over a denominator.
fn rise(row: &Row, q: i128, direction: &[i128]) -> Result<i128, Wide>
    requires { length row.now.c ≤ length direction.now }
    ensures { result ≡ spec.rise_of row.now q direction.now }
{
    let once = dot(&row.c, direction)?;
    mul_whole(once, q)
}

// The same, which is positive where the row rises.
#[tactic(auto, using(crate::proofs::Walks::rise_meant))]
fn positive_rise(row: &Row, q: i128, direction: &[i128]) -> Result<i128, Wide>
    requires columns { length row.now.c ≤ length direction.now }
    requires rises { pos 0 <ℤ ring.dot row.now.c direction.now }
    requires positive { pos 0 <ℤ q }
    ensures exact { result ≡ spec.rise_of row.now q direction.now }
    ensures positive { IfOk result (λ n. pos 0 <ℤ n) }
{
    rise(row, q, direction)
}

// The least whole number of steps along the direction that bring a point with this slack out of the row.
fn steps(row: &Row, slack: i128, at: &Point, direction: &[i128]) -> Result<i128, Wide>
    requires columns { length row.now.c ≤ length direction.now }
    requires rises { pos 0 <ℤ ring.dot row.now.c direction.now }
    ensures { result ≡ spec.steps_in row.now slack at.now direction.now }
{
    let rise = positive_rise(row, at.q, direction)?;
    add_whole(1, divided(slack, rise))
}

// A number with a number of the direction so many times more.
fn moved_number(times: i128, number: i128, by: i128) -> Result<i128, Wide>
    ensures exact { result ≡ spec.moved_number times number by }
    ensures narrow { IfOk result (λ n. Fits 126 n) }
{
    let product = mul_whole(times, by)?;
    add_whole(number, product)
}

// The numbers, each with its number of the direction so many times more.
fn moved(
    alloc: Global,
    times: i128,
    numbers: &[i128],
    direction: &[i128],
) -> Result<Vec<i128>, RowFault>
    requires { length numbers.now ≤ length direction.now }
    ensures exact { IsAnswer RowFault.Memory (told_as as_fault (spec.moved_in times numbers.now direction.now)) (seen_as (λ v. v.items) result) }
    ensures narrow { IfOk result (λ v. All (Fits 126) v.items) }
{
    let Ok(mut moved) = Vec::with_capacity(alloc, numbers.len()) else {
        return Err(RowFault::Memory);
    };
    for i in 0..numbers.len() {
        let Ok(number) = moved_number(times, numbers[i], direction[i]) else {
            return Err(RowFault::Wide);
        };
        moved.push_reserved(number);
    }
    Ok(moved)
}

// The point at the end of these steps.
fn walked(alloc: Global, steps: i128, at: &Point, direction: &[i128]) -> Result<Point, RowFault>
    requires { length at.now.p ≤ length direction.now }
    ensures { IsAnswer RowFault.Memory (told_as as_fault (spec.walked_in steps at.now direction.now)) result }
{
    let Ok(times) = mul_whole(steps, at.q) else {
        return Err(RowFault::Wide);
    };
    let p = moved(alloc, times, &at.p, direction)?;
    Ok(Point { p, q: at.q })
}

// The point itself where it breaks the row, and else the first one that does along the direction.
fn first_away(alloc: Global, row: &Row, at: Point, direction: &[i128]) -> Result<Point, RowFault>
    requires columns { length at.p ≡ length row.now.c }
    requires direction_columns { length direction.now ≡ length row.now.c }
    requires rises { pos 0 <ℤ ring.dot row.now.c direction.now }
    ensures { IsAnswer RowFault.Memory (told_as as_fault (spec.away_in row.now at direction.now)) result }
{
    let Ok(slack) = slack(row, &at) else {
        return Err(RowFault::Wide);
    };
    if slack < 0 {
        return Ok(at);
    }
    let Ok(steps) = steps(row, slack, &at, direction) else {
        return Err(RowFault::Wide);
    };
    walked(alloc, steps, &at, direction)
}

/// The same, with what it means: it is away from the point, and breaks the row.
#[tactic(auto, using(crate::proofs::Walks::away_meant))]
pub(crate) fn away(
    alloc: Global,
    row: &Row,
    at: Point,
    direction: &[i128],
) -> Result<Point, RowFault>
    requires columns { length at.p ≡ length row.now.c }
    requires direction_columns { length direction.now ≡ length row.now.c }
    requires rises { pos 0 <ℤ ring.dot row.now.c direction.now }
    requires positive { pos 0 <ℤ at.q }
    ensures exact { IsAnswer RowFault.Memory (told_as as_fault (spec.away_in row.now at direction.now)) result }
    ensures meaning { IfOk result (IsAway row.now at direction.now) }
{
    first_away(alloc, row, at, direction)
}
