// Whether shifts hold, and the rows that they leave.
ghost use Rattle.std.specs.Prelude.{◌≡◌, ◌≤◌, ◌++◌, All, IfOk, Option, Some, None, length, drop, take, pos, option_map};
ghost use Rattle.std.specs.List.{list_all};
ghost use Rattle.std.specs.Ordering.{int_eq};
ghost use Rattle.pa_meaning.specs.Rows.{front_row};
ghost use Rattle.pa_math.specs.Answers.{IsAnswer, seen_as, told_as};
ghost use Rattle.pa_row.specs.Answers.{as_fault};
ghost use Rattle.pa_check.specs.Shifts.{IsShifted, is_gone, left_over, shift_in, shifts_from, shifts_in};

use crate::proving::are_placed;
use pa_row::{Row, RowFault, Weights, shifted, show_canonical};
use std::alloc::Global;

// Whether all numbers are 0.
fn are_zero(numbers: &[i128]) -> bool
    ensures { result ≡ list_all (λ z. int_eq z (pos 0)) numbers.now }
{
    numbers.iter().all(|z| *z == 0)
}

// Whether the row has 0 in each column behind the first ones.
fn is_nothing_behind(row: &Row, columns: u32) -> bool
    requires { columns ≤ length row.now.c }
    ensures { result ≡ is_gone columns row.now }
{
    are_zero(&row.c[columns as usize..])
}

// Takes the columns behind the first ones away.
fn truncate(row: &mut Row, columns: u32)
    requires { columns ≤ length row.old.c }
    ensures { row.new ≡ front_row columns row.old }
{
    row.c.truncate(columns as usize);
}

// The row over its first columns, where it has 0 behind them.
fn front_of(mut row: Row, columns: u32) -> Option<Row>
    requires { columns ≤ length row.c }
    ensures { result ≡ left_over columns row }
{
    if !is_nothing_behind(&row, columns) {
        return None;
    }
    truncate(&mut row, columns);
    Some(row)
}

// What the weights leave of the term over the first columns.
#[tactic(auto, using(crate::proofs::Proofs::placed_from, pa_math::proofs::Answers::refused_before))]
fn shift(
    alloc: Global,
    term: &Row,
    given: &[Row],
    w: &Weights,
    columns: u32,
) -> Result<Option<Row>, RowFault>
    requires columns { All (λ r. length r.c ≡ length term.now.c) given.now }
    requires front { columns ≤ length term.now.c }
    ensures { IsAnswer RowFault.Memory (told_as as_fault (shift_in columns given.now term.now w.now)) result }
{
    if !are_placed(&w.parts, given.len()) {
        return Ok(None);
    }
    let row = shifted(alloc, term, given, w)?;
    Ok(front_of(row, columns))
}

// The rows that are made, and then what the weights leave of each term.
#[tactic(auto, using(crate::proofs::Turns::shift_turn, crate::proofs::Turns::shift_lacking, crate::proofs::Turns::shift_none_left, crate::proofs::Turns::shift_too_many))]
fn all_shifts(
    alloc: Global,
    terms: &[Row],
    given: &[Row],
    weights: &[Weights],
    columns: u32,
    width: u32,
) -> Result<Option<Vec<Row>>, RowFault>
    requires terms { All (λ r. length r.c ≡ width) terms.now }
    requires given { All (λ r. length r.c ≡ width) given.now }
    requires front { columns ≤ width }
    ensures { IsAnswer RowFault.Memory (told_as as_fault (shifts_in columns given.now terms.now weights.now)) (seen_as (option_map (λ v. v.items)) result) }
{
    let mut made = Vec::new(alloc);
    for place in 0..terms.len() {
        if place >= weights.len() {
            return Ok(None);
        }
        match shift(alloc, &terms[place], given, &weights[place], columns) {
            Ok(Some(row)) => {
                let Ok(()) = made.push(row) else {
                    return Err(RowFault::Memory);
                };
            }
            Ok(None) => return Ok(None),
            Err(fault) => return Err(fault),
        }
    }
    if terms.len() < weights.len() {
        return Ok(None);
    }
    Ok(Some(made))
}

/// What the weights leave of each term over its first columns, once the given rows are taken from it as
/// often as they say; `None` where the shifts do not hold: there is one weights for each term and no
/// more, their places are those of given rows, and nothing is left of the term behind the first columns.
/// They are tested in order, of each first the places. `Wide` exactly where a product, a running sum or
/// a difference of these reaches `2^126` before a test fails; `Memory` where memory runs out. Terms and
/// given rows have `width` columns.
pub fn shifts(
    alloc: Global,
    terms: &[Row],
    given: &[Row],
    weights: &[Weights],
    columns: u32,
    width: u32,
) -> Result<Option<Vec<Row>>, RowFault>
    requires terms { All (λ r. length r.c ≡ width) terms.now }
    requires given { All (λ r. length r.c ≡ width) given.now }
    requires front { columns ≤ width }
    ensures answer { IsAnswer RowFault.Memory (told_as as_fault (shifts_in columns given.now terms.now weights.now)) (seen_as (option_map (λ v. v.items)) result) }
    ensures truth { IfOk result (λ left. IsShifted columns given.now terms.now weights.now (option_map (λ v. v.items) left)) }
{
    show_canonical(weights);
    all_shifts(alloc, terms, given, weights, columns, width)
}
