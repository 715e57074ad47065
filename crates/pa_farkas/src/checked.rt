// Certificates, checked by sums before they are answered.
ghost use Rattle.std.specs.Prelude.{◌≡◌, ◌≤◌, All, IfOk, length};
ghost use Rattle.pa_meaning.specs.Weights.{AllPlaced};
ghost use Rattle.pa_farkas.specs.Answered as spec;

use crate::fault::wide_in;
use pa_frac::Wide;
use pa_row::{Halt, Point, Row, Spot, Sub, Task, Weights, covers};

/// The weights, once their sums over the rows were formed.
pub(crate) fn weights_checked(
    rows: &[Row],
    row: &Row,
    task: Task,
    sub: Sub,
    w: Weights,
) -> Result<Weights, Halt>
    requires placed { AllPlaced w.parts rows.now }
    requires columns { All (λ r. length r.c ≡ length row.now.c) rows.now }
    ensures exact { result ≡ spec.weights_checked rows.now row.now task sub w }
    ensures same { IfOk result (λ v. v ≡ w) }
{
    match covers(rows, row, &w) {
        Ok(_) => Ok(w),
        Err(_) => Err(wide_in(task, sub, Spot::Check)),
    }
}

// Whether the point meets each of the rows, all of which are tested.
#[tactic(auto, using(crate::proofs::Turns::tested_turn))]
fn tested(rows: &[Row], at: &Point) -> Result<bool, Wide>
    requires { All (λ r. length r.c ≤ length at.now.p) rows.now }
    ensures { result ≡ spec.tested_in at.now rows.now }
{
    let mut all_met = true;
    for row in rows {
        let met = row.meets(at)?;
        all_met &= met;
    }
    Ok(all_met)
}

/// The point, once the rows were tested at it.
pub(crate) fn point_checked(rows: &[Row], task: Task, sub: Sub, at: Point) -> Result<Point, Halt>
    requires { All (λ r. length r.c ≤ length at.p) rows.now }
    ensures exact { result ≡ spec.point_checked rows.now task sub at }
    ensures same { IfOk result (λ x. x ≡ at) }
{
    match tested(rows, &at) {
        Ok(_) => Ok(at),
        Err(_) => Err(wide_in(task, sub, Spot::Check)),
    }
}

/// The point, once the rows and then the row were tested at it.
pub(crate) fn breaking_checked(
    rows: &[Row],
    row: &Row,
    task: Task,
    sub: Sub,
    at: Point,
) -> Result<Point, Halt>
    requires columns { All (λ r. length r.c ≤ length at.p) rows.now }
    requires row_columns { length row.now.c ≤ length at.p }
    ensures exact { result ≡ spec.breaking_checked rows.now row.now task sub at }
    ensures same { IfOk result (λ x. x ≡ at) }
{
    let at = point_checked(rows, task, sub, at)?;
    match row.meets(&at) {
        Ok(_) => Ok(at),
        Err(_) => Err(wide_in(task, sub, Spot::Check)),
    }
}
