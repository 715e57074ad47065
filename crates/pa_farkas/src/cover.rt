// Which weights cover a row.
ghost use Rattle.std.specs.Prelude.{◌≡◌, ◌≤◌, All, IfOk, Some, length};
ghost use Rattle.pa_math.specs.Answers.{IsAnswer};
ghost use Rattle.pa_tableau.specs.Work.{HasRoom};
ghost use Rattle.pa_bland.specs.Answered.{Shows};
ghost use Rattle.pa_bland.specs.Seen.{KeepsRoom};
ghost use Rattle.pa_bland.specs.declared.answer.Answer.TheVariants as Answer;
ghost use Rattle.pa_replay.specs.Shown.{ShowsEndless, ShowsLeast};
ghost use Rattle.pa_row.specs.declared.place.Halt.TheVariants as Halt;
ghost use Rattle.pa_farkas.specs.Alternatives.{IsCover};
ghost use Rattle.pa_farkas.specs.FewBases.{HasFewBases, IsNotLimited};
ghost use Rattle.pa_farkas.specs.Answered as spec;

use crate::checked::weights_checked;
use crate::fault::wide_in;
use crate::problem::solved;
use crate::read::{compared, is_above};
use pa_bland::{Answer, EndlessAnswer, LeastAnswer};
use pa_frac::Wide126;
use pa_row::{Halt, Row, Spot, Sub, Task, Weights};
use pa_tableau::Work;
use std::alloc::Global;

// The weights that were found, checked.
fn found(rows: &[Row], row: &Row, task: Task, w: Weights) -> Result<Option<Weights>, Halt>
    requires columns { All (λ r. length r.c ≡ length row.now.c) rows.now }
    requires shown { IsCover rows.now row.now (Some w) }
    ensures exact { result ≡ spec.found_of rows.now row.now task w }
    ensures truth { IfOk result (IsCover rows.now row.now) }
{
    let w = weights_checked(rows, row, task, Sub::Main, w)?;
    Ok(Some(w))
}

// The weights of the least value, where it is not above the row's bound.
#[tactic(auto, using(crate::proofs::Shown::least_covers, crate::proofs::Shown::least_uncovers))]
fn by_least(
    rows: &[Row],
    row: &Row,
    task: Task,
    least: LeastAnswer,
) -> Result<Option<Weights>, Halt>
    requires columns { All (λ r. length r.c ≡ length row.now.c) rows.now }
    requires shown { ShowsLeast (record { rows = rows.now; target = row.now.c }) least }
    ensures exact { result ≡ spec.covered_by rows.now row.now task (Answer.Least least) }
    ensures truth { IfOk result (IsCover rows.now row.now) }
{
    let Ok(order) = compared(row, &least) else {
        return Err(wide_in(task, Sub::Main, Spot::Read));
    };
    if is_above(order) {
        return Ok(None);
    }
    found(rows, row, task, least.weights)
}

// The ray, where no point meets the rows.
#[tactic(auto, using(crate::proofs::Shown::endless_covers))]
fn by_ray(
    rows: &[Row],
    row: &Row,
    task: Task,
    endless: EndlessAnswer,
) -> Result<Option<Weights>, Halt>
    requires columns { All (λ r. length r.c ≡ length row.now.c) rows.now }
    requires shown { ShowsEndless (record { rows = rows.now; target = row.now.c }) endless }
    ensures exact { result ≡ spec.covered_by rows.now row.now task (Answer.Endless endless) }
    ensures truth { IfOk result (IsCover rows.now row.now) }
{
    found(rows, row, task, endless.ray)
}

// The weights by the problem's answer.
#[tactic(auto, using(crate::proofs::Shown::none_covers))]
fn by_answer(rows: &[Row], row: &Row, task: Task, answer: Answer) -> Result<Option<Weights>, Halt>
    requires columns { All (λ r. length r.c ≡ length row.now.c) rows.now }
    requires shown { Shows (record { rows = rows.now; target = row.now.c }) answer }
    ensures exact { result ≡ spec.covered_by rows.now row.now task answer }
    ensures truth { IfOk result (IsCover rows.now row.now) }
{
    match answer {
        Answer::Least(least) => by_least(rows, row, task, least),
        Answer::Endless(endless) => by_ray(rows, row, task, endless),
        Answer::NoWeights(_) => Ok(None),
    }
}

// The weights that cover the row, over a work that serves many questions.
fn weights_in(
    alloc: Global,
    work: &mut Work<Wide126>,
    rows: &[Row],
    row: &Row,
    most: u32,
    task: Task,
) -> Result<Option<Weights>, Halt>
    requires columns { All (λ r. length r.c ≡ length row.now.c) rows.now }
    requires few { length rows.now ≤ 4096 }
    requires short { length row.now.c ≤ 128 }
    requires room { HasRoom (length row.now.c) (length rows.now) work.old }
    requires most { most ≤ 4096 }
    ensures room { KeepsRoom work.old work.new }
    ensures answer { IsAnswer Halt.Memory (spec.covered_of rows.now row.now most task) result }
    ensures truth { IfOk result (IsCover rows.now row.now) }
{
    let answer = solved(alloc, work, rows, &row.c, most, task, Sub::Main)?;
    by_answer(rows, row, task, answer)
}

/// Weights that prove the row over the rows (J. Farkas, Theorie der einfachen Ungleichungen, 1902), over a work that serves
/// many questions. `None` exactly where no weights have the row's coefficients and at most its bound. The weights are those
/// of the least bound; where the bounds have none, they are a ray, which proves `0 <= -1`. They are checked by sums before
/// they are answered.
///
/// The rows have as many columns as `row`, at most 128, there are at most 4,096 of them, the work has room, and `most` is
/// at most 4,096. `PivotLimit` and `Wide` name the task and, at the problem with the row's coefficients as its target, a
/// cell of the run, a number that is read at its end, or a sum of the check. `PivotLimit` comes exactly where the run has
/// made `most` pivots and another one is to come, `Wide` exactly where a number passes 126 bits before that, and `Memory`
/// where memory runs out.
/// `PivotLimit` never comes where `most_bases` of the numbers of rows and of columns is at most `most`.
pub fn covered_in(
    alloc: Global,
    work: &mut Work<Wide126>,
    rows: &[Row],
    row: &Row,
    most: u32,
    task: Task,
) -> Result<Option<Weights>, Halt>
    requires columns { All (λ r. length r.c ≡ length row.now.c) rows.now }
    requires few { length rows.now ≤ 4096 }
    requires short { length row.now.c ≤ 128 }
    requires room { HasRoom (length row.now.c) (length rows.now) work.old }
    requires most { most ≤ 4096 }
    ensures room { KeepsRoom work.old work.new }
    ensures answer { IsAnswer Halt.Memory (spec.covered_of rows.now row.now most task) result }
    ensures truth { IfOk result (IsCover rows.now row.now) }
    ensures unlimited { HasFewBases (length rows.now) (length row.now.c) most → IsNotLimited result }
{
    weights_in(alloc, work, rows, row, most, task)
}

/// The same in a work of its own.
pub fn covered(
    alloc: Global,
    rows: &[Row],
    row: &Row,
    most: u32,
    task: Task,
) -> Result<Option<Weights>, Halt>
    requires columns { All (λ r. length r.c ≡ length row.now.c) rows.now }
    requires few { length rows.now ≤ 4096 }
    requires short { length row.now.c ≤ 128 }
    requires most { most ≤ 4096 }
    ensures answer { IsAnswer Halt.Memory (spec.covered_of rows.now row.now most task) result }
    ensures truth { IfOk result (IsCover rows.now row.now) }
    ensures unlimited { HasFewBases (length rows.now) (length row.now.c) most → IsNotLimited result }
{
    let Ok(mut work) = Work::new(alloc, row.c.len() as u32, rows.len() as u32) else {
        return Err(Halt::Memory);
    };
    covered_in(alloc, &mut work, rows, row, most, task)
}
