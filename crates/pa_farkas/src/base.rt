// Whether a point meets a list of rows.
ghost use Rattle.std.specs.Prelude.{◌≡◌, ◌≤◌, All, IfOk, Ok, length, pos, replicate};
ghost use Rattle.pa_math.specs.Answers.{IsAnswer, and_then};
ghost use Rattle.pa_meaning.specs.Weights as weights;
ghost use Rattle.pa_tableau.specs.Work.{HasRoom};
ghost use Rattle.pa_bland.specs.Answered.{Shows};
ghost use Rattle.pa_bland.specs.Seen.{KeepsRoom};
ghost use Rattle.pa_bland.specs.declared.answer.Answer.TheVariants as Answer;
ghost use Rattle.pa_replay.specs.Shown.{ShowsLeast};
ghost use Rattle.pa_row.specs.declared.place.Sub.TheVariants as Sub;
ghost use Rattle.pa_farkas.specs.declared.base.Feasibility.TheVariants as Feasibility;
ghost use Rattle.pa_row.specs.declared.place.Halt.TheVariants as Halt;
ghost use Rattle.pa_farkas.specs.Alternatives.{IsFeasibility, IsMetAt, ShowsUnmet};
ghost use Rattle.pa_farkas.specs.FewBases.{HasFewBases, IsNotLimited};
ghost use Rattle.pa_farkas.specs.Answered as spec;

use crate::checked::{point_checked, weights_checked};
use crate::fault::read_halt;
use crate::problem::{solved, zeros};
use crate::read::least_point;
use pa_bland::{Answer, EndlessAnswer, LeastAnswer};
use pa_frac::Wide126;
use pa_row::{Halt, Point, Row, Sub, Task, Weights};
use pa_tableau::Work;
use std::alloc::Global;

/// Whether a point meets the rows.
#[derive(Drop)]
pub enum Feasibility {
    /// This point meets them.
    Point(Point),
    /// No point does: the weights prove `0 <= -1`.
    Empty(Weights),
}

// The row `0 <= -1` over this many columns.
fn impossible(alloc: Global, columns: usize) -> Result<Row, Halt>
    ensures { IsAnswer Halt.Memory (Ok (weights.impossible columns)) result }
{
    let c = zeros(alloc, columns)?;
    Ok(Row { c, b: -1 })
}

// The answer by the point of the least end, checked.
#[tactic(auto, using(crate::proofs::Shown::base_met))]
fn by_least(
    alloc: Global,
    rows: &[Row],
    columns: u32,
    task: Task,
    least: LeastAnswer,
) -> Result<Feasibility, Halt>
    requires columns { All (λ r. length r.c ≡ columns) rows.now }
    requires shown { ShowsLeast (record { rows = rows.now; target = replicate columns (pos 0) }) least }
    ensures exact { IsAnswer Halt.Memory (spec.feasible_by columns rows.now task (Answer.Least least)) result }
    ensures truth { IfOk result (IsFeasibility columns rows.now) }
{
    match least_point(alloc, &least) {
        Ok(at) => met(rows, columns, task, at),
        Err(fault) => Err(read_halt(task, Sub::Base, fault)),
    }
}

// The answer by a point, checked.
fn met(rows: &[Row], columns: u32, task: Task, at: Point) -> Result<Feasibility, Halt>
    requires columns { All (λ r. length r.c ≡ columns) rows.now }
    requires met { IsMetAt columns rows.now at }
    ensures exact { result ≡ and_then (spec.point_checked rows.now task Sub.Base at) (λ x. Ok (Feasibility.Point x)) }
    ensures truth { IfOk result (IsFeasibility columns rows.now) }
{
    let at = point_checked(rows, task, Sub::Base, at)?;
    Ok(Feasibility::Point(at))
}

// The answer by a ray, checked.
fn by_ray(
    alloc: Global,
    rows: &[Row],
    columns: u32,
    task: Task,
    endless: EndlessAnswer,
) -> Result<Feasibility, Halt>
    requires columns { All (λ r. length r.c ≡ columns) rows.now }
    requires shown { ShowsUnmet columns rows.now endless.ray }
    ensures exact { IsAnswer Halt.Memory (spec.feasible_by columns rows.now task (Answer.Endless endless)) result }
    ensures truth { IfOk result (IsFeasibility columns rows.now) }
{
    let row = impossible(alloc, columns as usize)?;
    let w = weights_checked(rows, &row, task, Sub::Base, endless.ray)?;
    Ok(Feasibility::Empty(w))
}

// The answer by that of the problem.
#[tactic(auto, using(crate::proofs::Shown::base_unmet, crate::proofs::Shown::base_has_weights))]
fn by_base(
    alloc: Global,
    rows: &[Row],
    columns: u32,
    task: Task,
    answer: Answer,
) -> Result<Feasibility, Halt>
    requires columns { All (λ r. length r.c ≡ columns) rows.now }
    requires shown { Shows (record { rows = rows.now; target = replicate columns (pos 0) }) answer }
    ensures exact { IsAnswer Halt.Memory (spec.feasible_by columns rows.now task answer) result }
    ensures truth { IfOk result (IsFeasibility columns rows.now) }
{
    match answer {
        Answer::Least(least) => by_least(alloc, rows, columns, task, least),
        Answer::Endless(endless) => by_ray(alloc, rows, columns, task, endless),
        Answer::NoWeights(_) => unreachable!(),
    }
}

// The point that meets the rows, or the weights that show that none does.
fn feasibility_in(
    alloc: Global,
    work: &mut Work<Wide126>,
    rows: &[Row],
    columns: u32,
    most: u32,
    task: Task,
) -> Result<Feasibility, Halt>
    requires columns { All (λ r. length r.c ≡ columns) rows.now }
    requires few { length rows.now ≤ 4096 }
    requires short { columns ≤ 128 }
    requires room { HasRoom columns (length rows.now) work.old }
    requires most { most ≤ 4096 }
    ensures room { KeepsRoom work.old work.new }
    ensures answer { IsAnswer Halt.Memory (spec.feasible_of columns rows.now most task) result }
    ensures truth { IfOk result (IsFeasibility columns rows.now) }
{
    let target = zeros(alloc, columns as usize)?;
    let answer = solved(alloc, work, rows, &target, most, task, Sub::Base)?;
    by_base(alloc, rows, columns, task, answer)
}

/// Whether a point meets the rows: one that does, or weights that prove `0 <= -1` (J. Farkas, Theorie der einfachen
/// Ungleichungen, 1902), over a work that serves many questions. Each is checked by sums before it is answered.
///
/// The rows have this many columns, at most 128, there are at most 4,096 of them, the work has room, and `most` is at most
/// 4,096. `PivotLimit` and `Wide` name the task and, at the problem with the target 0, a cell of the run, a number that is
/// read at its end, or a sum of the check. `PivotLimit` comes exactly where the run has made `most` pivots and another one
/// is to come, `Wide` exactly where a number passes 126 bits before that, and `Memory` where memory runs out.
/// `PivotLimit` never comes where `most_bases` of the numbers of rows and of columns is at most `most`.
pub fn feasible_in(
    alloc: Global,
    work: &mut Work<Wide126>,
    rows: &[Row],
    columns: u32,
    most: u32,
    task: Task,
) -> Result<Feasibility, Halt>
    requires columns { All (λ r. length r.c ≡ columns) rows.now }
    requires few { length rows.now ≤ 4096 }
    requires short { columns ≤ 128 }
    requires room { HasRoom columns (length rows.now) work.old }
    requires most { most ≤ 4096 }
    ensures room { KeepsRoom work.old work.new }
    ensures answer { IsAnswer Halt.Memory (spec.feasible_of columns rows.now most task) result }
    ensures truth { IfOk result (IsFeasibility columns rows.now) }
    ensures unlimited { HasFewBases (length rows.now) columns most → IsNotLimited result }
{
    feasibility_in(alloc, work, rows, columns, most, task)
}

/// The same in a work of its own.
pub fn feasible(
    alloc: Global,
    rows: &[Row],
    columns: u32,
    most: u32,
    task: Task,
) -> Result<Feasibility, Halt>
    requires columns { All (λ r. length r.c ≡ columns) rows.now }
    requires few { length rows.now ≤ 4096 }
    requires short { columns ≤ 128 }
    requires most { most ≤ 4096 }
    ensures answer { IsAnswer Halt.Memory (spec.feasible_of columns rows.now most task) result }
    ensures truth { IfOk result (IsFeasibility columns rows.now) }
    ensures unlimited { HasFewBases (length rows.now) columns most → IsNotLimited result }
{
    let Ok(mut work) = Work::new(alloc, columns, rows.len() as u32) else {
        return Err(Halt::Memory);
    };
    feasible_in(alloc, &mut work, rows, columns, most, task)
}
