// The answer to a problem, with its faults by their places.
ghost use Rattle.std.specs.Prelude.{◌≡◌, ◌≤◌, IfOk, Ok, length, pos, replicate};
ghost use Rattle.pa_math.specs.Answers.{IsAnswer, seen_as};
ghost use Rattle.pa_tableau.specs.Work.{HasRoom};
ghost use Rattle.pa_bland.specs.Answered.{Shows};
ghost use Rattle.pa_bland.specs.Seen.{KeepsRoom};
ghost use Rattle.pa_replay.specs.Problem.{IsPosed};
ghost use Rattle.pa_row.specs.declared.place.Halt.TheVariants as Halt;
ghost use Rattle.pa_farkas.specs.FewBases.{HasFewBases, IsNotLimited};
ghost use Rattle.pa_farkas.specs.Answered as spec;

use crate::fault::halt_of;
use pa_bland::{Answer, LentProblem, solve_answer};
use pa_frac::Wide126;
use pa_row::{Halt, Row, Sub, Task};
use pa_tableau::Work;
use std::alloc::Global;

// The problem of all the rows and the target.
#[tactic(auto, using(pa_bland::proofs::Omitted::all_without))]
fn posed<'a>(rows: &'a [Row], target: &'a [i128]) -> LentProblem<'a>
    requires { IsPosed (record { rows = rows.now; target = target.now }) }
    ensures { result ≡ record { rows = rows.now; target = target.now } }
{
    LentProblem::new(rows, rows.len(), target)
}

/// The target 0 in this many columns.
pub(crate) fn zeros(alloc: Global, columns: usize) -> Result<Vec<i128>, Halt>
    ensures exact { IsAnswer Halt.Memory (Ok (replicate columns (pos 0))) (seen_as (λ v. v.items) result) }
{
    match Vec::from_elem(alloc, 0, columns) {
        Ok(numbers) => Ok(numbers),
        Err(_) => Err(Halt::Memory),
    }
}

// The answer, with its faults by their places.
fn answered(
    alloc: Global,
    work: &mut Work<Wide126>,
    rows: &[Row],
    target: &[i128],
    most: u32,
    task: Task,
    sub: Sub,
) -> Result<Answer, Halt>
    requires posed { IsPosed (record { rows = rows.now; target = target.now }) }
    requires room { HasRoom (length target.now) (length rows.now) work.old }
    requires most { most ≤ 4096 }
    ensures room { KeepsRoom work.old work.new }
    ensures exact { IsAnswer Halt.Memory (spec.solved_for task sub rows.now target.now most) result }
    ensures meaning { IfOk result (Shows (record { rows = rows.now; target = target.now })) }
{
    let problem = posed(rows, target);
    match solve_answer(alloc, work, &problem, most) {
        Ok(answer) => Ok(answer),
        Err(fault) => Err(halt_of(task, sub, fault)),
    }
}

/// The answer to the problem of these rows and this target (`pa_bland::solve_answer`), over a work that serves many
/// problems. Nothing of it is checked yet.
///
/// The rows have as many columns as the target has numbers, at most 128, there are at most 4,096 of them, the target's
/// numbers are below `2^126` in absolute value, the work has room, and `most` is at most 4,096. `PivotLimit` and `Wide` name
/// the task, the problem and a cell of the run or what is read at its end; `Memory` where memory runs out. `PivotLimit`
/// never comes where `most_bases` of the numbers of rows and of the target's numbers is at most `most`.
pub fn solved(
    alloc: Global,
    work: &mut Work<Wide126>,
    rows: &[Row],
    target: &[i128],
    most: u32,
    task: Task,
    sub: Sub,
) -> Result<Answer, Halt>
    requires posed { IsPosed (record { rows = rows.now; target = target.now }) }
    requires room { HasRoom (length target.now) (length rows.now) work.old }
    requires most { most ≤ 4096 }
    ensures room { KeepsRoom work.old work.new }
    ensures exact { IsAnswer Halt.Memory (spec.solved_for task sub rows.now target.now most) result }
    ensures meaning { IfOk result (Shows (record { rows = rows.now; target = target.now })) }
    ensures unlimited { HasFewBases (length rows.now) (length target.now) most → IsNotLimited result }
{
    answered(alloc, work, rows, target, most, task, sub)
}
