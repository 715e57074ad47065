// Whether a list of rows implies a row.
ghost use Rattle.std.specs.Prelude.{◌≡◌, ◌≤◌, ◌<ℤ◌, All, IfOk, length, pos, replicate};
ghost use Rattle.pa_math.specs.Answers.{IsAnswer, and_then, told_as};
ghost use Rattle.pa_ring.specs.Sums.{dot};
ghost use Rattle.pa_tableau.specs.Work.{HasRoom};
ghost use Rattle.pa_bland.specs.Seen.{KeepsRoom};
ghost use Rattle.pa_bland.specs.Answered.{Shows};
ghost use Rattle.pa_bland.specs.declared.answer.Answer.TheVariants as Answer;
ghost use Rattle.pa_row.specs.Answers.{as_fault};
ghost use Rattle.pa_row.specs.Fractions.{point_in};
ghost use Rattle.pa_row.specs.declared.fault.RowFault.TheVariants as RowFault;
ghost use Rattle.pa_row.specs.declared.place.Halt.TheVariants as Halt;
ghost use Rattle.pa_farkas.specs.Alternatives.{BreaksAt, IsVerdict, ShowsImplied, ShowsUnmet};
ghost use Rattle.pa_farkas.specs.FewBases.{HasFewBases, IsNotLimited};
ghost use Rattle.pa_farkas.specs.Answered as spec;
ghost use Rattle.pa_farkas.specs.Seen.{IsAwayFrom};
ghost use Rattle.pa_replay.specs.Shown.{ShowsLeast, ShowsNoWeights};

use crate::away::away;
use crate::checked::{breaking_checked, weights_checked};
use crate::fault::read_halt;
use crate::problem::{solved, zeros};
use crate::read::{least_point, point_above};
use pa_bland::{Answer, Direction, EndlessAnswer, LeastAnswer};
use pa_frac::Wide126;
use pa_row::{Halt, Point, Row, RowFault, Sub, Task, Weights};
use pa_tableau::Work;
use std::alloc::Global;

/// What a list of rows says of a row.
#[derive(Drop)]
pub enum Verdict {
    /// Each point that meets the rows meets the row: the weights prove it.
    Yes(Weights),
    /// No point meets the rows: the weights prove `0 <= -1`.
    Empty(Weights),
    /// This point meets the rows and breaks the row.
    No(Point),
}

// The verdict by a point, checked.
fn refuted(rows: &[Row], row: &Row, task: Task, sub: Sub, at: Point) -> Result<Verdict, Halt>
    requires columns { All (λ r. length r.c ≡ length row.now.c) rows.now }
    requires shown { BreaksAt rows.now row.now at }
    ensures exact { result ≡ spec.no_of rows.now row.now task sub at }
    ensures truth { IfOk result (IsVerdict rows.now row.now) }
{
    let at = breaking_checked(rows, row, task, sub, at)?;
    Ok(Verdict::No(at))
}

// The verdict by weights, checked.
fn shown(rows: &[Row], row: &Row, task: Task, w: Weights) -> Result<Verdict, Halt>
    requires columns { All (λ r. length r.c ≡ length row.now.c) rows.now }
    requires shown { ShowsImplied rows.now row.now w }
    ensures exact { result ≡ spec.yes_of rows.now row.now task w }
    ensures truth { IfOk result (IsVerdict rows.now row.now) }
{
    let w = weights_checked(rows, row, task, Sub::Main, w)?;
    Ok(Verdict::Yes(w))
}

// The verdict where the sum of the bounds has a least value: by that value.
#[tactic(auto, using(crate::proofs::Shown::least_beyond, crate::proofs::Shown::least_implies))]
fn by_value(
    alloc: Global,
    rows: &[Row],
    row: &Row,
    task: Task,
    least: LeastAnswer,
) -> Result<Verdict, Halt>
    requires columns { All (λ r. length r.c ≡ length row.now.c) rows.now }
    requires shown { ShowsLeast (record { rows = rows.now; target = row.now.c }) least }
    ensures exact { IsAnswer Halt.Memory (spec.by_value rows.now row.now task least) result }
    ensures truth { IfOk result (IsVerdict rows.now row.now) }
{
    match point_above(alloc, row, &least) {
        Ok(Some(at)) => refuted(rows, row, task, Sub::Main, at),
        Ok(None) => shown(rows, row, task, least.weights),
        Err(fault) => Err(read_halt(task, Sub::Main, fault)),
    }
}

// The verdict where no point meets the rows, as the ray shows.
fn by_ray(
    rows: &[Row],
    row: &Row,
    task: Task,
    sub: Sub,
    endless: EndlessAnswer,
) -> Result<Verdict, Halt>
    requires columns { All (λ r. length r.c ≡ length row.now.c) rows.now }
    requires shown { ShowsUnmet (length row.now.c) rows.now endless.ray }
    ensures exact { result ≡ spec.empty_of rows.now row.now task sub endless.ray }
    ensures truth { IfOk result (IsVerdict rows.now row.now) }
{
    let w = weights_checked(rows, row, task, sub, endless.ray)?;
    Ok(Verdict::Empty(w))
}

// The point that breaks the row, along the direction from the point of the least end.
fn point_away(
    alloc: Global,
    row: &Row,
    least: &LeastAnswer,
    direction: &Direction,
) -> Result<Point, RowFault>
    requires point { length least.now.point ≡ length row.now.c }
    requires direction_columns { length direction.now ≡ length row.now.c }
    requires rises { pos 0 <ℤ dot row.now.c direction.now }
    ensures exact { IsAnswer RowFault.Memory (told_as as_fault (and_then (point_in least.now.point) (λ x. spec.away_in row.now x direction.now))) result }
    ensures meaning { IfOk result (IsAwayFrom row.now least.now direction.now) }
{
    let base = least_point(alloc, least)?;
    away(alloc, row, base, &direction.numbers)
}

// The verdict where no weights make the row and a point meets the rows.
#[tactic(auto, using(crate::proofs::Shown::base_breaks, crate::proofs::Shown::base_columns))]
fn by_point(
    alloc: Global,
    rows: &[Row],
    row: &Row,
    task: Task,
    direction: &Direction,
    least: LeastAnswer,
) -> Result<Verdict, Halt>
    requires columns { All (λ r. length r.c ≡ length row.now.c) rows.now }
    requires stuck { ShowsNoWeights (record { rows = rows.now; target = row.now.c }) direction.now }
    requires shown { ShowsLeast (record { rows = rows.now; target = replicate (length row.now.c) (pos 0) }) least }
    ensures exact { IsAnswer Halt.Memory (spec.by_base rows.now row.now task direction.now (Answer.Least least)) result }
    ensures truth { IfOk result (IsVerdict rows.now row.now) }
{
    match point_away(alloc, row, &least, direction) {
        Ok(at) => refuted(rows, row, task, Sub::Base, at),
        Err(fault) => Err(read_halt(task, Sub::Base, fault)),
    }
}

// The verdict where no weights make the row, by the second problem's answer.
#[tactic(auto, using(crate::proofs::Shown::base_unmet, crate::proofs::Shown::base_has_weights))]
fn by_base(
    alloc: Global,
    rows: &[Row],
    row: &Row,
    task: Task,
    direction: &Direction,
    answer: Answer,
) -> Result<Verdict, Halt>
    requires columns { All (λ r. length r.c ≡ length row.now.c) rows.now }
    requires stuck { ShowsNoWeights (record { rows = rows.now; target = row.now.c }) direction.now }
    requires shown { Shows (record { rows = rows.now; target = replicate (length row.now.c) (pos 0) }) answer }
    ensures exact { IsAnswer Halt.Memory (spec.by_base rows.now row.now task direction.now answer) result }
    ensures truth { IfOk result (IsVerdict rows.now row.now) }
{
    match answer {
        Answer::Least(least) => by_point(alloc, rows, row, task, direction, least),
        Answer::Endless(endless) => by_ray(rows, row, task, Sub::Base, endless),
        Answer::NoWeights(_) => unreachable!(),
    }
}

// The verdict by the problem's answer.
#[tactic(auto, using(crate::proofs::Shown::endless_unmet))]
fn by_main(
    alloc: Global,
    work: &mut Work<Wide126>,
    rows: &[Row],
    row: &Row,
    most: u32,
    task: Task,
    answer: Answer,
) -> Result<Verdict, Halt>
    requires columns { All (λ r. length r.c ≡ length row.now.c) rows.now }
    requires few { length rows.now ≤ 4096 }
    requires short { length row.now.c ≤ 128 }
    requires room { HasRoom (length row.now.c) (length rows.now) work.old }
    requires most { most ≤ 4096 }
    requires shown { Shows (record { rows = rows.now; target = row.now.c }) answer }
    ensures room { KeepsRoom work.old work.new }
    ensures exact { IsAnswer Halt.Memory (spec.by_main rows.now row.now most task answer) result }
    ensures truth { IfOk result (IsVerdict rows.now row.now) }
{
    match answer {
        Answer::Least(least) => by_value(alloc, rows, row, task, least),
        Answer::Endless(endless) => by_ray(rows, row, task, Sub::Main, endless),
        Answer::NoWeights(direction) => {
            let target = zeros(alloc, row.c.len())?;
            let answer = solved(alloc, work, rows, &target, most, task, Sub::Base)?;
            by_base(alloc, rows, row, task, &direction, answer)
        }
    }
}

// The verdict, over a work that serves many questions.
fn verdict_in(
    alloc: Global,
    work: &mut Work<Wide126>,
    rows: &[Row],
    row: &Row,
    most: u32,
    task: Task,
) -> Result<Verdict, Halt>
    requires columns { All (λ r. length r.c ≡ length row.now.c) rows.now }
    requires few { length rows.now ≤ 4096 }
    requires short { length row.now.c ≤ 128 }
    requires room { HasRoom (length row.now.c) (length rows.now) work.old }
    requires most { most ≤ 4096 }
    ensures room { KeepsRoom work.old work.new }
    ensures answer { IsAnswer Halt.Memory (spec.implied_of rows.now row.now most task) result }
    ensures truth { IfOk result (IsVerdict rows.now row.now) }
{
    let answer = solved(alloc, work, rows, &row.c, most, task, Sub::Main)?;
    by_main(alloc, work, rows, row, most, task, answer)
}

/// Whether the rows imply the row (J. Farkas, Theorie der einfachen Ungleichungen, 1902), over a work that serves many
/// questions: weights that prove the row, weights that prove `0 <= -1` where no point meets the rows, or a point that
/// meets the rows and breaks the row. Each is checked by sums before it is answered.
///
/// The rows have as many columns as `row`, at most 128, there are at most 4,096 of them, the work has room, and `most` is
/// at most 4,096. There are two problems: the main one has the row's coefficients as its target, and the base one, which
/// is solved where no weights make these, has the target 0. `PivotLimit` and `Wide` name the task, the problem that was
/// solved last and the spot: a cell of the run, a number that is read at its end, or a sum of the check. `PivotLimit` comes
/// exactly where the run on a problem has made `most` pivots and another one is to come, `Wide` exactly where a number
/// passes 126 bits before that, and `Memory` where memory runs out.
/// `PivotLimit` never comes where `most_bases` of the numbers of rows and of columns is at most `most`.
pub fn implied_in(
    alloc: Global,
    work: &mut Work<Wide126>,
    rows: &[Row],
    row: &Row,
    most: u32,
    task: Task,
) -> Result<Verdict, Halt>
    requires columns { All (λ r. length r.c ≡ length row.now.c) rows.now }
    requires few { length rows.now ≤ 4096 }
    requires short { length row.now.c ≤ 128 }
    requires room { HasRoom (length row.now.c) (length rows.now) work.old }
    requires most { most ≤ 4096 }
    ensures room { KeepsRoom work.old work.new }
    ensures answer { IsAnswer Halt.Memory (spec.implied_of rows.now row.now most task) result }
    ensures truth { IfOk result (IsVerdict rows.now row.now) }
    ensures unlimited { HasFewBases (length rows.now) (length row.now.c) most → IsNotLimited result }
{
    verdict_in(alloc, work, rows, row, most, task)
}

/// The same in a work of its own.
pub fn implied(
    alloc: Global,
    rows: &[Row],
    row: &Row,
    most: u32,
    task: Task,
) -> Result<Verdict, Halt>
    requires columns { All (λ r. length r.c ≡ length row.now.c) rows.now }
    requires few { length rows.now ≤ 4096 }
    requires short { length row.now.c ≤ 128 }
    requires most { most ≤ 4096 }
    ensures answer { IsAnswer Halt.Memory (spec.implied_of rows.now row.now most task) result }
    ensures truth { IfOk result (IsVerdict rows.now row.now) }
    ensures unlimited { HasFewBases (length rows.now) (length row.now.c) most → IsNotLimited result }
{
    let Ok(mut work) = Work::new(alloc, row.c.len() as u32, rows.len() as u32) else {
        return Err(Halt::Memory);
    };
    implied_in(alloc, &mut work, rows, row, most, task)
}
