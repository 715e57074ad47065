// A term less weighted rows, so that nothing of it is left in the columns that go.
ghost use Rattle.std.specs.Prelude.{◌≡◌, ◌≤◌, ◌<ℤ◌, ◌-◌, All, IfOk, length, pos, true};
ghost use Rattle.pa_math.specs.Answers.{IsAnswer};
ghost use Rattle.pa_meaning.specs.Shifting as less;
ghost use Rattle.pa_tableau.specs.Work.{HasRoom};
ghost use Rattle.pa_bland.specs.Answered.{Shows};
ghost use Rattle.pa_bland.specs.Seen.{KeepsRoom};
ghost use Rattle.pa_replay.specs.Shown.{ShowsEndless, ShowsLeast, ShowsNoWeights};
ghost use Rattle.pa_row.specs.declared.place.Halt.TheVariants as Halt;
ghost use Rattle.pa_farkas.specs.FewBases.{HasFewBases, IsNotLimited};
ghost use Rattle.pa_shift.specs.Meant.{CanShift, IsExactAt, IsShifting};
ghost use Rattle.pa_shift.specs.Seen.{AreCosts};
ghost use Rattle.pa_shift.specs.Shifting as spec;
ghost use Rattle.pa_witness.specs.Shifts.{ShiftHolds};

use crate::along::rise;
use crate::cost::{are_zero, behind};
use crate::premises::Premises;
use pa_bland::{Answer, Direction, EndlessAnswer, LeastAnswer};
use pa_farkas::{solved, wide_in};
use pa_frac::Wide126;
use pa_row::{Halt, Point, Row, RowFault, Spot, Sub, Task, Weights, copy_rows, shifted};
use pa_tableau::Work;
use std::alloc::{AllocError, Global};

/// A term that is brought to the columns that stay, or why that is not possible.
#[derive(Drop)]
pub enum Shifted {
    /// What the weights over the given rows leave of the term: a row over all columns, with 0 in those that go.
    Term { row: Row, weights: Weights },
    /// No weights equal the term in the columns that go: along this direction there, none of the given rows rises and the
    /// term does.
    Ray { direction: Direction },
}

// No weights.
#[tactic(auto, using(crate::proofs::Shown::none_canonical))]
fn no_weights(alloc: Global) -> Weights
    ensures { result ≡ spec.no_weights }
{
    Weights {
        den: 1,
        parts: Vec::new(alloc),
    }
}

// What these weights leave of the term.
#[tactic(auto, using(crate::proofs::Shown::left_shows))]
fn left_by(
    alloc: Global,
    given: &Premises,
    term: &Row,
    task: Task,
    weights: Weights,
) -> Result<Shifted, Halt>
    requires can { CanShift given.now term.now }
    requires holds { ShiftHolds (length given.now.nominal.p) given.now.rows term.now weights }
    requires exact { IsExactAt given.now term.now (less.shifted term.now given.now.rows weights) }
    ensures exact { IsAnswer Halt.Memory (spec.left_by given.now.rows term.now task weights) result }
    ensures truth { IfOk result (IsShifting given.now term.now) }
{
    match shifted(alloc, term, given.rows(), &weights) {
        Ok(row) => Ok(Shifted::Term { row, weights }),
        Err(RowFault::Memory) => Err(Halt::Memory),
        Err(RowFault::Wide) => Err(wide_in(task, Sub::Main, Spot::Check)),
    }
}

// What is left of a term with nothing in the columns that go, which takes no weights.
fn settled(alloc: Global, given: &Premises, term: &Row, task: Task) -> Result<Shifted, Halt>
    requires can { CanShift given.now term.now }
    requires zero { spec.are_zero (spec.target_of given.now.nominal term.now) ≡ true }
    ensures exact { IsAnswer Halt.Memory (spec.left_by given.now.rows term.now task spec.no_weights) result }
    ensures truth { IfOk result (IsShifting given.now term.now) }
{
    left_by(alloc, given, term, task, no_weights(alloc))
}

// The direction, checked by its sums.
#[tactic(auto, using(crate::proofs::Shown::stuck_shows))]
fn ray_by(
    given: &Premises,
    costs: &[Row],
    term: &Row,
    task: Task,
    direction: Direction,
) -> Result<Shifted, Halt>
    requires can { CanShift given.now term.now }
    requires costs { AreCosts given.now costs.now }
    requires stuck { ShowsNoWeights (record { rows = costs.now; target = spec.target_of given.now.nominal term.now }) direction }
    ensures exact { result ≡ spec.ray_by costs.now (spec.target_of given.now.nominal term.now) task direction }
    ensures truth { IfOk result (IsShifting given.now term.now) }
{
    match rise(costs, behind(term, given.nominal()), &direction.numbers) {
        Ok(_) => Ok(Shifted::Ray { direction }),
        Err(_) => Err(wide_in(task, Sub::Main, Spot::Check)),
    }
}

// Each fraction of the point of the least end has a positive denominator.
#[tactic(auto, using(crate::proofs::Shown::fractions_have))]
fn show_denominators(least: &LeastAnswer)
    ensures { All (λ f. pos 0 <ℤ f.1) least.now.point }
{
    let _den = least.den;
}

// The answer by the least weights.
#[tactic(auto, using(crate::proofs::Shown::least_shift, crate::proofs::Shown::least_exact))]
fn by_least(
    alloc: Global,
    given: &Premises,
    costs: &[Row],
    term: &Row,
    task: Task,
    least: LeastAnswer,
) -> Result<Shifted, Halt>
    requires can { CanShift given.now term.now }
    requires costs { AreCosts given.now costs.now }
    requires shown { ShowsLeast (record { rows = costs.now; target = spec.target_of given.now.nominal term.now }) least }
    ensures exact { IsAnswer Halt.Memory (spec.left_by given.now.rows term.now task least.weights) result }
    ensures truth { IfOk result (IsShifting given.now term.now) }
{
    show_denominators(&least);
    left_by(alloc, given, term, task, least.weights)
}

// The answer by the last weights, where no extension of the nominal point meets the rows.
#[tactic(auto, using(crate::proofs::Shown::endless_shift, crate::proofs::Shown::endless_exact))]
fn by_last(
    alloc: Global,
    given: &Premises,
    costs: &[Row],
    term: &Row,
    task: Task,
    endless: EndlessAnswer,
) -> Result<Shifted, Halt>
    requires can { CanShift given.now term.now }
    requires costs { AreCosts given.now costs.now }
    requires shown { ShowsEndless (record { rows = costs.now; target = spec.target_of given.now.nominal term.now }) endless }
    ensures exact { IsAnswer Halt.Memory (spec.left_by given.now.rows term.now task endless.last) result }
    ensures truth { IfOk result (IsShifting given.now term.now) }
{
    left_by(alloc, given, term, task, endless.last)
}

// The answer by the end of the problem.
fn by_answer(
    alloc: Global,
    given: &Premises,
    costs: &[Row],
    term: &Row,
    task: Task,
    answer: Answer,
) -> Result<Shifted, Halt>
    requires can { CanShift given.now term.now }
    requires costs { AreCosts given.now costs.now }
    requires shown { Shows (record { rows = costs.now; target = spec.target_of given.now.nominal term.now }) answer }
    ensures exact { IsAnswer Halt.Memory (spec.by_answer given.now costs.now term.now task answer) result }
    ensures truth { IfOk result (IsShifting given.now term.now) }
{
    match answer {
        Answer::Least(least) => by_least(alloc, given, costs, term, task, least),
        Answer::Endless(endless) => by_last(alloc, given, costs, term, task, endless),
        Answer::NoWeights(direction) => ray_by(given, costs, term, task, direction),
    }
}

// The answer where the term has something in the columns that go.
#[tactic(auto, using(crate::proofs::Shown::costs_posed))]
fn by_problem(
    alloc: Global,
    work: &mut Work<Wide126>,
    given: &Premises,
    term: &Row,
    most: u32,
    task: Task,
) -> Result<Shifted, Halt>
    requires can { CanShift given.now term.now }
    requires room { HasRoom (length term.now.c - length given.now.nominal.p) (length given.now.rows) work.old }
    requires most { most ≤ 4096 }
    ensures room { KeepsRoom work.old work.new }
    ensures exact { IsAnswer Halt.Memory (spec.by_costs given.now term.now most task) result }
    ensures truth { IfOk result (IsShifting given.now term.now) }
{
    let Ok(costs) = given.costs() else {
        return Err(wide_in(task, Sub::Main, Spot::Load));
    };
    let target = behind(term, given.nominal());
    let answer = solved(alloc, work, costs, target, most, task, Sub::Main)?;
    by_answer(alloc, given, costs, term, task, answer)
}

// What weighted rows leave of a term, over a work that serves many terms.
fn left_over(
    alloc: Global,
    work: &mut Work<Wide126>,
    given: &Premises,
    term: &Row,
    most: u32,
    task: Task,
) -> Result<Shifted, Halt>
    requires columns { All (λ r. length r.c ≡ length term.now.c) given.now.rows }
    requires nominal { length given.now.nominal.p ≤ length term.now.c }
    requires few { length given.now.rows ≤ 4096 }
    requires short { length term.now.c ≤ 128 }
    requires room { HasRoom (length term.now.c - length given.now.nominal.p) (length given.now.rows) work.old }
    requires most { most ≤ 4096 }
    ensures room { KeepsRoom work.old work.new }
    ensures answer { IsAnswer Halt.Memory (spec.shifted_of given.now term.now most task) result }
    ensures truth { IfOk result (IsShifting given.now term.now) }
{
    given.show_positive();
    if are_zero(behind(term, given.nominal())) {
        return settled(alloc, given, term, task);
    }
    by_problem(alloc, work, given, term, most, task)
}

/// What weighted rows leave of a term, over a work that serves many terms: a row with 0 in the columns that go, so that a
/// point that meets the given rows and this row meets the term (J. Farkas, Theorie der einfachen Ungleichungen, 1902). The
/// weights are those of the least cost, where a row costs its slack at the nominal point. So where some extension of the
/// nominal point meets the given rows, the point meets the row exactly where every such extension meets the term. Where the
/// cost has no least value, no such extension meets the given rows, and the weights are those of the last tableau. A term
/// with nothing in the columns that go takes no weights, and no cost is asked for. A `Ray` exactly where no weights equal the
/// term in the columns that go.
///
/// The given rows have as many columns as the term, at most 128, of which the nominal point has the first; there are at most
/// 4,096 of them, the work has room for the columns that go, and `most` is at most 4,096. `PivotLimit` and `Wide` name the
/// task and the spot: a cost (`Load`), a cell of the run, what is read at its end, or a sum of the row that is left or of
/// the direction (`Check`). `PivotLimit` comes exactly where the run has made `most` pivots and another one is to come,
/// `Wide` exactly where a number passes 126 bits before that, and `Memory` where memory runs out. `PivotLimit` never comes
/// where `most_bases` of the numbers of given rows and of columns that go is at most `most`.
#[tactic(auto, using(crate::proofs::Unlimited::shifted_unlimited))]
pub fn shift_in(
    alloc: Global,
    work: &mut Work<Wide126>,
    given: &Premises,
    term: &Row,
    most: u32,
    task: Task,
) -> Result<Shifted, Halt>
    requires columns { All (λ r. length r.c ≡ length term.now.c) given.now.rows }
    requires nominal { length given.now.nominal.p ≤ length term.now.c }
    requires few { length given.now.rows ≤ 4096 }
    requires short { length term.now.c ≤ 128 }
    requires room { HasRoom (length term.now.c - length given.now.nominal.p) (length given.now.rows) work.old }
    requires most { most ≤ 4096 }
    ensures room { KeepsRoom work.old work.new }
    ensures answer { IsAnswer Halt.Memory (spec.shifted_of given.now term.now most task) result }
    ensures truth { IfOk result (IsShifting given.now term.now) }
    ensures unlimited { HasFewBases (length given.now.rows) (length term.now.c - length given.now.nominal.p) most → IsNotLimited result }
{
    left_over(alloc, work, given, term, most, task)
}

// The rows as premises, with a work for one term.
fn prepared(
    alloc: Global,
    rows: &[Row],
    nominal: Point,
    columns: u32,
) -> Result<(Premises, Work<Wide126>), AllocError>
    requires columns { All (λ r. length r.c ≡ columns) rows.now }
    requires few { length rows.now ≤ 4096 }
    requires short { columns ≤ 128 }
    requires nominal { length nominal.p ≤ columns }
    ensures given { IfOk result (λ both. both.0 ≡ record { nominal = nominal; rows = rows.now }) }
    ensures room { IfOk result (λ both. HasRoom columns (length rows.now) both.1) }
{
    let Ok(copies) = copy_rows(alloc, rows) else {
        return Err(AllocError);
    };
    let work = Work::new(alloc, columns, rows.len() as u32)?;
    let given = Premises::new(alloc, nominal).with_rows(alloc, 0, copies)?;
    Ok((given, work))
}

/// The same over rows that are lent, in a work of its own.
pub fn shift(
    alloc: Global,
    term: &Row,
    rows: &[Row],
    nominal: &Point,
    most: u32,
    task: Task,
) -> Result<Shifted, Halt>
    requires columns { All (λ r. length r.c ≡ length term.now.c) rows.now }
    requires nominal { length nominal.now.p ≤ length term.now.c }
    requires few { length rows.now ≤ 4096 }
    requires short { length term.now.c ≤ 128 }
    requires most { most ≤ 4096 }
    ensures answer { IsAnswer Halt.Memory (spec.shifted_of (record { nominal = nominal.now; rows = rows.now }) term.now most task) result }
    ensures truth { IfOk result (IsShifting (record { nominal = nominal.now; rows = rows.now }) term.now) }
    ensures unlimited { HasFewBases (length rows.now) (length term.now.c - length nominal.now.p) most → IsNotLimited result }
{
    let Ok(nominal) = nominal.copy(alloc) else {
        return Err(Halt::Memory);
    };
    let Ok((given, mut work)) = prepared(alloc, rows, nominal, term.c.len() as u32) else {
        return Err(Halt::Memory);
    };
    shift_in(alloc, &mut work, &given, term, most, task)
}
