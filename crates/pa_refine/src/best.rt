// The best value of a goal over rows.
ghost use Rattle.std.specs.Prelude.{◌≡◌, ◌≤◌, ◌<ℤ◌, IfOk, length, pos};
ghost use Rattle.pa_math.specs.Answers.{IsAnswer, told_as};
ghost use Rattle.pa_tableau.specs.Work.{HasRoom};
ghost use Rattle.pa_bland.specs.Answered.{Shows};
ghost use Rattle.pa_bland.specs.declared.answer.Answer.TheVariants as Answer;
ghost use Rattle.pa_replay.specs.Shown.{ShowsLeast, ShowsNoWeights};
ghost use Rattle.pa_farkas.specs.Alternatives.{IsMetAt, ShowsUnmet};
ghost use Rattle.pa_farkas.specs.Seen.{IsPointOf};
ghost use Rattle.pa_row.specs.Answers.{as_fault};
ghost use Rattle.pa_row.specs.Fractions.{point_in};
ghost use Rattle.pa_row.specs.declared.fault.RowFault.TheVariants as RowFault;
ghost use Rattle.pa_row.specs.declared.place.Halt.TheVariants as Halt;
ghost use Rattle.pa_refine.specs.Bounding as spec;
ghost use Rattle.pa_refine.specs.Seen.{CanAsk, IsBest, IsGoalValue, IsValueRead, ShowsValue};

use crate::Bounded;
use crate::value::{numbers_of, value_of};
use pa_bland::{Answer, Direction, EndlessAnswer, LeastAnswer};
use pa_check::{Value, improves, meets_all, point_has_value, shows_nothing, weights_bound};
use pa_farkas::{Feasibility, feasible_in, read_halt, solved, wide_in};
use pa_frac::{Wide, Wide126};
use pa_row::{Halt, Point, Row, RowFault, Spot, Sub, Task, Weights, point_of};
use pa_tableau::Work;
use std::alloc::Global;
use std::marker::Model;

/// A goal over the columns of rows, with its constant and its denominator, and whether its least value is sought, else its
/// greatest.
#[derive(Drop)]
pub(crate) struct Asked {
    pub(crate) rows: Vec<Row>,
    pub(crate) goals: Vec<i128>,
    pub(crate) b: i128,
    pub(crate) q: i128,
    pub(crate) least: bool,
}

impl Model for Asked {
    ghost use Rattle.pa_refine.specs.Bounding.{Asked as AskedValue};

    ghost Value = { AskedValue };

    ghost view = { λ a. record { rows = a.rows.items; goals = a.goals.items; b = a.b; q = a.q; least = a.least } };
}

// The sums that test the value's weights and its point, in their order.
fn value_tested(asked: &Asked, num: i128, den: i128, w: &Weights, at: &Point) -> Result<bool, Wide>
    requires can { CanAsk asked.now }
    requires columns { length at.now.p ≡ length asked.now.goals }
    ensures { result ≡ spec.value_tested asked.now num den w.now at.now }
{
    let value = Value {
        b: asked.b,
        q: asked.q,
        num,
        den,
    };
    let _bounded = weights_bound(&asked.rows, &asked.goals, asked.least, value, w)?;
    let _met = meets_all(&asked.rows, at)?;
    point_has_value(&asked.goals, value, at)
}

// The value with its weights and its point, checked.
fn value_checked(
    asked: &Asked,
    num: i128,
    den: i128,
    weights: Weights,
    at: Point,
) -> Result<Bounded, Halt>
    requires can { CanAsk asked.now }
    requires shown { ShowsValue asked.now num den weights at }
    ensures exact { result ≡ spec.value_checked asked.now num den weights at }
    ensures shown { IfOk result (IsBest asked.now) }
{
    match value_tested(asked, num, den, &weights, &at) {
        Ok(_) => Ok(Bounded::Value {
            num,
            den,
            weights,
            at,
        }),
        Err(_) => Err(wide_in(Task::Goal, Sub::Main, Spot::Check)),
    }
}

// The same of what is read.
fn value_answer(
    asked: &Asked,
    read: ((i128, i128), Point),
    weights: Weights,
) -> Result<Bounded, Halt>
    requires can { CanAsk asked.now }
    requires shown { ShowsValue asked.now read.0.0 read.0.1 weights read.1 }
    ensures exact { result ≡ spec.value_checked asked.now read.0.0 read.0.1 weights read.1 }
    ensures shown { IfOk result (IsBest asked.now) }
{
    let ((num, den), at) = read;
    value_checked(asked, num, den, weights, at)
}

// The numbers of the value.
fn value_numbers(asked: &Asked, least: &LeastAnswer) -> Result<(i128, i128), Wide>
    requires can { CanAsk asked.now }
    ensures { result ≡ spec.value_numbers asked.now least.now }
{
    let Ok(value) = value_of(asked.least, asked.b, asked.q, least) else {
        return Err(Wide);
    };
    Ok(numbers_of(value))
}

// The same, with what they mean.
fn goal_value(asked: &Asked, least: &LeastAnswer) -> Result<(i128, i128), Wide>
    requires can { CanAsk asked.now }
    requires positive { pos 0 <ℤ least.now.value.1 }
    ensures exact { result ≡ spec.value_numbers asked.now least.now }
    ensures meaning { IfOk result (IsGoalValue asked.now least.now) }
{
    value_numbers(asked, least)
}

// The point of the least end.
fn least_point(alloc: Global, least: &LeastAnswer) -> Result<Point, RowFault>
    ensures exact { IsAnswer RowFault.Memory (told_as as_fault (point_in least.now.point)) result }
    ensures meaning { IfOk result (IsPointOf least.now) }
{
    point_of(alloc, &least.point)
}

// The numbers of the value, and then the point.
fn value_read(
    alloc: Global,
    asked: &Asked,
    least: &LeastAnswer,
) -> Result<((i128, i128), Point), RowFault>
    requires can { CanAsk asked.now }
    requires positive { pos 0 <ℤ least.now.value.1 }
    ensures exact { IsAnswer RowFault.Memory (told_as as_fault (spec.value_read asked.now least.now)) result }
    ensures meaning { IfOk result (IsValueRead asked.now least.now) }
{
    let Ok(value) = goal_value(asked, least) else {
        return Err(RowFault::Wide);
    };
    let at = least_point(alloc, least)?;
    Ok((value, at))
}

// The answer where the target has a least value.
fn by_least(alloc: Global, asked: &Asked, least: LeastAnswer) -> Result<Bounded, Halt>
    requires can { CanAsk asked.now }
    requires shown { ShowsLeast (record { rows = asked.now.rows; target = spec.target_of asked.now.least asked.now.goals }) least }
    ensures exact { IsAnswer Halt.Memory (spec.by_least asked.now least) result }
    ensures shown { IfOk result (IsBest asked.now) }
{
    match value_read(alloc, asked, &least) {
        Ok(read) => value_answer(asked, read, least.weights),
        Err(fault) => Err(read_halt(Task::Goal, Sub::Main, fault)),
    }
}

// The answer where the ray shows that no point meets the rows, checked.
fn nothing(alloc: Global, asked: &Asked, columns: u32, weights: Weights) -> Result<Bounded, Halt>
    requires can { CanAsk asked.now }
    requires columns { columns ≡ length asked.now.goals }
    requires shown { ShowsUnmet columns asked.now.rows weights }
    ensures exact { IsAnswer Halt.Memory (spec.nothing_checked asked.now weights) result }
    ensures shown { IfOk result (IsBest asked.now) }
{
    match shows_nothing(alloc, &asked.rows, &weights, columns) {
        Ok(_) => Ok(Bounded::Nothing { weights }),
        Err(RowFault::Memory) => Err(Halt::Memory),
        Err(RowFault::Wide) => Err(wide_in(Task::Goal, Sub::Main, Spot::Check)),
    }
}

// The answer by a point and a direction, checked.
#[tactic(auto, using(crate::proofs::Values::direction_columns, crate::proofs::Values::direction_shown))]
fn unbounded(asked: &Asked, at: Point, direction: Direction) -> Result<Bounded, Halt>
    requires can { CanAsk asked.now }
    requires met { IsMetAt (length asked.now.goals) asked.now.rows at }
    requires stuck { ShowsNoWeights (record { rows = asked.now.rows; target = spec.target_of asked.now.least asked.now.goals }) direction }
    ensures exact { result ≡ spec.unbounded_checked asked.now at direction }
    ensures shown { IfOk result (IsBest asked.now) }
{
    match improves(&asked.rows, &asked.goals, asked.least, &direction.numbers) {
        Ok(_) => Ok(Bounded::Unbounded { at, direction }),
        Err(_) => Err(wide_in(Task::Goal, Sub::Base, Spot::Check)),
    }
}

// The answer where no weights make the target: by a point, or where there is none by weights.
fn by_base(
    alloc: Global,
    work: &mut Work<Wide126>,
    asked: &Asked,
    columns: u32,
    most: u32,
    direction: Direction,
) -> Result<Bounded, Halt>
    requires can { CanAsk asked.now }
    requires columns { columns ≡ length asked.now.goals }
    requires room { HasRoom columns (length asked.now.rows) work.old }
    requires most { most ≤ 4096 }
    requires stuck { ShowsNoWeights (record { rows = asked.now.rows; target = spec.target_of asked.now.least asked.now.goals }) direction }
    ensures exact { IsAnswer Halt.Memory (spec.by_base asked.now most direction) result }
    ensures shown { IfOk result (IsBest asked.now) }
{
    match feasible_in(alloc, work, &asked.rows, columns, most, Task::Goal) {
        Ok(Feasibility::Point(at)) => unbounded(asked, at, direction),
        Ok(Feasibility::Empty(weights)) => Ok(Bounded::Nothing { weights }),
        Err(halt) => Err(halt),
    }
}

// The answer by that of the target's problem.
fn by_answer(
    alloc: Global,
    work: &mut Work<Wide126>,
    asked: &Asked,
    columns: u32,
    most: u32,
    answer: Answer,
) -> Result<Bounded, Halt>
    requires can { CanAsk asked.now }
    requires columns { columns ≡ length asked.now.goals }
    requires room { HasRoom columns (length asked.now.rows) work.old }
    requires most { most ≤ 4096 }
    requires shown { Shows (record { rows = asked.now.rows; target = spec.target_of asked.now.least asked.now.goals }) answer }
    ensures exact { IsAnswer Halt.Memory (spec.by_answer asked.now most answer) result }
    ensures shown { IfOk result (IsBest asked.now) }
{
    match answer {
        Answer::Least(least) => by_least(alloc, asked, least),
        Answer::Endless(endless) => by_ray(alloc, asked, columns, endless),
        Answer::NoWeights(direction) => by_base(alloc, work, asked, columns, most, direction),
    }
}

// The answer by a ray.
#[tactic(auto, using(crate::proofs::Values::ray_unmet))]
fn by_ray(
    alloc: Global,
    asked: &Asked,
    columns: u32,
    endless: EndlessAnswer,
) -> Result<Bounded, Halt>
    requires can { CanAsk asked.now }
    requires columns { columns ≡ length asked.now.goals }
    requires shown { Shows (record { rows = asked.now.rows; target = spec.target_of asked.now.least asked.now.goals }) (Answer.Endless endless) }
    ensures exact { IsAnswer Halt.Memory (spec.nothing_checked asked.now endless.ray) result }
    ensures shown { IfOk result (IsBest asked.now) }
{
    nothing(alloc, asked, columns, endless.ray)
}

/// The best value of the goal over its rows, where `target` is what weights have to make.
#[tactic(auto, using(crate::proofs::Values::target_posed))]
pub(crate) fn best(
    alloc: Global,
    asked: &Asked,
    target: &[i128],
    most: u32,
) -> Result<Bounded, Halt>
    requires can { CanAsk asked.now }
    requires target { target.now ≡ spec.target_of asked.now.least asked.now.goals }
    requires most { most ≤ 4096 }
    ensures exact { IsAnswer Halt.Memory (spec.best_of asked.now most) result }
    ensures shown { IfOk result (IsBest asked.now) }
{
    let columns = asked.goals.len() as u32;
    let Ok(mut work) = Work::new(alloc, columns, asked.rows.len() as u32) else {
        return Err(Halt::Memory);
    };
    let answer = solved(
        alloc,
        &mut work,
        &asked.rows,
        target,
        most,
        Task::Goal,
        Sub::Main,
    )?;
    by_answer(alloc, &mut work, asked, columns, most, answer)
}
