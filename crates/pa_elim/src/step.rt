// One step of an elimination: its rows, if they are not too many, without those that are needless.
ghost use Rattle.std.specs.Prelude.{◌≡◌, ◌≤◌, ◌<◌, ◌+◌, ◌++◌, ◌∷◌, [], All, IfOk, Ok, length, pred};
ghost use Rattle.pa_math.specs.Answers.{IsAnswer, seen_as};
ghost use Rattle.pa_tableau.specs.Work.{HasRoom};
ghost use Rattle.pa_bland.specs.Seen.{KeepsRoom};
ghost use Rattle.pa_farkas.specs.Alternatives.{IsThinning};
ghost use Rattle.pa_witness.specs.Steps.{Two, stepped, step_count as count_of};
ghost use Rattle.pa_elim.specs.Projecting as spec;
ghost use Rattle.pa_elim.specs.Seen.{IsNext};

use crate::fault::{elim_fault, pairs_fault};
use crate::{ElimFault, Projected};
use pa_farkas::{Thinned, thin_in};
use pa_fourier::{Version, step_count, step_rows};
use pa_frac::Wide126;
use pa_row::{Group, Limits, Row, Step};
use pa_tableau::Work;
use std::alloc::Global;

// The rows of a step, whose number is compared with the limit before any row is made.
fn made(
    alloc: Global,
    rows: &[Row],
    columns: u32,
    step: u32,
    column: u32,
    limit: u32,
) -> Result<Vec<Row>, ElimFault>
    requires columns { All (λ r. length r.c ≡ columns) rows.now }
    requires column { column < columns }
    requires few { length rows.now ≤ 4096 }
    ensures answer { IsAnswer ElimFault.Memory (spec.made_in limit step column rows.now) (seen_as (λ v. v.items) result) }
    ensures value { IfOk result (λ new. new.items ≡ stepped Two column rows.now) }
    ensures within { IfOk result (λ new. count_of Two column rows.now ≤ limit) }
    ensures columns { IfOk result (λ new. All (λ r. length r.c ≡ pred columns) new.items) }
{
    let Ok(count) = step_count(alloc, rows, columns, column, Version::Two) else {
        return Err(ElimFault::Memory);
    };
    if count > limit {
        return Err(ElimFault::RowLimit {
            step,
            count: u64::from(count),
        });
    }
    match step_rows(alloc, rows, columns, column, Version::Two) {
        Ok(new) => Ok(new),
        Err(fault) => Err(pairs_fault(step, fault)),
    }
}

/// The rows of a step without those that are needless. Rows of step 0 are the given ones.
pub(crate) fn thinned(
    alloc: Global,
    work: &mut Work<Wide126>,
    rows: &[Row],
    columns: u32,
    step: u32,
    most: u32,
) -> Result<Thinned, ElimFault>
    requires columns { All (λ r. length r.c ≡ columns) rows.now }
    requires few { length rows.now ≤ 4096 }
    requires short { columns ≤ 128 }
    requires room { HasRoom columns (length rows.now) work.old }
    requires most { most ≤ 4096 }
    ensures room { KeepsRoom work.old work.new }
    ensures answer { IsAnswer ElimFault.Memory (spec.thinned_in columns most step rows.now) result }
    ensures truth { IfOk result (IsThinning columns rows.now []) }
{
    match thin_in(alloc, work, rows, &[], columns, most, Group::Step(step)) {
        Ok(thinned) => Ok(thinned),
        Err(halt) => Err(elim_fault(halt)),
    }
}

/// The steps so far and one more, with the rows that it leaves.
pub(crate) fn with_step(mut steps: Vec<Step>, thinned: Thinned) -> Result<Projected, ElimFault>
    ensures { IsAnswer ElimFault.Memory (Ok (spec.with_step steps.items thinned)) result }
{
    let Thinned { rows, drops } = thinned;
    match steps.push(Step { drops }) {
        Ok(()) => Ok(Projected { rows, steps }),
        Err(_) => Err(ElimFault::Memory),
    }
}

/// What is left after one step more: this column goes, and `columns` are left with it.
pub(crate) fn after_step(
    alloc: Global,
    work: &mut Work<Wide126>,
    projected: Projected,
    columns: u32,
    step: u32,
    column: u32,
    limits: Limits,
) -> Result<Projected, ElimFault>
    requires columns { All (λ r. length r.c ≡ columns) projected.rows }
    requires column { column < columns }
    requires few { length projected.rows ≤ 4096 }
    requires short { columns ≤ 128 }
    requires room { HasRoom columns limits.rows work.old }
    ensures room { KeepsRoom work.old work.new }
    ensures answer { IsAnswer ElimFault.Memory (spec.after_step limits.rows limits.pivots columns step column projected) result }
    ensures next { IfOk result (IsNext limits.rows columns column projected) }
{
    let Projected { rows, steps } = projected;
    let new = made(alloc, &rows, columns, step, column, limits.rows)?;
    let thinned = thinned(alloc, work, &new, columns - 1, step, limits.pivots)?;
    with_step(steps, thinned)
}
