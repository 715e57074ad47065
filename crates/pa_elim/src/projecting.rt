// Several columns eliminated one after another.
ghost use Rattle.std.specs.Prelude.{◌≡◌, ◌≤◌, ◌+◌, [], All, Err, IfOk, length};
ghost use Rattle.pa_math.specs.Answers.{IsAnswer};
ghost use Rattle.pa_tableau.specs.Work.{HasRoom};
ghost use Rattle.pa_bland.specs.Seen.{KeepsRoom};
ghost use Rattle.pa_row.specs.declared.place.Place.{Place};
ghost use Rattle.pa_elim.specs.Projecting as spec;
ghost use Rattle.pa_elim.specs.Meant.{AreColumns, HoldsAsProjected, IsProjection};
ghost use Rattle.pa_elim.specs.FewBases.{HaveFewBases};
ghost use Rattle.pa_elim.specs.Seen.{AreFollowed, AreInTurn, CanStep, IsStart};

use crate::ElimFault;
use crate::step::{after_step, thinned, with_step};
use crate::turns::places_in_turn;
use pa_frac::Wide126;
use pa_row::{Limits, Row, Step};
use pa_tableau::Work;
use std::alloc::Global;
use std::marker::Model;

/// The rows that are left once columns are eliminated, and what was done.
#[derive(Drop)]
pub struct Projected {
    /// The rows, over the columns that are left, in their order.
    pub rows: Vec<Row>,
    /// The drops of the given rows, and then those of a step for each column that went, in the order in which they went. In
    /// each, the rows are numbered as they stand after the clean of that list.
    pub steps: Vec<Step>,
}

impl Model for Projected {
    ghost use Rattle.pa_elim.specs.Projecting.{Projection};

    ghost Value = { Projection };

    ghost view = { λ p. record { rows = p.rows.items; steps = p.steps.items } };
}

// How many rows a list of the elimination may have.
fn most_rows(rows: &[Row], limit: u32) -> u32
    requires few { length rows.now ≤ 4096 }
    requires limit { limit ≤ 4096 }
    ensures given { length rows.now ≤ result }
    ensures steps { limit ≤ result }
    ensures few { result ≤ 4096 }
{
    let given = rows.len() as u32;
    if given < limit { limit } else { given }
}

// The given rows without those that are needless, as step 0.
fn given_rows(
    alloc: Global,
    work: &mut Work<Wide126>,
    rows: &[Row],
    columns: u32,
    most: u32,
) -> Result<Projected, ElimFault>
    requires columns { All (λ r. length r.c ≡ columns) rows.now }
    requires few { length rows.now ≤ 4096 }
    requires short { columns ≤ 128 }
    requires room { HasRoom columns (length rows.now) work.old }
    requires most { most ≤ 4096 }
    ensures room { KeepsRoom work.old work.new }
    ensures answer { IsAnswer ElimFault.Memory (spec.start_of columns most rows.now) result }
    ensures start { IfOk result (IsStart columns rows.now) }
{
    let thinned = thinned(alloc, work, rows, columns, 0, most)?;
    with_step(Vec::new(alloc), thinned)
}

// What is left after a step for each of the columns, which stand at these places when their turns come.
fn after_steps(
    alloc: Global,
    work: &mut Work<Wide126>,
    start: Projected,
    columns: u32,
    places: &[u32],
    limits: Limits,
) -> Result<Projected, ElimFault>
    requires can { CanStep columns start }
    requires places { AreInTurn columns places.now }
    requires room { HasRoom columns limits.rows work.old }
    ensures room { KeepsRoom work.old work.new }
    ensures answer { IsAnswer ElimFault.Memory (spec.after_steps limits.rows limits.pivots columns 1 places.now start) result }
    ensures followed { IfOk result (AreFollowed limits.rows columns places.now start) }
{
    let mut projected = start;
    for i in 0..places.len() {
        let step = i as u32 + 1;
        let left = columns - i as u32;
        projected = match after_step(alloc, work, projected, left, step, places[i], limits) {
            Ok(next) => next,
            Err(fault) => return Err(fault),
        };
    }
    Ok(projected)
}

// The same from the given rows on, over one work.
fn from_given(
    alloc: Global,
    rows: &[Row],
    columns: u32,
    places: &[u32],
    limits: Limits,
) -> Result<Projected, ElimFault>
    requires columns { All (λ r. length r.c ≡ columns) rows.now }
    requires few { length rows.now ≤ 4096 }
    requires short { columns ≤ 128 }
    requires places { AreInTurn columns places.now }
    ensures answer { IsAnswer ElimFault.Memory (spec.projected_of limits.rows limits.pivots columns places.now rows.now) result }
    ensures printed { IfOk result (HoldsAsProjected limits.rows columns rows.now places.now) }
{
    let most = most_rows(rows, limits.rows);
    let Ok(mut work) = Work::new(alloc, columns, most) else {
        return Err(ElimFault::Memory);
    };
    let start = given_rows(alloc, &mut work, rows, columns, limits.pivots)?;
    after_steps(alloc, &mut work, start, columns, places, limits)
}

/// The rows without these columns, exactly: a point over the columns that are left meets the result where, and only where,
/// some extension of it in the columns that went meets the given rows (Fourier 1827, Motzkin 1936). The given rows are
/// thinned first, as `pa_farkas::thin` does. Then the columns go, one step for each, in the order in which they are named by
/// their places in the given rows. A step substitutes an equality of its column where the rows hold one, and else adds each
/// row that is positive there to each that is negative, as `pa_fourier::step_rows` does; its rows are thinned.
///
/// There are at most 4,096 rows, of this many columns, which are at most 128, and the columns that go are different ones of
/// them. `RowLimit` exactly where a step would make more rows than `limits.rows`, with the step and that number, before one
/// of its rows is made; the given rows are not counted. `PivotLimit` and `Wide` come with their place: the tasks are `Clean`
/// and `Filter` of the given rows, as step 0, and then `Pairs`, `Clean` and `Filter` of each step. The first refusal of this
/// order is answered. `Memory` where memory runs out.
///
/// `PivotLimit` never comes where neither the given rows over all columns, nor in any step as many rows as it can make over
/// the columns that are left, have more bases (`pa_bland::most_bases`) than `limits.pivots`. Of `r` rows a step can make `r`,
/// or a quarter of `r * r` where that is more, and at most `limits.rows`. By limits of 1,024 rows and 4,096 pivots that is so
/// for 8 rows over 4 columns, whichever go: they give 16 rows over 3, 64 over 2 and 1,024 over 1.
pub fn eliminate(
    alloc: Global,
    rows: &[Row],
    columns: u32,
    gone: &[u32],
    limits: Limits,
) -> Result<Projected, ElimFault>
    requires columns { All (λ r. length r.c ≡ columns) rows.now }
    requires few { length rows.now ≤ 4096 }
    requires short { columns ≤ 128 }
    requires gone { AreColumns columns gone.now }
    ensures answer { IsAnswer ElimFault.Memory (spec.eliminated_of limits.rows limits.pivots columns gone.now rows.now) result }
    ensures points { IfOk result (λ p. IsProjection gone.now rows.now p.rows) }
    ensures printed { IfOk result (HoldsAsProjected limits.rows columns rows.now (spec.in_turn gone.now)) }
    ensures columns { IfOk result (λ p. All (λ r. length r.c + length gone.now ≡ columns) p.rows) }
    ensures few { IfOk result (λ p. length p.rows ≤ 4096) }
    ensures steps { IfOk result (λ p. length p.steps ≡ length gone.now + 1) }
    ensures unlimited { HaveFewBases (length rows.now) columns (length gone.now) limits.rows limits.pivots
        → (place : Place) → result ≡ Err (ElimFault.PivotLimit place) → ⊥ }
{
    let Ok(places) = places_in_turn(alloc, gone) else {
        return Err(ElimFault::Memory);
    };
    from_given(alloc, rows, columns, &places, limits)
}
