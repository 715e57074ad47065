// Rows that are needless at sight.
ghost use Rattle.std.specs.Prelude.{◌≡◌, ◌<◌, ◌++◌, ◌∷◌, [], All, IfOk, Ok, false, length, map};
ghost use Rattle.std.specs.List.{list_any};
ghost use Rattle.pa_math.specs.Answers.{IsAnswer};
ghost use Rattle.pa_meaning.specs.Rows.{row_at};
ghost use Rattle.pa_witness.specs.Thinning as thinning;
ghost use Rattle.pa_meaning.specs.Weights as weights;
ghost use Rattle.pa_math.specs.Answers.{seen_as};
ghost use Rattle.pa_fourier.specs.Cleaning as spec;
ghost use Rattle.pa_fourier.specs.Bounds.{AreBounds, bound_at, fraction, stands_by};
ghost use Rattle.pa_fourier.specs.Chains.{AreLinked};
ghost use Rattle.pa_fourier.specs.Groups.{AreGroups};

use crate::CleanFault;
use crate::bound::bounds_of;
use crate::chain::Chains;
use crate::groups::groups_of;
use pa_frac::{Fraction, Wide, Wide126};
use pa_row::Row;
use std::alloc::{AllocError, Global};
use std::cmp::Ordering;

// Whether all coefficients are 0.
fn is_constant(row: &Row) -> bool
    ensures { result ≡ thinning.is_constant row.now }
{
    row.c.iter().all(|number| *number == 0)
}

// Whether no point meets the row at sight.
fn is_impossible(row: &Row) -> bool
    ensures { result ≡ thinning.is_impossible row.now }
{
    is_constant(row) && row.b < 0
}

fn has_impossible(rows: &[Row]) -> bool
    ensures { result ≡ list_any thinning.is_impossible rows.now }
{
    rows.iter().any(|row| is_impossible(row))
}

// Whether another row stands in for one whose bound compares so.
fn stands_in(is_earlier: bool, order: Ordering) -> bool
    ensures { result ≡ spec.stands_in is_earlier order }
{
    match order {
        Ordering::Less => false,
        Ordering::Equal => is_earlier,
        Ordering::Greater => true,
    }
}

// Whether a row at the other place, which is parallel to the one at the place, stands in for it.
fn replaces(bounds: &[Wide126], place: usize, other: usize) -> Result<bool, Wide>
    requires place { place < length bounds.now }
    requires other { other < length bounds.now }
    ensures { result ≡ stands_by place (bound_at (map fraction bounds.now) place) other (bound_at (map fraction bounds.now) other) }
{
    if other == place {
        return Ok(false);
    }
    let order = bounds[place].compare(bounds[other])?;
    Ok(stands_in(other < place, order))
}

// Whether another row stands in for the row at the place. Only the rows that are parallel to it are
// looked at, in order.
fn is_replaced(
    rows: &[Row],
    bounds: &[Wide126],
    chains: &Chains,
    place: usize,
) -> Result<bool, Wide>
    requires bounds { AreBounds rows.now (map fraction bounds.now) }
    requires groups { AreGroups rows.now chains.now.groups.items }
    requires linked { AreLinked chains.now.groups.items chains.now.heads.items chains.now.next.items 0 }
    requires place { place < length rows.now }
    requires solid { thinning.is_constant (row_at rows.now place) ≡ false }
    ensures { result ≡ spec.replaced_in place (row_at rows.now place) 0 rows.now }
{
    let mut other = chains.first(place);
    while other < rows.len() {
        match replaces(bounds, place, other) {
            Ok(true) => return Ok(true),
            Ok(false) => other = chains.after(other),
            Err(wide) => return Err(wide),
        }
    }
    Ok(false)
}

// The row that no point meets, over this many columns.
fn impossible(alloc: Global, columns: u32) -> Result<Row, AllocError>
    ensures { IfOk result (λ row. row ≡ weights.impossible columns) }
{
    let c = Vec::from_elem(alloc, 0, columns as usize)?;
    Ok(Row { c, b: -1 })
}

// The rows that stay so far, and a copy of one more.
fn with_copy(alloc: Global, mut kept: Vec<Row>, row: &Row) -> Result<Vec<Row>, CleanFault>
    ensures { IsAnswer CleanFault.Memory (Ok (kept.items ++ row.now ∷ [])) (seen_as (λ v. v.items) result) }
{
    let Ok(copy) = row.copy(alloc) else {
        return Err(CleanFault::Memory);
    };
    match kept.push(copy) {
        Ok(()) => Ok(kept),
        Err(_) => Err(CleanFault::Memory),
    }
}

// The rows that stay so far, and the row at the place, if it stays.
fn with_place(
    alloc: Global,
    kept: Vec<Row>,
    rows: &[Row],
    bounds: &[Wide126],
    chains: &Chains,
    place: usize,
) -> Result<Vec<Row>, CleanFault>
    requires bounds { AreBounds rows.now (map fraction bounds.now) }
    requires groups { AreGroups rows.now chains.now.groups.items }
    requires linked { AreLinked chains.now.groups.items chains.now.heads.items chains.now.next.items 0 }
    requires place { place < length rows.now }
    requires few { length rows.now < 4294967295 }
    ensures { IsAnswer CleanFault.Memory (spec.staying_in kept.items rows.now place (row_at rows.now place ∷ [])) (seen_as (λ v. v.items) result) }
{
    let row = &rows[place];
    if is_constant(row) {
        return Ok(kept);
    }
    match is_replaced(rows, bounds, chains, place) {
        Ok(true) => Ok(kept),
        Ok(false) => with_copy(alloc, kept, row),
        Err(_) => Err(CleanFault::Wide { row: place as u32 }),
    }
}

// The rows that stay where no row is impossible.
fn staying(alloc: Global, rows: &[Row]) -> Result<Vec<Row>, CleanFault>
    requires few { length rows.now < 4294967295 }
    ensures { IsAnswer CleanFault.Memory (spec.staying_in [] rows.now 0 rows.now) (seen_as (λ v. v.items) result) }
{
    let Ok(groups) = groups_of(alloc, rows) else {
        return Err(CleanFault::Memory);
    };
    let Ok(chains) = Chains::of(alloc, groups) else {
        return Err(CleanFault::Memory);
    };
    let Ok(bounds) = bounds_of(alloc, rows) else {
        return Err(CleanFault::Memory);
    };
    let Ok(mut kept) = Vec::with_capacity(alloc, rows.len()) else {
        return Err(CleanFault::Memory);
    };
    for place in 0..rows.len() {
        kept = with_place(alloc, kept, rows, &bounds, &chains, place)?;
    }
    Ok(kept)
}

/// The rows that are not needless at sight, in order: `0 <= -1` alone where some row has coefficients 0
/// and a negative bound, and else the rows with coefficients for which no other row stands in. Of
/// parallel rows, whose coefficients are positive multiples of each other, the one with the least bound
/// over the greatest common divisor of the coefficients stands in for the others, the first of equals.
/// The steps of an elimination bring such needless rows, and to leave them out keeps its lists short
/// (R. J. Duffin, On Fourier's Analysis of Linear Inequality Systems, 1974).
/// The same points meet the result. The rows have this many columns, and there are fewer than `2^32 - 1`.
/// `Wide` exactly where a comparison of two bounds reaches `2^126`, with the place of the first row that
/// has such a one; `Memory` where memory runs out.
pub fn clean(alloc: Global, rows: &[Row], columns: u32) -> Result<Vec<Row>, CleanFault>
    requires columns { All (λ r. length r.c ≡ columns) rows.now }
    requires few { length rows.now < 4294967295 }
    ensures answer { IsAnswer CleanFault.Memory (spec.clean_in columns rows.now) (seen_as (λ v. v.items) result) }
    ensures value { IfOk result (λ new. new.items ≡ thinning.cleaned columns rows.now) }
    ensures points { IfOk result (λ new. spec.AreMetAlike rows.now new.items) }
{
    if !has_impossible(rows) {
        return staying(alloc, rows);
    }
    let mut alone = Vec::new(alloc);
    let Ok(row) = impossible(alloc, columns) else {
        return Err(CleanFault::Memory);
    };
    match alone.push(row) {
        Ok(()) => Ok(alone),
        Err(_) => Err(CleanFault::Memory),
    }
}
