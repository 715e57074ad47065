// One step of an elimination.
ghost use Rattle.std.specs.Prelude.{◌≡◌, ◌<◌, ◌≤◌, ◌+◌, ◌*◌, ◌++◌, ◌∷◌, [], ◌<ℤ◌, ◌⊎◌, All, IfOk, IfErr, Ok, length, map, flat_map, filter, int_lt, not, pos};
ghost use Rattle.pa_ring.specs.Sums.{number_at};
ghost use Rattle.pa_math.specs.Answers.{IsAnswer, given};
ghost use Rattle.pa_witness.specs.Elimination.{negatives_at, positives_at};
ghost use Rattle.pa_meaning.specs.Rows.{without_column};
ghost use Rattle.pa_meaning.specs.Rows.{row_at};
ghost use Rattle.pa_math.specs.Answers.{seen_as};
ghost use Rattle.pa_witness.specs.Steps as spec;
ghost use Rattle.pa_fourier.specs.Versions.{version_of};
ghost use Rattle.pa_witness.specs.Steps.{IsElimination, stepped, kept_at, others_at};
ghost use Rattle.pa_fourier.specs.StepFaults.{made_with, step_in, cancelled_without, pairs_with, pairs_due, substituted_without, substituted_due, substituted_one};
ghost use Rattle.pa_witness.specs.Thinning.{is_place_of};

use crate::equality::equality_of;
use crate::number::{number_in, remove_column};
use crate::{StepFault, Version};
use pa_row::{Row, RowFault, cancel};
use std::alloc::{AllocError, Global};

// How many rows are positive in the column, and how many negative.
#[tactic(auto, using(crate::proofs::Turns::signs_turn))]
fn count_signs(rows: &[Row], column: u32) -> (u32, u32)
    requires column { All (λ r. column < length r.c) rows.now }
    requires few { length rows.now ≤ 4096 }
    ensures positives { result.0 ≡ length (positives_at column rows.now) }
    ensures negatives { result.1 ≡ length (negatives_at column rows.now) }
    ensures few { result.0 + result.1 ≤ length rows.now }
{
    let mut positives: u32 = 0;
    let mut negatives: u32 = 0;
    for row in rows {
        let number = number_in(row, column);
        if number > 0 {
            positives += 1;
        } else if number < 0 {
            negatives += 1;
        }
    }
    (positives, negatives)
}

// The places of the equality that a step substitutes.
fn equality_in(
    alloc: Global,
    rows: &[Row],
    columns: u32,
    column: u32,
    version: Version,
) -> Result<Option<(u32, u32)>, AllocError>
    requires columns { All (λ r. length r.c ≡ columns) rows.now }
    requires column { column < columns }
    requires few { length rows.now ≤ 4096 }
    ensures { IfOk result (λ found. found ≡ spec.equality_in (version_of version) column rows.now) }
{
    match version {
        Version::One => Ok(None),
        Version::Two => equality_of(alloc, rows, columns, column),
    }
}

/// How many rows `step_rows` makes of these rows, without making one. There are at most 4,096 rows,
/// of equally many columns. Memory is taken for the search of an equality alone.
pub fn step_count(
    alloc: Global,
    rows: &[Row],
    columns: u32,
    column: u32,
    version: Version,
) -> Result<u32, AllocError>
    requires columns { All (λ r. length r.c ≡ columns) rows.now }
    requires column { column < columns }
    requires few { length rows.now ≤ 4096 }
    ensures { IfOk result (λ count. count ≡ length (stepped (version_of version) column rows.now)) }
{
    match equality_in(alloc, rows, columns, column, version)? {
        Some(_) => Ok(rows.len() as u32 - 2),
        None => {
            let (positives, negatives) = count_signs(rows, column);
            Ok(rows.len() as u32 - positives - negatives + positives * negatives)
        }
    }
}

// The rows that are made, with one more, of which the column is taken out.
fn with_row(mut made: Vec<Row>, mut row: Row, column: u32) -> Result<Vec<Row>, StepFault>
    requires { column < length row.c }
    ensures { IsAnswer StepFault.Memory (Ok (made.items ++ without_column column row ∷ [])) (seen_as (λ v. v.items) result) }
{
    remove_column(&mut row, column);
    match made.push(row) {
        Ok(()) => Ok(made),
        Err(_) => Err(StepFault::Memory),
    }
}

// The rows that are made, and then those with 0 in the column.
fn with_kept(
    alloc: Global,
    mut made: Vec<Row>,
    rows: &[Row],
    column: u32,
) -> Result<Vec<Row>, StepFault>
    requires column { All (λ r. column < length r.c) rows.now }
    ensures answer { IsAnswer StepFault.Memory (Ok (made.items ++ kept_at column rows.now)) (seen_as (λ v. v.items) result) }
    ensures few { IfOk result (λ all. length all.items ≤ length made.items + length rows.now) }
{
    for row in rows {
        if number_in(row, column) == 0 {
            let Ok(copy) = row.copy(alloc) else {
                return Err(StepFault::Memory);
            };
            made = with_row(made, copy, column)?;
        }
    }
    Ok(made)
}

// The rows that are made, and then the sum of two rows of other signs in the column.
fn with_cancelled(
    alloc: Global,
    made: Vec<Row>,
    p: &Row,
    n: &Row,
    column: u32,
) -> Result<Vec<Row>, StepFault>
    requires columns { length p.now.c ≡ length n.now.c }
    requires column { column < length p.now.c }
    requires positive { pos 0 <ℤ number_at p.now.c column }
    requires negative { number_at n.now.c column <ℤ pos 0 }
    requires few { length made.items < 4294967296 }
    ensures answer { IsAnswer StepFault.Memory (made_with made.items (cancelled_without column p.now n.now ∷ [])) (seen_as (λ v. v.items) result) }
    ensures few { IfOk result (λ all. length all.items ≤ length made.items + 1) }
{
    match cancel(alloc, p, n, column) {
        Ok(row) => with_row(made, row, column),
        Err(RowFault::Memory) => Err(StepFault::Memory),
        Err(RowFault::Wide) => Err(StepFault::Wide {
            row: made.len() as u32,
        }),
    }
}

// The rows that are made, and then the sums of a row with each that is negative in the column.
fn with_pairs(
    alloc: Global,
    mut made: Vec<Row>,
    p: &Row,
    rows: &[Row],
    column: u32,
) -> Result<Vec<Row>, StepFault>
    requires columns { All (λ r. length r.c ≡ length p.now.c) rows.now }
    requires column { column < length p.now.c }
    requires positive { pos 0 <ℤ number_at p.now.c column }
    requires few { length made.items + length rows.now < 4294967296 }
    ensures answer { IsAnswer StepFault.Memory (made_with made.items (pairs_with column rows.now p.now)) (seen_as (λ v. v.items) result) }
    ensures few { IfOk result (λ all. length all.items ≤ length made.items + length rows.now) }
{
    for n in rows {
        if number_in(n, column) < 0 {
            made = with_cancelled(alloc, made, p, n, column)?;
        }
    }
    Ok(made)
}

// The rows that are made, and then the sums of all pairs.
fn with_all_pairs(
    alloc: Global,
    mut made: Vec<Row>,
    rows: &[Row],
    columns: u32,
    column: u32,
) -> Result<Vec<Row>, StepFault>
    requires columns { All (λ r. length r.c ≡ columns) rows.now }
    requires column { column < columns }
    requires few { length rows.now ≤ 4096 }
    requires made { length made.items ≤ 4096 }
    ensures { IsAnswer StepFault.Memory (made_with made.items (pairs_due column rows.now)) (seen_as (λ v. v.items) result) }
{
    for p in rows {
        if number_in(p, column) > 0 {
            made = with_pairs(alloc, made, p, rows, column)?;
        }
    }
    Ok(made)
}

// The rows that are made, and then the sum of a row with that one of an equality that has the other sign
// in the column. A row with 0 there adds nothing.
fn with_next(
    alloc: Global,
    made: Vec<Row>,
    row: &Row,
    p: &Row,
    n: &Row,
    column: u32,
) -> Result<Vec<Row>, StepFault>
    requires row_columns { length row.now.c ≡ length p.now.c }
    requires columns { length n.now.c ≡ length p.now.c }
    requires column { column < length p.now.c }
    requires positive { pos 0 <ℤ number_at p.now.c column }
    requires negative { number_at n.now.c column <ℤ pos 0 }
    requires few { length made.items < 4294967296 }
    ensures answer { IsAnswer StepFault.Memory (made_with made.items (substituted_one column p.now n.now row.now)) (seen_as (λ v. v.items) result) }
    ensures few { IfOk result (λ all. length all.items ≤ length made.items + 1) }
{
    let number = number_in(row, column);
    if number > 0 {
        return with_cancelled(alloc, made, row, n, column);
    }
    if number < 0 {
        return with_cancelled(alloc, made, p, row, column);
    }
    Ok(made)
}

// Whether the place is neither of the two.
fn is_other(place: usize, positive: u32, negative: u32) -> bool
    ensures { result ≡ not (is_place_of (positive ∷ negative ∷ []) place) }
{
    place != positive as usize && place != negative as usize
}

// The rows that are made, and then the rows at other places than the equality's, into which it is
// substituted.
fn with_substituted(
    alloc: Global,
    mut made: Vec<Row>,
    rows: &[Row],
    p: &Row,
    n: &Row,
    positive: u32,
    negative: u32,
    column: u32,
) -> Result<Vec<Row>, StepFault>
    requires few { length made.items + length rows.now < 4294967296 }
    requires columns { All (λ r. length r.c ≡ length p.now.c) rows.now }
    requires negative_columns { length n.now.c ≡ length p.now.c }
    requires column { column < length p.now.c }
    requires positive { pos 0 <ℤ number_at p.now.c column }
    requires negative { number_at n.now.c column <ℤ pos 0 }
    ensures { IsAnswer StepFault.Memory (made_with made.items (map (substituted_without column p.now n.now) (others_at column positive negative rows.now))) (seen_as (λ v. v.items) result) }
{
    for place in 0..rows.len() {
        if is_other(place, positive, negative) {
            made = with_next(alloc, made, &rows[place], p, n, column)?;
        }
    }
    Ok(made)
}

// The rows of one step.
fn made_rows(
    alloc: Global,
    rows: &[Row],
    columns: u32,
    column: u32,
    version: Version,
) -> Result<Vec<Row>, StepFault>
    requires columns { All (λ r. length r.c ≡ columns) rows.now }
    requires column { column < columns }
    requires few { length rows.now ≤ 4096 }
    ensures { IsAnswer StepFault.Memory (step_in (version_of version) column rows.now) (seen_as (λ v. v.items) result) }
{
    let Ok(equality) = equality_in(alloc, rows, columns, column, version) else {
        return Err(StepFault::Memory);
    };
    let kept = with_kept(alloc, Vec::new(alloc), rows, column)?;
    match equality {
        Some((positive, negative)) => {
            let p = &rows[positive as usize];
            let n = &rows[negative as usize];
            with_substituted(alloc, kept, rows, p, n, positive, negative, column)
        }
        None => with_all_pairs(alloc, kept, rows, columns, column),
    }
}

/// The rows of one step of an elimination, without the column: those with 0 there, in order, and then
/// those that the version's rule makes (Fourier 1827, Motzkin 1936). A point meets them exactly where
/// some extension of it in the column meets the given rows. There are at most 4,096 rows, of equally
/// many columns. `Wide` exactly where a product or a sum of a new row reaches `2^126`, with the
/// number of the first such row; `Memory` where memory runs out.
pub fn step_rows(
    alloc: Global,
    rows: &[Row],
    columns: u32,
    column: u32,
    version: Version,
) -> Result<Vec<Row>, StepFault>
    requires columns { All (λ r. length r.c ≡ columns) rows.now }
    requires column { column < columns }
    requires few { length rows.now ≤ 4096 }
    ensures answer { IsAnswer StepFault.Memory (step_in (version_of version) column rows.now) (seen_as (λ v. v.items) result) }
    ensures value { IfOk result (λ new. new.items ≡ stepped (version_of version) column rows.now) }
    ensures columns { IfOk result (λ new. All (λ r. length r.c + 1 ≡ columns) new.items) }
    ensures points { IfOk result (λ new. IsElimination column rows.now new.items) }
{
    made_rows(alloc, rows, columns, column, version)
}
