// A row and its negative, which together are an equality.
ghost use Rattle.std.specs.Prelude.{◌≡◌, ◌<◌, ◌≤◌, ◌<ℤ◌, All, IfOk, OnOk, Some, length, map, neg_ℤ, pos, if◌then◌else◌};
ghost use Rattle.indexmap.specs.IndexMap.{get};
ghost use Rattle.pa_meaning.specs.Rows.{Row as RowValue};
ghost use Rattle.pa_ring.specs.Sums.{number_at};
ghost use Rattle.pa_row.specs.Same.{same_row};
ghost use Rattle.pa_row.specs.Width.{Fits};
ghost use Rattle.pa_witness.specs.Equalities as spec;

use crate::number::number_in;
use indexmap::IndexMap;
use pa_row::Row;
use std::alloc::{AllocError, Global};

// The number times -1.
fn opposite(number: i128) -> i128
    requires { Fits number }
    ensures { result ≡ neg_ℤ number }
{
    -number
}

// Each number times -1.
fn negated(alloc: Global, numbers: &[i128]) -> Result<Vec<i128>, AllocError>
    requires { All Fits numbers.now }
    ensures { IfOk result (λ negatives. negatives.items ≡ map neg_ℤ numbers.now) }
{
    let mut negatives = Vec::with_capacity(alloc, numbers.len())?;
    for i in 0..numbers.len() {
        negatives.push_reserved(opposite(numbers[i]));
    }
    Ok(negatives)
}

// The row times -1.
fn negative(alloc: Global, row: &Row) -> Result<Row, AllocError>
    ensures { IfOk result (λ found. found ≡ spec.negative row.now) }
{
    let c = negated(alloc, &row.c)?;
    let b = opposite(row.b);
    Ok(Row { c, b })
}

// The place is put at the row's negative, in the stead of one that is there.
fn put_opposite(
    alloc: Global,
    places: &mut IndexMap<Row, u32>,
    row: &Row,
    place: u32,
) -> Result<(), AllocError>
    ensures { OnOk result ((q : RowValue) → get same_row places.new q ≡ (if spec.is_opposite q row.now then Some place else get same_row places.old q)) }
{
    let opposite = negative(alloc, row)?;
    places.insert(opposite, place)?;
    Ok(())
}

// At each row that is positive in the column, the place of the first row that is its negative.
fn opposites_of(alloc: Global, rows: &[Row], column: u32) -> Result<IndexMap<Row, u32>, AllocError>
    requires column { All (λ r. column < length r.c) rows.now }
    requires few { length rows.now ≤ 4096 }
    ensures { IfOk result (λ places. (q : RowValue) → pos 0 <ℤ number_at q.c column → get same_row places q ≡ spec.opposite_of rows.now q) }
{
    let mut places = IndexMap::new(alloc);
    let mut place = rows.len();
    while place > 0 {
        place -= 1;
        let row = &rows[place];
        if number_in(row, column) < 0 {
            put_opposite(alloc, &mut places, row, place as u32)?;
        }
    }
    Ok(places)
}

/// The places of the first row that is positive in the column and has its negative among the rows,
/// and of the first such negative. Each row is looked up once by its numbers. There are at most 4,096
/// rows, of equally many columns.
#[tactic(auto, using(crate::proofs::Turns::equality_turn))]
pub fn equality_of(
    alloc: Global,
    rows: &[Row],
    columns: u32,
    column: u32,
) -> Result<Option<(u32, u32)>, AllocError>
    requires columns { All (λ r. length r.c ≡ columns) rows.now }
    requires column { column < columns }
    requires few { length rows.now ≤ 4096 }
    ensures { IfOk result (λ found. found ≡ spec.equality_of column rows.now) }
{
    let opposites = opposites_of(alloc, rows, column)?;
    for place in 0..rows.len() {
        let row = &rows[place];
        if number_in(row, column) > 0 {
            if let Some(opposite) = opposites.get(row) {
                return Ok(Some((place as u32, *opposite)));
            }
        }
    }
    Ok(None)
}
