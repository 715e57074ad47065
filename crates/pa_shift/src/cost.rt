// What rows cost at a nominal point.
ghost use Rattle.std.specs.Prelude.{◌≡◌, ◌≤◌, All, length};
ghost use Rattle.pa_math.specs.Answers.{IsAnswer, seen_as, told_as};
ghost use Rattle.pa_row.specs.Answers.{as_fault};
ghost use Rattle.pa_row.specs.Width.{Fits};
ghost use Rattle.pa_row.specs.declared.fault.RowFault.TheVariants as RowFault;
ghost use Rattle.pa_shift.specs.Shifting as spec;

use pa_row::{Point, Row, RowFault, slack};
use std::alloc::Global;

/// The numbers of the columns behind those of the nominal point.
pub(crate) fn behind<'a>(row: &'a Row, nominal: &Point) -> &'a [i128]
    requires { length nominal.now.p ≤ length row.now.c }
    ensures value { result.now ≡ spec.target_of nominal.now row.now }
    ensures narrow { All Fits result.now }
{
    &row.c[nominal.p.len()..]
}

/// Whether all numbers are 0.
pub(crate) fn are_zero(numbers: &[i128]) -> bool
    ensures { result ≡ spec.are_zero numbers.now }
{
    numbers.iter().all(|number| *number == 0)
}

// The row over the columns behind those of the nominal point, with its slack there as its bound.
fn costed(alloc: Global, row: &Row, nominal: &Point) -> Result<Row, RowFault>
    requires { length nominal.now.p ≤ length row.now.c }
    ensures { IsAnswer RowFault.Memory (told_as as_fault (spec.costed_row nominal.now row.now)) result }
{
    let Ok(b) = slack(nominal.q, row.b, &row.c, &nominal.p) else {
        return Err(RowFault::Wide);
    };
    match Vec::from_slice(alloc, behind(row, nominal)) {
        Ok(c) => Ok(Row { c, b }),
        Err(_) => Err(RowFault::Memory),
    }
}

/// The rows over the columns behind those of the nominal point, each with its slack there as its bound. `Wide` exactly
/// where a product or a running difference of a slack reaches `2^126`.
#[tactic(auto, using(crate::proofs::Turns::costed_turn, crate::proofs::Turns::costed_refused, crate::proofs::Turns::costed_end))]
pub(crate) fn costed_rows(
    alloc: Global,
    rows: &[Row],
    nominal: &Point,
) -> Result<Vec<Row>, RowFault>
    requires { All (λ r. length nominal.now.p ≤ length r.c) rows.now }
    ensures { IsAnswer RowFault.Memory (told_as as_fault (spec.costed_in nominal.now rows.now)) (seen_as (λ v. v.items) result) }
{
    let Ok(mut all) = Vec::with_capacity(alloc, rows.len()) else {
        return Err(RowFault::Memory);
    };
    for row in rows {
        match costed(alloc, row, nominal) {
            Ok(row) => all.push_reserved(row),
            Err(fault) => return Err(fault),
        }
    }
    Ok(all)
}
