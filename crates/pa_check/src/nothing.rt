// Whether weights show that no point meets the rows.
ghost use Rattle.std.specs.Prelude.{◌≡◌, All, Decides, IfOk, length};
ghost use Rattle.pa_meaning.specs.Weights.{Proves, impossible as impossible_row};
ghost use Rattle.pa_math.specs.Answers.{IsAnswer, told_as};
ghost use Rattle.pa_row.specs.Answers.{as_fault};
ghost use Rattle.pa_check.specs.Proofs.{proof_in};

use crate::proves;
use pa_frac::Wide;
use pa_row::{Row, RowFault, Weights};
use std::alloc::{AllocError, Global};

// The row `0 <= -1`, which no point meets, over this many columns.
fn impossible(alloc: Global, columns: u32) -> Result<Row, AllocError>
    ensures { IfOk result (λ row. row ≡ impossible_row columns) }
{
    let c = Vec::from_elem(alloc, 0, columns as usize)?;
    Ok(Row { c, b: -1 })
}

/// Whether the weights show that no point meets the rows: they prove `0 <= -1` (Farkas, Theorie der
/// einfachen Ungleichungen, 1902). A place that is none of the rows' fails before any sum. `Wide`
/// exactly where all places are in range and `covers` is; `Memory` where memory runs out. Each row has
/// this many columns.
pub fn shows_nothing(
    alloc: Global,
    rows: &[Row],
    w: &Weights,
    columns: u32,
) -> Result<bool, RowFault>
    requires columns { All (λ r. length r.c ≡ columns) rows.now }
    ensures answer { IsAnswer RowFault.Memory (told_as as_fault (proof_in rows.now (impossible_row columns) w.now)) result }
    ensures truth { IfOk result (λ passed. Decides passed (Proves w.now rows.now (impossible_row columns))) }
{
    let Ok(row) = impossible(alloc, columns) else {
        return Err(RowFault::Memory);
    };
    match proves(rows, &row, w) {
        Ok(passed) => Ok(passed),
        Err(Wide) => Err(RowFault::Wide),
    }
}
