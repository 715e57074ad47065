// Rows that premises imply, each with weights, up to the first that they do not.
ghost use Rattle.std.specs.Prelude.{◌≡◌, ◌≤◌, ◌+◌, ◌^◌, ◌<◌, All, IfErr, IfOk, length};
ghost use Rattle.pa_math.specs.Answers.{IsAnswer};
ghost use Rattle.pa_meaning.specs.Weights.{Proves};
ghost use Rattle.pa_tableau.specs.Work.{HasRoom};
ghost use Rattle.pa_bland.specs.Seen.{KeepsRoom};
ghost use Rattle.pa_holds.specs.Refined.{ProveEach};
ghost use Rattle.pa_row.specs.declared.place.Halt.TheVariants as Halt;
ghost use Rattle.pa_refine.specs.Refining as spec;
ghost use Rattle.pa_refine.specs.Seen.{IsBrokenRow, IsStop};

use pa_cert::Proofs;
use pa_farkas::{Verdict, implied_in};
use pa_frac::Wide126;
use pa_row::{Halt, Point, Row, Task, Weights};
use pa_tableau::Work;
use std::alloc::Global;

/// Why there are no weights for each row of a list.
#[derive(Drop)]
pub(crate) enum Stop {
    /// This row is the first that a point breaks.
    Broken { row: u32, at: Point },
    /// A fault came first.
    Halted(Halt),
}

// The weights that prove the row with this place in its list and this number in the whole.
fn proved(
    alloc: Global,
    work: &mut Work<Wide126>,
    premises: &[Row],
    row: &Row,
    most: u32,
    number: u32,
    place: u32,
) -> Result<Weights, Stop>
    requires columns { All (λ r. length r.c ≡ length row.now.c) premises.now }
    requires few { length premises.now ≤ 4096 }
    requires short { length row.now.c ≤ 128 }
    requires room { HasRoom (length row.now.c) (length premises.now) work.old }
    requires most { most ≤ 4096 }
    ensures room { KeepsRoom work.old work.new }
    ensures exact { IsAnswer (spec.no_memory) (spec.proof_of premises.now most number place row.now) result }
    ensures proves { IfOk result (λ w. Proves w premises.now row.now) }
    ensures broken { IfErr result (IsBrokenRow premises.now row.now place) }
{
    match implied_in(
        alloc,
        work,
        premises,
        row,
        most,
        Task::Cover { row: number },
    ) {
        Ok(Verdict::Yes(w)) => Ok(w),
        Ok(Verdict::Empty(w)) => Ok(w),
        Ok(Verdict::No(at)) => Err(Stop::Broken { row: place, at }),
        Err(halt) => Err(Stop::Halted(halt)),
    }
}

/// The weights that prove each row of a list over the premises, or the first row that a point breaks, or a fault before it.
/// The rows are numbered from `first` on. Premises and rows have this many columns.
pub(crate) fn proved_each(
    alloc: Global,
    work: &mut Work<Wide126>,
    premises: &[Row],
    rows: &[Row],
    columns: u32,
    most: u32,
    first: u32,
) -> Result<Proofs, Stop>
    requires columns { All (λ r. length r.c ≡ columns) premises.now }
    requires row_columns { All (λ r. length r.c ≡ columns) rows.now }
    requires few { length premises.now ≤ 4096 }
    requires few_rows { first + length rows.now ≤ 4096 }
    requires short { columns ≤ 128 }
    requires room { HasRoom columns (length premises.now) work.old }
    requires most { most ≤ 4096 }
    ensures room { KeepsRoom work.old work.new }
    ensures exact { IsAnswer (spec.no_memory) (spec.proofs_of premises.now most first rows.now) result }
    ensures proves { IfOk result (λ ws. ProveEach premises.now rows.now ws) }
    ensures broken { IfErr result (IsStop premises.now rows.now) }
{
    let Ok(mut weights) = Vec::with_capacity(alloc, rows.len()) else {
        return Err(Stop::Halted(Halt::Memory));
    };
    for place in 0..rows.len() {
        let number = first + place as u32;
        match proved(
            alloc,
            work,
            premises,
            &rows[place],
            most,
            number,
            place as u32,
        ) {
            Ok(w) => weights.push_reserved(w),
            Err(stop) => return Err(stop),
        }
    }
    Ok(Proofs { weights })
}
