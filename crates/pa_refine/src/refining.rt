// Whether a contract refines another one.
ghost use Rattle.std.specs.Prelude.{◌≡◌, ◌≤◌, ◌+◌, Err, IfErr, IfOk, None, length};
ghost use Rattle.pa_math.specs.Answers.{IsAnswer};
ghost use Rattle.pa_meaning.specs.Contracts.{ports};
ghost use Rattle.pa_tableau.specs.Work.{HasRoom};
ghost use Rattle.pa_contract.specs.Merge.{row_count};
ghost use Rattle.pa_holds.specs.Refusals.{due_refine};
ghost use Rattle.pa_row.specs.declared.place.Place.{Place};
ghost use Rattle.pa_farkas.specs.FewBases.{HasFewBases};
ghost use Rattle.pa_refine.specs.Meant.{HoldsAsRefined, IsTrueOfRefining};
ghost use Rattle.pa_refine.specs.Refining as spec;
ghost use Rattle.pa_refine.specs.Seen.{HaveColumns, IsCovering};

use crate::columns::{port_count, show_well_formed};
use crate::covering::{Stop, proved_each};
use crate::fault::refine_fault;
use crate::lists::{Lists, rows_of};
use crate::names::have_same_ports;
use crate::{RefineFault, Refined};
use pa_contract::{Contract, MOST_ROWS};
use pa_frac::Wide126;
use pa_row::{Broken, Halt};
use pa_tableau::Work;
use std::alloc::Global;

// The answer where an assumption of the first contract is not implied.
fn no_assumption(stop: Stop) -> Result<Refined, RefineFault>
    ensures { result ≡ spec.no_assumption stop }
{
    match stop {
        Stop::Broken { row, at } => Ok(Refined::No {
            of: Broken::Assumption(row),
            at,
        }),
        Stop::Halted(halt) => Err(refine_fault(halt)),
    }
}

// The answer where a guarantee of the second contract is not implied.
fn no_guarantee(stop: Stop) -> Result<Refined, RefineFault>
    ensures { result ≡ spec.no_guarantee stop }
{
    match stop {
        Stop::Broken { row, at } => Ok(Refined::No {
            of: Broken::Guarantee(row),
            at,
        }),
        Stop::Halted(halt) => Err(refine_fault(halt)),
    }
}

// Whether the lists are covered: first the assumptions, then the guarantees.
fn covering(
    alloc: Global,
    work: &mut Work<Wide126>,
    lists: &Lists,
    columns: u32,
    most: u32,
) -> Result<Refined, RefineFault>
    requires over { HaveColumns columns lists.now }
    requires short { columns ≤ 128 }
    requires room { HasRoom columns (length lists.now.premises) work.old }
    requires most { most ≤ 4096 }
    ensures exact { IsAnswer RefineFault.Memory (spec.covering_of lists.now most) result }
    ensures shown { IfOk result (IsCovering lists.now) }
{
    let premises = &lists.premises;
    let assumed = &premises[..lists.assumed];
    let assumptions = match proved_each(
        alloc,
        work,
        assumed,
        &lists.assumptions,
        columns,
        most,
        0,
    ) {
        Ok(proofs) => proofs,
        Err(stop) => return no_assumption(stop),
    };
    let first = lists.assumptions.len() as u32;
    let guarantees = match proved_each(
        alloc,
        work,
        premises,
        &lists.guarantees,
        columns,
        most,
        first,
    ) {
        Ok(proofs) => proofs,
        Err(stop) => return no_guarantee(stop),
    };
    Ok(Refined::Yes {
        assumptions,
        guarantees,
    })
}

// The same for contracts with few rows, over one work.
fn covered(
    alloc: Global,
    left: &Contract,
    right: &Contract,
    most: u32,
) -> Result<Refined, RefineFault>
    requires few { row_count left.now + row_count right.now ≤ 4096 }
    requires most { most ≤ 4096 }
    ensures exact { IsAnswer RefineFault.Memory (spec.covering_of (spec.lists_of left.now right.now) most) result }
    ensures shown { IfOk result (IsCovering (spec.lists_of left.now right.now)) }
{
    show_well_formed(left);
    let Ok(lists) = rows_of(alloc, left, right) else {
        return Err(RefineFault::Memory);
    };
    let columns = port_count(left);
    let Ok(mut work) = Work::new(alloc, columns, lists.premises.len() as u32) else {
        return Err(RefineFault::Memory);
    };
    covering(alloc, &mut work, &lists, columns, most)
}

// The same for contracts with the same ports, with what it means.
fn refined(
    alloc: Global,
    left: &Contract,
    right: &Contract,
    most: u32,
) -> Result<Refined, RefineFault>
    requires due { due_refine left.now right.now ≡ None }
    requires few { row_count left.now + row_count right.now ≤ 4096 }
    requires most { most ≤ 4096 }
    ensures exact { IsAnswer RefineFault.Memory (spec.covering_of (spec.lists_of left.now right.now) most) result }
    ensures truth { IfOk result (IsTrueOfRefining left.now right.now) }
    ensures printed { IfOk result (HoldsAsRefined left.now right.now) }
    ensures unlimited { HasFewBases (row_count left.now + row_count right.now) (length (ports left.now)) most
        → (place : Place) → result ≡ Err (RefineFault.PivotLimit place) → ⊥ }
{
    show_well_formed(left);
    show_well_formed(right);
    covered(alloc, left, right, most)
}

/// Whether the first contract may stand in the place of the second: their ports are the same, it assumes no more, and where
/// the second one's assumptions are met, it guarantees no less (A. Benveniste et al., Contracts for System Design, 2018). A
/// yes has weights for each of its assumptions over the other's assumptions, and then for each guarantee of the other over
/// the other's assumptions, followed by its own guarantees (J. Farkas, Theorie der einfachen Ungleichungen, 1902). A no has
/// the first row that is not implied, and a point that shows it. All rows and points are over the first contract's ports, in
/// its order. At most `most` pivots are made for a problem, which are at most 4,096.
///
/// Refused, in this order, exactly where the inputs or the outputs are not the same names (`PortsDiffer`), and where the
/// contracts have more than 4,096 rows together (`Load`); then `PivotLimit` and `Wide` at the first row where they come,
/// with their place as `pa_farkas::implied` gives it: the task is `Cover`, and the rows are numbered through. `Memory` comes
/// only where neither ports nor rows refuse. `PivotLimit` never comes where `most_bases` of the numbers of rows, of both
/// together, and of ports is at most `most`.
pub fn refine(
    alloc: Global,
    left: &Contract,
    right: &Contract,
    most: u32,
) -> Result<Refined, RefineFault>
    requires most { most ≤ 4096 }
    ensures answer { IsAnswer RefineFault.Memory (spec.refined_of left.now right.now most) result }
    ensures truth { IfOk result (IsTrueOfRefining left.now right.now) }
    ensures printed { IfOk result (HoldsAsRefined left.now right.now) }
    ensures refused { IfOk result (λ _. due_refine left.now right.now ≡ None) }
    ensures memory { IfErr result (λ fault. fault ≡ RefineFault.Memory → due_refine left.now right.now ≡ None) }
    ensures unlimited { HasFewBases (row_count left.now + row_count right.now) (length (ports left.now)) most
        → (place : Place) → result ≡ Err (RefineFault.PivotLimit place) → ⊥ }
{
    if !have_same_ports(left, right) {
        return Err(RefineFault::PortsDiffer);
    }
    let count = left.row_count() + right.row_count();
    if count > MOST_ROWS {
        return Err(RefineFault::Load { count });
    }
    refined(alloc, left, right, most)
}
