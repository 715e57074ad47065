// Faults by their places.
ghost use Rattle.std.specs.Prelude.{◌≡◌};
ghost use Rattle.pa_row.specs.declared.place.Halt.TheVariants as Halt;
ghost use Rattle.pa_row.specs.declared.fault.RowFault.TheVariants as RowFault;
ghost use Rattle.pa_farkas.specs.Answered as spec;

use pa_bland::SolveError;
use pa_fourier::CleanFault;
use pa_row::{Group, Halt, Place, RowFault, Spot, Sub, Task};

fn spot_of(spot: pa_bland::Spot) -> Spot
    ensures { result ≡ spec.spot_of spot }
{
    match spot {
        pa_bland::Spot::Cell(at) => Spot::Pivot {
            pivot: at.pivot,
            row: at.row,
            column: at.column,
        },
        pa_bland::Spot::Read => Spot::Read,
    }
}

/// The fault of a problem.
pub(crate) fn halt_of(task: Task, sub: Sub, fault: SolveError) -> Halt
    ensures { result ≡ spec.halt_of task sub fault }
{
    match fault {
        SolveError::Memory => Halt::Memory,
        SolveError::PivotLimit => Halt::PivotLimit(Place {
            task,
            sub,
            spot: Spot::Load,
        }),
        SolveError::Wide(spot) => Halt::Wide(Place {
            task,
            sub,
            spot: spot_of(spot),
        }),
    }
}

/// A number that passes the width, by its task, by the problem that was solved last, and by the spot.
pub fn wide_in(task: Task, sub: Sub, spot: Spot) -> Halt
    ensures { result ≡ spec.wide_in task sub spot (record {}) }
{
    Halt::Wide(Place { task, sub, spot })
}

/// A fault of what is read at the end of a problem.
pub fn read_halt(task: Task, sub: Sub, fault: RowFault) -> Halt
    ensures { result ≡ spec.read_halt task sub fault }
{
    match fault {
        RowFault::Memory => Halt::Memory,
        RowFault::Wide => wide_in(task, sub, Spot::Read),
    }
}

/// A fault of the clean of a group.
pub(crate) fn clean_halt(group: Group, fault: CleanFault) -> Halt
    ensures { result ≡ spec.clean_halt group fault }
{
    match fault {
        CleanFault::Memory => Halt::Memory,
        CleanFault::Wide { row } => wide_in(Task::Clean { group, row }, Sub::Main, Spot::Check),
    }
}
