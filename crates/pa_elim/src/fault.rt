// Why columns are not eliminated.
ghost use Rattle.std.specs.Prelude.{◌≡◌};
ghost use Rattle.pa_elim.specs.Projecting as spec;

use pa_fourier::StepFault;
use pa_row::{Halt, Place, Spot, Sub, Task};
use thiserror::Error;

/// Why columns are not eliminated.
#[derive(Clone, Copy, Debug, PartialEq, Eq, Error)]
pub enum ElimFault {
    /// Memory ran out.
    #[error("out of memory")]
    Memory,
    /// A step would make more rows than the limit. Steps are counted from 1.
    #[error("step {step} makes {count} rows")]
    RowLimit { step: u32, count: u64 },
    /// The pivots of a problem were used up, and another one was to come.
    #[error("a problem takes more pivots than the limit")]
    PivotLimit(Place),
    /// A number passed 126 bits.
    #[error("a number passes 126 bits")]
    Wide(Place),
}

/// A fault of a thinning, as one of the elimination.
pub(crate) fn elim_fault(halt: Halt) -> ElimFault
    ensures { result ≡ spec.elim_fault halt }
{
    match halt {
        Halt::Memory => ElimFault::Memory,
        Halt::PivotLimit(place) => ElimFault::PivotLimit(place),
        Halt::Wide(place) => ElimFault::Wide(place),
    }
}

/// A fault of the rows that a step makes, as one of the elimination.
pub(crate) fn pairs_fault(step: u32, fault: StepFault) -> ElimFault
    ensures { result ≡ spec.pairs_fault step fault }
{
    match fault {
        StepFault::Memory => ElimFault::Memory,
        StepFault::Wide { row } => ElimFault::Wide(Place {
            task: Task::Pairs { step, row },
            sub: Sub::Main,
            spot: Spot::Check,
        }),
    }
}
