// Why nothing is answered.
ghost use Rattle.std.specs.Prelude.{◌≡◌};
ghost use Rattle.pa_refine.specs.Bounding.{bound_fault as bound_fault_of};
ghost use Rattle.pa_refine.specs.Refining.{refine_fault as refine_fault_of};

use pa_names::Name;
use pa_row::{Halt, Place};
use thiserror::Error;

/// Why it is not said whether a contract refines another one.
#[derive(Clone, Copy, Debug, PartialEq, Eq, Error)]
pub enum RefineFault {
    /// Memory ran out.
    #[error("out of memory")]
    Memory,
    /// The contracts have different inputs or different outputs.
    #[error("the contracts have different ports")]
    PortsDiffer,
    /// The contracts have more rows together than an operation takes.
    #[error("{count} rows")]
    Load { count: u32 },
    /// The pivots of a problem were used up, and another one was to come.
    #[error("a problem takes more pivots than the limit")]
    PivotLimit(Place),
    /// A number passed 126 bits.
    #[error("a number passes 126 bits")]
    Wide(Place),
}

/// Why a goal has no bound.
#[derive(Debug, Drop, Error)]
pub enum BoundFault {
    /// Memory ran out.
    #[error("out of memory")]
    Memory,
    /// The first name of the goal that is no port of the contract.
    #[error("a name of the goal is no port")]
    UnknownPort { name: Name },
    /// The contract has more rows than an operation takes.
    #[error("{count} rows")]
    Load { count: u32 },
    /// The pivots of a problem were used up, and another one was to come.
    #[error("a problem takes more pivots than the limit")]
    PivotLimit(Place),
    /// A number passed 126 bits.
    #[error("a number passes 126 bits")]
    Wide(Place),
}

/// A fault of the work on rows, as one of a refinement.
pub(crate) fn refine_fault(halt: Halt) -> RefineFault
    ensures { result ≡ refine_fault_of halt }
{
    match halt {
        Halt::Memory => RefineFault::Memory,
        Halt::PivotLimit(place) => RefineFault::PivotLimit(place),
        Halt::Wide(place) => RefineFault::Wide(place),
    }
}

/// A fault of the work on rows, as one of a bound.
pub(crate) fn bound_fault(halt: Halt) -> BoundFault
    ensures { result ≡ bound_fault_of halt }
{
    match halt {
        Halt::Memory => BoundFault::Memory,
        Halt::PivotLimit(place) => BoundFault::PivotLimit(place),
        Halt::Wide(place) => BoundFault::Wide(place),
    }
}
