// Why outputs are not hidden.
ghost use Rattle.std.specs.Prelude.{◌≡◌};
ghost use Rattle.pa_compose.specs.Hiding as spec;

use pa_elim::ElimFault;
use pa_names::Name;
use pa_row::Place;
use thiserror::Error;

/// Why outputs of a contract are not hidden.
#[derive(Debug, Drop, Error)]
pub enum HideFault {
    /// Memory ran out.
    #[error("out of memory")]
    Memory,
    /// The first of the names that is no output of the contract.
    #[error("a name that is to be hidden is no output")]
    NotOutput { name: Name },
    /// The contract has more rows than an operation takes.
    #[error("{count} rows")]
    Load { count: u32 },
    /// The step of an output would make more rows than the limit. Steps are counted from 1.
    #[error("step {step} makes {count} rows")]
    RowLimit { step: u32, count: u64 },
    /// The pivots of a problem were used up, and another one was to come.
    #[error("a problem takes more pivots than the limit")]
    PivotLimit(Place),
    /// A number passed 126 bits.
    #[error("a number passes 126 bits")]
    Wide(Place),
}

/// A fault of the elimination, as one of a hiding.
pub(crate) fn hide_fault(fault: ElimFault) -> HideFault
    ensures { result ≡ spec.hide_fault fault }
{
    match fault {
        ElimFault::Memory => HideFault::Memory,
        ElimFault::RowLimit { step, count } => HideFault::RowLimit { step, count },
        ElimFault::PivotLimit(place) => HideFault::PivotLimit(place),
        ElimFault::Wide(place) => HideFault::Wide(place),
    }
}
