// Why parts have no composite.
ghost use Rattle.std.specs.Prelude.{◌≡◌};
ghost use Rattle.pa_compose.specs.Composing as spec;

use pa_discharge::{DischargeFault, StuckParts};
use pa_elim::ElimFault;
use pa_names::Name;
use pa_parts::PortsFault;
use pa_row::{Halt, Place, Stuck};

/// Why parts have no composite.
#[derive(Drop)]
pub enum ComposeFault {
    /// Memory ran out.
    Memory,
    /// The first output that an earlier part has too.
    PortClash { name: Name },
    /// The first kept name that is no output.
    NotOutput { name: Name },
    /// The composition has more names than an operation takes.
    VariableLimit { count: u32 },
    /// The parts have more rows together than an operation takes.
    Load { count: u32 },
    /// This assumption is the first that no weights over all parts' guarantees bring to the external inputs.
    NoMultipliers { stuck: Stuck },
    /// These parts wait for one another, each with its first assumption that the others can't serve.
    Circle { stuck: StuckParts },
    /// The step of an internal output would make more rows than the limit. Steps are counted from 1.
    RowLimit { step: u32, count: u64 },
    /// The pivots of a problem were used up, and another one was to come.
    PivotLimit(Place),
    /// A number passed 126 bits.
    Wide(Place),
}

/// A refusal of the names, as one of a composition.
pub(crate) fn ports_fault(fault: PortsFault) -> ComposeFault
    ensures { result ≡ spec.ports_fault fault }
{
    match fault {
        PortsFault::Memory => ComposeFault::Memory,
        PortsFault::PortClash { name } => ComposeFault::PortClash { name },
        PortsFault::NotOutput { name } => ComposeFault::NotOutput { name },
        PortsFault::VariableLimit { count } => ComposeFault::VariableLimit { count },
    }
}

/// A refusal of the rounds, as one of a composition.
pub(crate) fn discharge_fault(fault: DischargeFault) -> ComposeFault
    ensures { result ≡ spec.discharge_fault fault }
{
    match fault {
        DischargeFault::Memory => ComposeFault::Memory,
        DischargeFault::NoMultipliers { stuck } => ComposeFault::NoMultipliers { stuck },
        DischargeFault::Circle { stuck } => ComposeFault::Circle { stuck },
        DischargeFault::PivotLimit(place) => ComposeFault::PivotLimit(place),
        DischargeFault::Wide(place) => ComposeFault::Wide(place),
    }
}

/// A fault of problems and sums, as one of a composition.
pub(crate) fn halted(halt: Halt) -> ComposeFault
    ensures { result ≡ spec.halted halt }
{
    match halt {
        Halt::Memory => ComposeFault::Memory,
        Halt::PivotLimit(place) => ComposeFault::PivotLimit(place),
        Halt::Wide(place) => ComposeFault::Wide(place),
    }
}

/// A fault of the elimination, as one of a composition.
pub(crate) fn elim_fault(fault: ElimFault) -> ComposeFault
    ensures { result ≡ spec.elim_fault fault }
{
    match fault {
        ElimFault::Memory => ComposeFault::Memory,
        ElimFault::RowLimit { step, count } => ComposeFault::RowLimit { step, count },
        ElimFault::PivotLimit(place) => ComposeFault::PivotLimit(place),
        ElimFault::Wide(place) => ComposeFault::Wide(place),
    }
}
