// Why parts are not discharged.
ghost use Rattle.std.specs.Prelude.{◌≡◌};
ghost use Rattle.pa_discharge.specs.Discharging as spec;

use pa_row::{Halt, Place, Stuck};
use std::marker::Model;

/// Stuck rows of different parts, in the order of the parts.
#[derive(Drop)]
pub struct StuckParts {
    pub stuck: Vec<Stuck>,
}

impl Model for StuckParts {
    ghost use Rattle.std.specs.Prelude.{List};
    ghost use Rattle.pa_row.specs.Steps.{Stuck as StuckValue};

    ghost Value = { List StuckValue };

    ghost view = { λ s. s.stuck.items };
}

/// Why parts are not discharged.
#[derive(Drop)]
pub enum DischargeFault {
    /// Memory ran out.
    Memory,
    /// This assumption is the first that no weights over all parts' guarantees bring to the external inputs.
    NoMultipliers { stuck: Stuck },
    /// These parts wait for one another, each with its first assumption that the others can't serve.
    Circle { stuck: StuckParts },
    /// The pivots of a problem were used up, and another one was to come.
    PivotLimit(Place),
    /// A number passed 126 bits.
    Wide(Place),
}

/// A fault of problems and sums, as one of discharging parts.
pub(crate) fn halted(halt: Halt) -> DischargeFault
    ensures { result ≡ spec.halted halt }
{
    match halt {
        Halt::Memory => DischargeFault::Memory,
        Halt::PivotLimit(place) => DischargeFault::PivotLimit(place),
        Halt::Wide(place) => DischargeFault::Wide(place),
    }
}
