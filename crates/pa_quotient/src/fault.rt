// Why a contract has no quotient by a part.
ghost use Rattle.std.specs.Prelude.{◌≡◌};
ghost use Rattle.pa_quotient.specs.Dividing as spec;

use pa_bland::Direction;
use pa_names::Name;
use pa_row::{Halt, Place};

/// Why a contract has no quotient by a part.
#[derive(Drop)]
pub enum QuotientFault {
    /// Memory ran out.
    Memory,
    /// The first output of the part that is an input of the whole.
    PortClash { name: Name },
    /// The quotient's ports and the part's outputs are more names than an operation takes.
    VariableLimit { count: u32 },
    /// The two contracts have more rows together than an operation takes.
    Load { count: u32 },
    /// This guarantee of the whole is the first that no weights over the part's guarantees bring to the quotient's ports: along
    /// the direction over the part's outputs none of these rises, and the guarantee does.
    NoMultipliers { row: u32, direction: Direction },
    /// The pivots of a problem were used up, and another one was to come.
    PivotLimit(Place),
    /// A number passed 126 bits.
    Wide(Place),
}

/// A fault of problems and sums, as one of a quotient.
pub(crate) fn halted(halt: Halt) -> QuotientFault
    ensures { result ≡ spec.halted halt }
{
    match halt {
        Halt::Memory => QuotientFault::Memory,
        Halt::PivotLimit(place) => QuotientFault::PivotLimit(place),
        Halt::Wide(place) => QuotientFault::Wide(place),
    }
}
