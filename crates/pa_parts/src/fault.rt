// Why parts have no names together.
use pa_names::Name;

/// Why parts have no names together.
#[derive(Drop)]
pub enum PortsFault {
    /// Memory ran out.
    Memory,
    /// The first output that an earlier part has too.
    PortClash { name: Name },
    /// The first kept name that is no output.
    NotOutput { name: Name },
    /// The composition has more names than an operation takes.
    VariableLimit { count: u32 },
}
