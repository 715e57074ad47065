// Why names, ports or counts give a line no result.

use pa_names::Name;

/// A refusal by names, ports or counts, which is decided before anything is computed.
#[derive(Drop)]
pub enum NameRefusal {
    /// A name of the point or of the goal is no port of the contract.
    UnknownPort { name: Name },
    /// A name would be an input of one contract and an output of another, or an output of two.
    PortClash { name: Name },
    /// A name that is to be kept or hidden is no output.
    NotOutput { name: Name },
    /// The contracts have different inputs or different outputs.
    PortsDiffer,
    /// There would be more variables than an operation takes.
    Variables { count: u32 },
    /// The contracts have more rows than an operation takes.
    Rows { count: u32 },
}
