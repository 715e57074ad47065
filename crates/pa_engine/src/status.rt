// How a run ends.
ghost use Rattle.std.specs.Prelude.{◌≡◌};
ghost use Rattle.pa_engine.specs.Statuses.{number_of};

use pa_json::DiagramFault;
use pa_script::ScriptFault;

/// One of the inputs.
#[derive(Clone, Copy, Debug, PartialEq, Eq)]
pub enum Which {
    /// The diagram, which has the contracts.
    Diagram,
    /// The script, which has the operations.
    Script,
}

/// Why an input is refused.
#[derive(Drop)]
pub enum InputFault {
    /// The diagram is refused. The fault is never `Memory`.
    BadDiagram(DiagramFault),
    /// The script is refused. The fault is never `Memory`.
    BadScript(ScriptFault),
}

/// How a run ends.
#[derive(Drop)]
pub enum Status {
    /// The inputs were read to their end, the report, in which no answer is a refusal, or the upgraded
    /// diagram was taken whole.
    Done,
    /// As `Done`, but at least one answer of the report is a refusal.
    Refused,
    /// An input is refused; its line was written.
    Input(InputFault),
    /// The words are not accepted; the usage line was written.
    Usage,
    /// An input could not be fetched; its line was written.
    ReadFault(Which),
    /// The output refused a part of what was put.
    WriteFault,
    /// Memory ran out.
    Memory,
}

/// The exit status of the process.
pub fn status_number(status: &Status) -> u8
    ensures { result ≡ number_of status.now }
{
    match status {
        Status::Done => 0,
        Status::Refused => 1,
        Status::Input(_) => 2,
        Status::Usage => 3,
        Status::ReadFault(_) => 4,
        Status::WriteFault => 5,
        Status::Memory => 6,
    }
}
