// Answers that have no contract and no certificate.
ghost use Rattle.std.specs.Prelude.{◌≡◌, IfOk};
ghost use Rattle.pa_answers.specs.Answers as spec;

use pa_cert::{Answer, LineAnswer, NameRefusal};
use pa_names::Name;
use pa_row::Place;
use std::alloc::{AllocError, Global};

/// A refusal by names, ports or counts.
pub(crate) fn refused(refusal: NameRefusal) -> LineAnswer
    ensures { result ≡ LineAnswer.Answered (Answer.Refused refusal) }
{
    LineAnswer::Answered {
        answer: Answer::Refused { refusal },
    }
}

/// The refusal of a problem that takes more pivots than the limit.
pub(crate) fn limited(place: Place) -> LineAnswer
    ensures { result ≡ spec.limited place }
{
    LineAnswer::Answered {
        answer: Answer::PivotLimit {
            task: place.task,
            sub: place.sub,
        },
    }
}

/// The refusal of a number that passes 126 bits.
pub(crate) fn too_wide(place: Place) -> LineAnswer
    ensures { result ≡ LineAnswer.Answered (Answer.TooWide place) }
{
    LineAnswer::Answered {
        answer: Answer::TooWide { place },
    }
}

/// The answer that no contract has the name.
pub(crate) fn unknown(alloc: Global, name: &Name) -> Result<LineAnswer, AllocError>
    ensures { IfOk result (λ answer. answer ≡ LineAnswer.Unknown name.now) }
{
    match name.copy(alloc) {
        Ok(name) => Ok(LineAnswer::Unknown { name }),
        Err(_) => Err(AllocError),
    }
}

/// The answer that a contract has the name of the result.
pub(crate) fn taken(alloc: Global, name: &Name) -> Result<LineAnswer, AllocError>
    ensures { IfOk result (λ answer. answer ≡ LineAnswer.Taken name.now) }
{
    match name.copy(alloc) {
        Ok(name) => Ok(LineAnswer::Taken { name }),
        Err(_) => Err(AllocError),
    }
}

/// The refusal of a name that is no port.
pub(crate) fn unknown_port(alloc: Global, name: &Name) -> Result<LineAnswer, AllocError>
    ensures { IfOk result (λ answer. answer ≡ LineAnswer.Answered (Answer.Refused (NameRefusal.UnknownPort name.now))) }
{
    match name.copy(alloc) {
        Ok(name) => Ok(refused(NameRefusal::UnknownPort { name })),
        Err(_) => Err(AllocError),
    }
}
