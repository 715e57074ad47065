// What a hiding tells.
ghost use Rattle.std.specs.Prelude.{◌≡◌, IfOk, IsErrOf};
ghost use Rattle.pa_compose.specs.declared.fault.HideFault.TheVariants as Fault;
ghost use Rattle.pa_compose.specs.Hiding.{hidden_of};
ghost use Rattle.pa_answers.specs.Answers as spec;

use crate::told::{limited, refused, too_wide};
use pa_cert::{Answer, Hidden, LineAnswer, NameRefusal};
use pa_compose::{HideFault, hide};
use pa_contract::Contract;
use pa_names::Names;
use pa_row::Limits;
use std::alloc::{AllocError, Global};

// The answer by what the operation gave.
fn told(outcome: Result<Hidden, HideFault>) -> Result<LineAnswer, AllocError>
    ensures answer { IfOk result (λ answer. answer ≡ spec.hide_answer outcome) }
    ensures settled { IfOk result (λ answer. ¬ IsErrOf outcome Fault.Memory) }
{
    match outcome {
        Ok(answer) => Ok(LineAnswer::Answered {
            answer: Answer::Hidden { answer },
        }),
        Err(HideFault::Memory) => Err(AllocError),
        Err(HideFault::NotOutput { name }) => Ok(refused(NameRefusal::NotOutput { name })),
        Err(HideFault::Load { count }) => Ok(refused(NameRefusal::Rows { count })),
        Err(HideFault::RowLimit { step, count }) => Ok(LineAnswer::Answered {
            answer: Answer::RowLimit { step, count },
        }),
        Err(HideFault::PivotLimit(place)) => Ok(limited(place)),
        Err(HideFault::Wide(place)) => Ok(too_wide(place)),
    }
}

/// The contract without these outputs, or why there is none.
pub(crate) fn hidden(
    alloc: Global,
    contract: &Contract,
    names: &Names,
    limits: Limits,
) -> Result<LineAnswer, AllocError>
    ensures { IfOk result (λ answer. answer ≡ spec.hide_answer (hidden_of contract.now names.now limits.rows limits.pivots)) }
{
    told(hide(alloc, contract, names, limits))
}
