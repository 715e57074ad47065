// What a quotient tells.
ghost use Rattle.std.specs.Prelude.{◌≡◌, IfErr, IfOk, IsErrOf, length};
ghost use Rattle.pa_quotient.specs.declared.fault.QuotientFault.TheVariants as Fault;
ghost use Rattle.pa_quotient.specs.Dividing.{divided_of};
ghost use Rattle.pa_answers.specs.Answers as spec;
ghost use Rattle.pa_answers.specs.Answers.{HasOutputs};

use crate::located::with_numbers;
use crate::told::{limited, refused, too_wide};
use pa_cert::{Answer, Divided, Heading, LineAnswer, NameRefusal};
use pa_contract::{Contract, Nominal};
use pa_quotient::{QuotientFault, quotient};
use pa_row::Limits;
use std::alloc::{AllocError, Global};

// The direction, by the names of the part's outputs whose number is not 0.
fn heading_of(alloc: Global, part: &Contract, numbers: &[i128]) -> Result<Heading, AllocError>
    requires { length numbers.now ≡ length part.now.outputs }
    ensures { IfOk result (λ h. h ≡ spec.heading_of part.now.outputs numbers.now) }
{
    let heading = Heading {
        names: Vec::new(alloc),
        numbers: Vec::new(alloc),
    };
    with_numbers(alloc, heading, &part.outputs, numbers)
}

// The answer by a refusal of the operation.
fn refused_by(
    alloc: Global,
    part: &Contract,
    fault: QuotientFault,
) -> Result<LineAnswer, AllocError>
    requires { HasOutputs part.now fault }
    ensures answer { IfOk result (λ answer. answer ≡ spec.undivided_answer part.now fault) }
    ensures settled { IfOk result (λ answer. ¬ (fault ≡ Fault.Memory)) }
{
    match fault {
        QuotientFault::Memory => Err(AllocError),
        QuotientFault::PortClash { name } => Ok(refused(NameRefusal::PortClash { name })),
        QuotientFault::VariableLimit { count } => Ok(refused(NameRefusal::Variables { count })),
        QuotientFault::Load { count } => Ok(refused(NameRefusal::Rows { count })),
        QuotientFault::NoMultipliers { row, direction } => {
            let direction = heading_of(alloc, part, &direction.numbers)?;
            Ok(LineAnswer::Answered {
                answer: Answer::NoMultipliersFor { row, direction },
            })
        }
        QuotientFault::PivotLimit(place) => Ok(limited(place)),
        QuotientFault::Wide(place) => Ok(too_wide(place)),
    }
}

// The answer by what the operation gave.
fn told(
    alloc: Global,
    part: &Contract,
    outcome: Result<Divided, QuotientFault>,
) -> Result<LineAnswer, AllocError>
    requires { IfErr outcome (HasOutputs part.now) }
    ensures answer { IfOk result (λ answer. answer ≡ spec.quotient_answer part.now outcome) }
    ensures settled { IfOk result (λ answer. ¬ IsErrOf outcome Fault.Memory) }
{
    match outcome {
        Ok(answer) => Ok(LineAnswer::Answered {
            answer: Answer::Divided { answer },
        }),
        Err(fault) => refused_by(alloc, part, fault),
    }
}

/// The quotient of the whole by the part, or why there is none.
pub(crate) fn divided(
    alloc: Global,
    whole: &Contract,
    part: &Contract,
    nominal: &Nominal,
    limits: Limits,
) -> Result<LineAnswer, AllocError>
    ensures { IfOk result (λ answer. answer ≡ spec.quotient_answer part.now (divided_of whole.now part.now nominal.now limits.pivots)) }
{
    let outcome = quotient(alloc, whole, part, nominal, limits);
    told(alloc, part, outcome)
}
