// What a bound tells.
ghost use Rattle.std.specs.Prelude.{◌≡◌, IfOk, IsErrOf, length};
ghost use Rattle.pa_meaning.specs.Contracts.{ports};
ghost use Rattle.pa_refine.specs.declared.fault.BoundFault.TheVariants as Fault;
ghost use Rattle.pa_refine.specs.Bounding.{bounded_of};
ghost use Rattle.pa_answers.specs.Answers as spec;
ghost use Rattle.pa_answers.specs.Answers.{HasColumns};

use crate::located::{headed, located};
use crate::told::{limited, refused, too_wide};
use pa_cert::{Answer, LineAnswer, NameRefusal};
use pa_contract::Contract;
use pa_grammar::Linear;
use pa_refine::{BoundFault, Bounded, bound};
use pa_row::Limits;
use std::alloc::{AllocError, Global};

// The answer of a bound that is decided.
fn decided(alloc: Global, contract: &Contract, bounded: Bounded) -> Result<LineAnswer, AllocError>
    requires { HasColumns (length (ports contract.now)) bounded }
    ensures { IfOk result (λ answer. answer ≡ spec.bounded_answer contract.now bounded) }
{
    match bounded {
        Bounded::Value {
            num,
            den,
            weights,
            at,
        } => {
            let at = located(alloc, contract, at)?;
            Ok(LineAnswer::Answered {
                answer: Answer::Value {
                    num,
                    den,
                    weights,
                    at,
                },
            })
        }
        Bounded::Unbounded { at, direction } => {
            let at = located(alloc, contract, at)?;
            let direction = headed(alloc, contract, &direction.numbers)?;
            Ok(LineAnswer::Answered {
                answer: Answer::Unbounded { at, direction },
            })
        }
        Bounded::Nothing { weights } => Ok(LineAnswer::Answered {
            answer: Answer::Nothing { weights },
        }),
    }
}

// The answer by what the operation gave.
fn told(
    alloc: Global,
    contract: &Contract,
    outcome: Result<Bounded, BoundFault>,
) -> Result<LineAnswer, AllocError>
    requires { IfOk outcome (HasColumns (length (ports contract.now))) }
    ensures answer { IfOk result (λ answer. answer ≡ spec.bound_answer contract.now outcome) }
    ensures settled { IfOk result (λ answer. ¬ IsErrOf outcome Fault.Memory) }
{
    match outcome {
        Ok(bounded) => decided(alloc, contract, bounded),
        Err(BoundFault::Memory) => Err(AllocError),
        Err(BoundFault::UnknownPort { name }) => Ok(refused(NameRefusal::UnknownPort { name })),
        Err(BoundFault::Load { count }) => Ok(refused(NameRefusal::Rows { count })),
        Err(BoundFault::PivotLimit(place)) => Ok(limited(place)),
        Err(BoundFault::Wide(place)) => Ok(too_wide(place)),
    }
}

/// The best value of the goal at the behaviours of the contract, or why that is not said.
pub(crate) fn bounded(
    alloc: Global,
    contract: &Contract,
    goal: &Linear,
    least: bool,
    limits: Limits,
) -> Result<LineAnswer, AllocError>
    ensures { IfOk result (λ answer. answer ≡ spec.bound_answer contract.now (bounded_of contract.now goal.now least limits.pivots)) }
{
    let outcome = bound(alloc, contract, goal, least, limits.pivots);
    told(alloc, contract, outcome)
}
