// What a refinement tells.
ghost use Rattle.std.specs.Prelude.{◌≡◌, IfOk, IsErrOf};
ghost use Rattle.pa_refine.specs.declared.fault.RefineFault.TheVariants as Fault;
ghost use Rattle.pa_refine.specs.Refining.{refined_of};
ghost use Rattle.pa_answers.specs.Answers as spec;

use crate::located::located;
use crate::told::{limited, refused, too_wide};
use pa_cert::{Answer, LineAnswer, Located, NameRefusal};
use pa_contract::Contract;
use pa_refine::{RefineFault, Refined, refine};
use pa_row::{Broken, Limits};
use std::alloc::{AllocError, Global};

// The answer by the row that a point breaks.
fn broken(of: Broken, at: Located) -> LineAnswer
    ensures { result ≡ spec.broken_answer of at }
{
    match of {
        Broken::Assumption(row) => LineAnswer::Answered {
            answer: Answer::NoAssumption { row, at },
        },
        Broken::Guarantee(row) => LineAnswer::Answered {
            answer: Answer::NoGuarantee { row, at },
        },
    }
}

// The answer of a refinement that is decided.
fn decided(alloc: Global, contract: &Contract, refined: Refined) -> Result<LineAnswer, AllocError>
    ensures { IfOk result (λ answer. answer ≡ spec.refined_answer contract.now refined) }
{
    match refined {
        Refined::Yes {
            assumptions,
            guarantees,
        } => Ok(LineAnswer::Answered {
            answer: Answer::Yes {
                assumptions,
                guarantees,
            },
        }),
        Refined::No { of, at } => {
            let at = located(alloc, contract, at)?;
            Ok(broken(of, at))
        }
    }
}

// The answer by what the operation gave.
fn told(
    alloc: Global,
    contract: &Contract,
    outcome: Result<Refined, RefineFault>,
) -> Result<LineAnswer, AllocError>
    ensures answer { IfOk result (λ answer. answer ≡ spec.refine_answer contract.now outcome) }
    ensures settled { IfOk result (λ answer. ¬ IsErrOf outcome Fault.Memory) }
{
    match outcome {
        Ok(refined) => decided(alloc, contract, refined),
        Err(RefineFault::Memory) => Err(AllocError),
        Err(RefineFault::PortsDiffer) => Ok(refused(NameRefusal::PortsDiffer)),
        Err(RefineFault::Load { count }) => Ok(refused(NameRefusal::Rows { count })),
        Err(RefineFault::PivotLimit(place)) => Ok(limited(place)),
        Err(RefineFault::Wide(place)) => Ok(too_wide(place)),
    }
}

/// Whether the first contract refines the second one, or why that is not said.
pub(crate) fn refined(
    alloc: Global,
    left: &Contract,
    right: &Contract,
    limits: Limits,
) -> Result<LineAnswer, AllocError>
    ensures { IfOk result (λ answer. answer ≡ spec.refine_answer left.now (refined_of left.now right.now limits.pivots)) }
{
    let outcome = refine(alloc, left, right, limits.pivots);
    told(alloc, left, outcome)
}
