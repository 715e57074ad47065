// The steps of an elimination, each with the name that goes.
ghost use Rattle.std.specs.Prelude.{◌≡◌, ◌<◌, ◌+◌, ◌++◌, ◌∷◌, [], IfOk, None, Some, length, get_or};
ghost use Rattle.pa_compose.specs.Hiding as spec;

use pa_cert::{NamedStep, Steps};
use pa_names::Name;
use pa_row::Step;
use std::alloc::{AllocError, Global};

// The name of the step with this number: the step of the given rows has none.
fn name_of(alloc: Global, names: &[Name], step: usize) -> Result<Option<Name>, AllocError>
    requires { step < length names.now + 1 }
    ensures { IfOk result (λ name. name ≡ spec.name_of names.now step) }
{
    if step == 0 {
        return Ok(None);
    }
    match names[step - 1].copy(alloc) {
        Ok(name) => Ok(Some(name)),
        Err(_) => Err(AllocError),
    }
}

// The steps so far and one more.
fn with_next(
    alloc: Global,
    mut steps: Vec<NamedStep>,
    names: &[Name],
    step: Step,
) -> Result<Vec<NamedStep>, AllocError>
    requires { length steps.items < length names.now + 1 }
    ensures { IfOk result (λ all. all.items ≡ steps.items ++ spec.named_step names.now (length steps.items) step ∷ []) }
{
    let name = name_of(alloc, names, steps.len())?;
    let Step { drops } = step;
    steps.push(NamedStep { name, drops })?;
    Ok(steps)
}

/// The steps with their names: the first has none, and each other one the name that goes in it.
pub(crate) fn named(alloc: Global, names: &[Name], steps: Vec<Step>) -> Result<Steps, AllocError>
    requires { length steps.items ≡ length names.now + 1 }
    ensures { IfOk result (λ all. all ≡ spec.named_steps names.now 0 steps.items) }
{
    let mut all = Vec::with_capacity(alloc, steps.len())?;
    for step in steps {
        all = match with_next(alloc, all, names, step) {
            Ok(more) => more,
            Err(fault) => return Err(fault),
        };
    }
    Ok(Steps { steps: all })
}
