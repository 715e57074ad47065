// The rows that were dropped, the steps of an elimination, and the rounds of a composition.
ghost use Rattle.std.specs.Prelude.{◌≡◌, ◌++◌, OnOk};
ghost use Rattle.pa_cert.specs.AnswerText as spec;

use crate::NamedStep;
use crate::pieces::{push_number, push_weights, push_weights_line};
use pa_names::Name;
use pa_row::{Dropped, Weights};
use std::alloc::AllocError;

// A row that was dropped, and the weights that prove it.
fn push_drop(text: &mut Vec<u8>, drop: &Dropped) -> Result<(), AllocError>
    ensures { OnOk result (text.new.items ≡ text.old.items ++ spec.drop_line drop.now) }
{
    text.extend_from_slice(b"drop ")?;
    push_number(text, u64::from(drop.row))?;
    text.extend_from_slice(b" ")?;
    push_weights(text, &drop.weights)?;
    text.extend_from_slice(b"\n")
}

fn push_drops(text: &mut Vec<u8>, drops: &[Dropped]) -> Result<(), AllocError>
    ensures { OnOk result (text.new.items ≡ text.old.items ++ spec.drops_text drops.now) }
{
    for drop in drops {
        push_drop(text, drop)?;
    }
    Ok(())
}

// The rows that were thinned.
pub(crate) fn push_thin(text: &mut Vec<u8>, drops: &[Dropped]) -> Result<(), AllocError>
    ensures { OnOk result (text.new.items ≡ text.old.items ++ spec.thin_text drops.now) }
{
    text.extend_from_slice(b"thin\n")?;
    push_drops(text, drops)
}

// The name that goes.
fn push_step_name(text: &mut Vec<u8>, name: &Option<Name>) -> Result<(), AllocError>
    ensures { OnOk result (text.new.items ≡ text.old.items ++ spec.step_name name.now) }
{
    match name {
        Some(name) => text.extend_from_slice(name.bytes()),
        None => text.extend_from_slice(b"-"),
    }
}

// A step of an elimination.
fn push_step(text: &mut Vec<u8>, step: &NamedStep) -> Result<(), AllocError>
    ensures { OnOk result (text.new.items ≡ text.old.items ++ spec.step_text step.now) }
{
    text.extend_from_slice(b"step ")?;
    push_step_name(text, &step.name)?;
    text.extend_from_slice(b"\n")?;
    push_drops(text, &step.drops)
}

pub(crate) fn push_steps(text: &mut Vec<u8>, steps: &[NamedStep]) -> Result<(), AllocError>
    ensures { OnOk result (text.new.items ≡ text.old.items ++ spec.steps_text steps.now) }
{
    for step in steps {
        push_step(text, step)?;
    }
    Ok(())
}

// Weights that bring rows to other columns.
pub(crate) fn push_shifts(text: &mut Vec<u8>, shifts: &[Weights]) -> Result<(), AllocError>
    ensures { OnOk result (text.new.items ≡ text.old.items ++ spec.shifts_text shifts.now) }
{
    for weights in shifts {
        push_weights_line(text, "shift ", weights)?;
    }
    Ok(())
}
