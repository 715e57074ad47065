// The texts of answers and of the report.
ghost use Rattle.std.specs.Prelude.{◌≡◌, ◌++◌, [], OnOk};
ghost use Rattle.pa_cert.specs.AnswerText as spec;

use crate::contracts::{push_contract, push_tested, push_yes};
use crate::evidence::{push_shifts, push_steps, push_thin};
use crate::pieces::{
    push_count_line, push_direction, push_name_line, push_number, push_point, push_weights_line,
};
use crate::places::{push_task_line, push_too_wide};
use crate::refused::{
    push_circle, push_part_name, push_refusal, push_step_line, push_stuck, push_stuck_row,
};
use crate::{Answer, Composed, Divided, Heading, Hidden, LineAnswer, Located};
use pa_row::{Discharge, Weights};
use pa_script::{Op, ScriptLine, push_fraction, push_op};
use std::alloc::AllocError;

// A row that a point breaks.
fn push_no(text: &mut Vec<u8>, kind: &str, row: u32, at: &Located) -> Result<(), AllocError>
    ensures { OnOk result (text.new.items ≡ text.old.items ++ spec.no_text kind.now row at.now) }
{
    push_count_line(text, kind, u64::from(row))?;
    push_point(text, at)
}

// The line of a bound.
fn push_bound(text: &mut Vec<u8>, num: i128, den: i128) -> Result<(), AllocError>
    ensures { OnOk result (text.new.items ≡ text.old.items ++ spec.bound_line num den) }
{
    text.extend_from_slice(b"value ")?;
    push_fraction(text, num, den)?;
    text.extend_from_slice(b"\n")
}

// The weights that prove a bound, and the point that takes it.
fn push_shown(text: &mut Vec<u8>, weights: &Weights, at: &Located) -> Result<(), AllocError>
    ensures { OnOk result (text.new.items ≡ text.old.items ++ spec.shown_text weights.now at.now) }
{
    push_weights_line(text, "weights ", weights)?;
    push_point(text, at)
}

// A bound, the weights that prove it, and the point that takes it.
fn push_value(
    text: &mut Vec<u8>,
    num: i128,
    den: i128,
    weights: &Weights,
    at: &Located,
) -> Result<(), AllocError>
    ensures { OnOk result (text.new.items ≡ text.old.items ++ spec.value_text num den weights.now at.now) }
{
    push_bound(text, num, den)?;
    push_shown(text, weights, at)
}

// A point, and a direction in which the goal grows for ever.
fn push_unbounded(text: &mut Vec<u8>, at: &Located, direction: &Heading) -> Result<(), AllocError>
    ensures { OnOk result (text.new.items ≡ text.old.items ++ spec.unbounded_text at.now direction.now) }
{
    text.extend_from_slice(b"unbounded\n")?;
    push_point(text, at)?;
    push_direction(text, direction)
}

// The weights that show that no point meets the rows.
fn push_nothing(text: &mut Vec<u8>, weights: &Weights) -> Result<(), AllocError>
    ensures { OnOk result (text.new.items ≡ text.old.items ++ spec.nothing_text weights.now) }
{
    text.extend_from_slice(b"nothing\n")?;
    push_weights_line(text, "weights ", weights)
}

// A contract without some of its outputs.
fn push_hidden(text: &mut Vec<u8>, hidden: &Hidden) -> Result<(), AllocError>
    ensures { OnOk result (text.new.items ≡ text.old.items ++ spec.hidden_text hidden.now) }
{
    push_contract(text, &[], &hidden.contract)?;
    push_steps(text, &hidden.steps.steps)
}

// A part of a composition, its round and its weights.
fn push_discharge(
    text: &mut Vec<u8>,
    op: &Op,
    place: usize,
    discharge: &Discharge,
) -> Result<(), AllocError>
    ensures { OnOk result (text.new.items ≡ text.old.items ++ spec.discharge_text op.now place discharge.now) }
{
    text.extend_from_slice(b"part ")?;
    push_part_name(text, op, place)?;
    push_count_line(text, " ", u64::from(discharge.round))?;
    push_shifts(text, &discharge.shifts)
}

fn push_discharges(text: &mut Vec<u8>, op: &Op, discharges: &[Discharge]) -> Result<(), AllocError>
    ensures { OnOk result (text.new.items ≡ text.old.items ++ spec.discharges_text op.now 0 discharges.now) }
{
    for (place, discharge) in discharges.iter().enumerate() {
        push_discharge(text, op, place, discharge)?;
    }
    Ok(())
}

// A composite.
fn push_composed(text: &mut Vec<u8>, op: &Op, composed: &Composed) -> Result<(), AllocError>
    ensures { OnOk result (text.new.items ≡ text.old.items ++ spec.composed_text op.now composed.now) }
{
    push_contract(text, &[], &composed.contract)?;
    push_discharges(text, op, &composed.discharges.parts)?;
    push_thin(text, &composed.thin.drops)?;
    push_steps(text, &composed.steps.steps)
}

// A quotient.
fn push_divided(text: &mut Vec<u8>, divided: &Divided) -> Result<(), AllocError>
    ensures { OnOk result (text.new.items ≡ text.old.items ++ spec.divided_text divided.now) }
{
    push_contract(text, &divided.narrow.marks, &divided.contract)?;
    push_shifts(text, &divided.shifts.weights)?;
    push_thin(text, &divided.thin.drops)
}

// What an answer to an operation says.
fn push_body(text: &mut Vec<u8>, op: &Op, answer: &Answer) -> Result<(), AllocError>
    ensures { OnOk result (text.new.items ≡ text.old.items ++ spec.body_text op.now answer.now) }
{
    match answer {
        Answer::Merged { contract } => push_contract(text, &[], contract),
        Answer::TestedAs { tested } => push_tested(text, tested),
        Answer::Yes {
            assumptions,
            guarantees,
        } => push_yes(text, &assumptions.weights, &guarantees.weights),
        Answer::NoAssumption { row, at } => push_no(text, "no assume ", *row, at),
        Answer::NoGuarantee { row, at } => push_no(text, "no guarantee ", *row, at),
        Answer::Value {
            num,
            den,
            weights,
            at,
        } => push_value(text, *num, *den, weights, at),
        Answer::Unbounded { at, direction } => push_unbounded(text, at, direction),
        Answer::Nothing { weights } => push_nothing(text, weights),
        Answer::Hidden { answer } => push_hidden(text, answer),
        Answer::Composed { answer } => push_composed(text, op, answer),
        Answer::Divided { answer } => push_divided(text, answer),
        Answer::Refused { refusal } => push_refusal(text, refusal),
        Answer::NoMultipliers { stuck } => push_stuck(text, "refused no-multipliers ", op, stuck),
        Answer::NoMultipliersFor { row, direction } => push_stuck_row(text, *row, direction),
        Answer::Circle { stuck } => push_circle(text, op, &stuck.stuck),
        Answer::RowLimit { step, count } => push_step_line(
            text,
            "refused row-limit ",
            *step,
            *count,
        ),
        Answer::PivotLimit { task, sub } => push_task_line(
            text,
            "refused pivot-limit ",
            task,
            *sub,
        ),
        Answer::TooWide { place } => push_too_wide(text, place),
    }
}

// What the answer to a line says.
fn push_line_body(text: &mut Vec<u8>, op: &Op, answer: &LineAnswer) -> Result<(), AllocError>
    ensures { OnOk result (text.new.items ≡ text.old.items ++ spec.line_body op.now answer.now) }
{
    match answer {
        LineAnswer::Set => text.extend_from_slice(b"ok\n"),
        LineAnswer::Unknown { name } => push_name_line(text, "refused unknown ", name),
        LineAnswer::Taken { name } => push_name_line(text, "refused taken ", name),
        LineAnswer::Answered { answer } => push_body(text, op, answer),
    }
}

/// Adds the text of an answer: `@`, the number of its script line and the line itself, and then what the
/// answer says. Of an answer that has not the form of its line it says what it can, as no name for a part
/// that the line has not.
pub fn push_answer(
    text: &mut Vec<u8>,
    line: &ScriptLine,
    answer: &LineAnswer,
) -> Result<(), AllocError>
    ensures { OnOk result (text.new.items ≡ text.old.items ++ spec.answer_text (record { line = line.now; answer = answer.now })) }
{
    text.extend_from_slice(b"@")?;
    push_number(text, u64::from(line.number))?;
    text.extend_from_slice(b" ")?;
    push_op(text, &line.op)?;
    text.extend_from_slice(b"\n")?;
    push_line_body(text, &line.op, answer)
}

/// Adds the first line of a report.
pub fn push_first_line(text: &mut Vec<u8>) -> Result<(), AllocError>
    ensures { OnOk result (text.new.items ≡ text.old.items ++ spec.first_line) }
{
    text.extend_from_slice(b"pacti report 2\n")
}

/// Adds the last line of a report, which has the number of answers.
pub fn push_end(text: &mut Vec<u8>, count: u64) -> Result<(), AllocError>
    ensures { OnOk result (text.new.items ≡ text.old.items ++ spec.end_line count) }
{
    push_count_line(text, "end ", count)
}
