// The texts of refusals.
ghost use Rattle.std.specs.Prelude.{◌≡◌, ◌++◌, OnOk, unwrap_or, slice_get, []};
ghost use Rattle.pa_cert.specs.AnswerText as spec;

use crate::pieces::{push_count_line, push_direction, push_name_line, push_number};
use crate::{Heading, NameRefusal, StuckRow};
use pa_names::Name;
use pa_script::Op;
use std::alloc::AllocError;

// The name at a place, and nothing behind the last one.
fn push_name_at(text: &mut Vec<u8>, names: &[Name], place: usize) -> Result<(), AllocError>
    ensures { OnOk result (text.new.items ≡ text.old.items ++ unwrap_or (slice_get names.now place) []) }
{
    match names.get(place) {
        Some(name) => text.extend_from_slice(name.bytes()),
        None => Ok(()),
    }
}

// The name that a composition's line has at a place.
pub(crate) fn push_part_name(text: &mut Vec<u8>, op: &Op, place: usize) -> Result<(), AllocError>
    ensures { OnOk result (text.new.items ≡ text.old.items ++ spec.part_name op.now place) }
{
    match op {
        Op::Compose { parts, .. } => push_name_at(text, &parts.names, place),
        Op::LimitRows { .. }
        | Op::LimitPivots { .. }
        | Op::Merge { .. }
        | Op::Test { .. }
        | Op::Refine { .. }
        | Op::Bound { .. }
        | Op::Hide { .. }
        | Op::Quotient { .. } => Ok(()),
    }
}

// Names, ports or counts refuse.
pub(crate) fn push_refusal(text: &mut Vec<u8>, refusal: &NameRefusal) -> Result<(), AllocError>
    ensures { OnOk result (text.new.items ≡ text.old.items ++ spec.refusal_text refusal.now) }
{
    match refusal {
        NameRefusal::UnknownPort { name } => push_name_line(text, "refused unknown-port ", name),
        NameRefusal::PortClash { name } => push_name_line(text, "refused port-clash ", name),
        NameRefusal::NotOutput { name } => push_name_line(text, "refused not-output ", name),
        NameRefusal::PortsDiffer => text.extend_from_slice(b"refused ports-differ\n"),
        NameRefusal::Variables { count } => {
            push_count_line(text, "refused variables ", u64::from(*count))
        }
        NameRefusal::Rows { count } => push_count_line(text, "refused rows ", u64::from(*count)),
    }
}

// An assumption of a part that no weights give, behind a word.
pub(crate) fn push_stuck(
    text: &mut Vec<u8>,
    word: &str,
    op: &Op,
    stuck: &StuckRow,
) -> Result<(), AllocError>
    ensures { OnOk result (text.new.items ≡ text.old.items ++ spec.stuck_text word.now op.now stuck.now) }
{
    text.extend_from_slice(word.as_bytes())?;
    push_part_name(text, op, stuck.part as usize)?;
    text.extend_from_slice(b" ")?;
    push_number(text, u64::from(stuck.row))?;
    text.extend_from_slice(b"\n")?;
    push_direction(text, &stuck.direction)
}

// A guarantee of the dividend that no weights give.
pub(crate) fn push_stuck_row(
    text: &mut Vec<u8>,
    row: u32,
    direction: &Heading,
) -> Result<(), AllocError>
    ensures { OnOk result (text.new.items ≡ text.old.items ++ spec.stuck_row_text row direction.now) }
{
    push_count_line(text, "refused no-multipliers ", u64::from(row))?;
    push_direction(text, direction)
}

fn push_all_stuck(text: &mut Vec<u8>, op: &Op, stuck: &[StuckRow]) -> Result<(), AllocError>
    ensures { OnOk result (text.new.items ≡ text.old.items ++ spec.all_stuck_text op.now stuck.now) }
{
    for one in stuck {
        push_stuck(text, "stuck ", op, one)?;
    }
    Ok(())
}

// The parts that wait for one another.
pub(crate) fn push_circle(text: &mut Vec<u8>, op: &Op, stuck: &[StuckRow]) -> Result<(), AllocError>
    ensures { OnOk result (text.new.items ≡ text.old.items ++ spec.circle_text op.now stuck.now) }
{
    text.extend_from_slice(b"refused circle\n")?;
    push_all_stuck(text, op, stuck)
}

// A word, a step, and how many rows it would have.
pub(crate) fn push_step_line(
    text: &mut Vec<u8>,
    word: &str,
    step: u32,
    count: u64,
) -> Result<(), AllocError>
    ensures { OnOk result (text.new.items ≡ text.old.items ++ spec.step_line word.now step count) }
{
    text.extend_from_slice(word.as_bytes())?;
    push_number(text, u64::from(step))?;
    text.extend_from_slice(b" ")?;
    push_number(text, count)?;
    text.extend_from_slice(b"\n")
}
