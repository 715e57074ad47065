// The texts of the places where an operation stopped.
ghost use Rattle.std.specs.Prelude.{◌≡◌, ◌++◌, OnOk};
ghost use Rattle.pa_cert.specs.PlaceText as spec;

use crate::pieces::push_number;
use pa_row::{Group, Place, Spot, Sub, Task};
use std::alloc::AllocError;

// The thinned rows, or a step.
fn push_group(text: &mut Vec<u8>, group: Group) -> Result<(), AllocError>
    ensures { OnOk result (text.new.items ≡ text.old.items ++ spec.group_text group) }
{
    match group {
        Group::Thin => text.extend_from_slice(b"thin"),
        Group::Step(step) => push_number(text, u64::from(step)),
    }
}

// A word, and then numbers with a space between.
fn push_one(text: &mut Vec<u8>, word: &str, a: u32) -> Result<(), AllocError>
    ensures { OnOk result (text.new.items ≡ text.old.items ++ spec.one_text word.now a) }
{
    text.extend_from_slice(word.as_bytes())?;
    push_number(text, u64::from(a))
}

fn push_two(text: &mut Vec<u8>, word: &str, a: u32, b: u32) -> Result<(), AllocError>
    ensures { OnOk result (text.new.items ≡ text.old.items ++ spec.two_text word.now a b) }
{
    text.extend_from_slice(word.as_bytes())?;
    push_number(text, u64::from(a))?;
    text.extend_from_slice(b" ")?;
    push_number(text, u64::from(b))
}

fn push_three(text: &mut Vec<u8>, word: &str, a: u32, b: u32, c: u32) -> Result<(), AllocError>
    ensures { OnOk result (text.new.items ≡ text.old.items ++ spec.three_text word.now a b c) }
{
    text.extend_from_slice(word.as_bytes())?;
    push_number(text, u64::from(a))?;
    text.extend_from_slice(b" ")?;
    push_number(text, u64::from(b))?;
    text.extend_from_slice(b" ")?;
    push_number(text, u64::from(c))
}

// A word, a group, and the number of its row.
fn push_in_group(text: &mut Vec<u8>, word: &str, group: Group, row: u32) -> Result<(), AllocError>
    ensures { OnOk result (text.new.items ≡ text.old.items ++ spec.in_group_text word.now group row) }
{
    text.extend_from_slice(word.as_bytes())?;
    push_group(text, group)?;
    text.extend_from_slice(b" ")?;
    push_number(text, u64::from(row))
}

// What an operation does.
fn push_task(text: &mut Vec<u8>, task: &Task) -> Result<(), AllocError>
    ensures { OnOk result (text.new.items ≡ text.old.items ++ spec.task_text task.now) }
{
    match task {
        Task::Sum { row } => push_one(text, "row ", *row),
        Task::Cover { row } => push_one(text, "cover ", *row),
        Task::Goal => text.extend_from_slice(b"goal"),
        Task::Nominal => text.extend_from_slice(b"nominal"),
        Task::Shift { round, part, row } => push_three(text, "shift ", *round, *part, *row),
        Task::Whole { part, row } => push_two(text, "whole ", *part, *row),
        Task::Clean { group, row } => push_in_group(text, "clean ", *group, *row),
        Task::Filter { group, row } => push_in_group(text, "filter ", *group, *row),
        Task::Pairs { step, row } => push_two(text, "pairs ", *step, *row),
    }
}

// The problem of a task.
fn push_sub(text: &mut Vec<u8>, sub: Sub) -> Result<(), AllocError>
    ensures { OnOk result (text.new.items ≡ text.old.items ++ spec.sub_text sub) }
{
    match sub {
        Sub::Main => text.extend_from_slice(b"a"),
        Sub::Base => text.extend_from_slice(b"b"),
    }
}

// A spot in the solving of a problem.
fn push_spot(text: &mut Vec<u8>, spot: &Spot) -> Result<(), AllocError>
    ensures { OnOk result (text.new.items ≡ text.old.items ++ spec.spot_text spot.now) }
{
    match spot {
        Spot::Load => text.extend_from_slice(b"load"),
        Spot::Pivot { pivot, row, column } => push_three(text, "pivot ", *pivot, *row, *column),
        Spot::Read => text.extend_from_slice(b"read"),
        Spot::Check => text.extend_from_slice(b"check"),
    }
}

// The problem and the spot.
fn push_problem(text: &mut Vec<u8>, place: &Place) -> Result<(), AllocError>
    ensures { OnOk result (text.new.items ≡ text.old.items ++ spec.problem_text place.now) }
{
    text.extend_from_slice(b" ")?;
    push_sub(text, place.sub)?;
    text.extend_from_slice(b" ")?;
    push_spot(text, &place.spot)
}

// What stands behind a task: nothing where it solves no problem.
fn push_behind(text: &mut Vec<u8>, task: &Task, place: &Place) -> Result<(), AllocError>
    ensures { OnOk result (text.new.items ≡ text.old.items ++ spec.behind_text task.now place.now) }
{
    match task {
        Task::Sum { .. } | Task::Nominal | Task::Clean { .. } | Task::Pairs { .. } => Ok(()),
        Task::Cover { .. }
        | Task::Goal
        | Task::Shift { .. }
        | Task::Whole { .. }
        | Task::Filter { .. } => push_problem(text, place),
    }
}

// A place: the task, and where it solves a problem the problem and the spot.
fn push_place(text: &mut Vec<u8>, place: &Place) -> Result<(), AllocError>
    ensures { OnOk result (text.new.items ≡ text.old.items ++ spec.place_text place.now) }
{
    push_task(text, &place.task)?;
    push_behind(text, &place.task, place)
}

// The line of a number that passes 126 bits.
pub(crate) fn push_too_wide(text: &mut Vec<u8>, place: &Place) -> Result<(), AllocError>
    ensures { OnOk result (text.new.items ≡ text.old.items ++ spec.too_wide_line place.now) }
{
    text.extend_from_slice(b"refused wide ")?;
    push_place(text, place)?;
    text.extend_from_slice(b"\n")
}

// A word, a task, and the problem of it that was solved last.
pub(crate) fn push_task_line(
    text: &mut Vec<u8>,
    word: &str,
    task: &Task,
    sub: Sub,
) -> Result<(), AllocError>
    ensures { OnOk result (text.new.items ≡ text.old.items ++ spec.task_line word.now task.now sub) }
{
    text.extend_from_slice(word.as_bytes())?;
    push_task(text, task)?;
    text.extend_from_slice(b" ")?;
    push_sub(text, sub)?;
    text.extend_from_slice(b"\n")
}
