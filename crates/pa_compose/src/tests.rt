// Hidings of small contracts. The answers are worked by hand, or those of another program, which was written from the same
// description in Python.
ghost use Rattle.std.specs.Prelude.{◌↔◌, ◌≡◌, All, IsTrue, length};

use crate::{HideFault, hide};
use pa_cert::{Hidden, NamedStep};
use pa_contract::{Contract, make_from};
use pa_names::{Name, Names};
use pa_row::{Dropped, Group, Limits, Place, Row, Spot, Sub, Task, Weights};
use std::alloc::{AllocError, Global};
use std::fmt::Write;
use std::process::Abort;

fn names_of(rt: &impl Abort, alloc: Global, text: &str) -> Names {
    let mut names = Names::new(alloc);
    for word in text.split_whitespace() {
        let name = Name::read(alloc, word.as_bytes()).expect(rt, "a name");
        names.add(name).expect(rt, "a new name");
    }
    names
}

fn number_of(rt: &impl Abort, text: &str) -> i128 {
    i128::from(text.parse::<i64>().expect(rt, "a number"))
}

// The row with the numbers of a text, of which the last is the bound.
fn row_of(rt: &impl Abort, alloc: Global, text: &str) -> Row {
    let (front, bound) = text.rsplit_once(' ').unwrap_or(("", text));
    let b = number_of(rt, bound);
    let mut c = Vec::new(alloc);
    for word in front.split_whitespace() {
        c.push(number_of(rt, word)).expect(rt, "memory");
    }
    Row::checked(c, b).expect(rt, "a row")
}

// The rows of a text, each behind a comma but the first.
fn rows_of(rt: &impl Abort, alloc: Global, text: &str) -> Vec<Row> {
    let mut rows = Vec::new(alloc);
    for part in text.split(',') {
        if !part.trim().is_empty() {
            rows.push(row_of(rt, alloc, part.trim()))
                .expect(rt, "memory");
        }
    }
    rows
}

fn have_columns(rows: &[Row], columns: usize) -> bool
    ensures { IsTrue result ↔ All (λ row. length row.c ≡ columns) rows.now }
{
    rows.iter().all(|row| row.c.len() == columns)
}

// The contract of a text, as `x / y / 1 2 / 1 1 3, 0 1 4`.
fn contract_of(rt: &impl Abort, alloc: Global, text: &str) -> Contract {
    let (inputs, rest) = text.split_once(" / ").unwrap_or((text, ""));
    let (outputs, rest) = rest.split_once(" / ").unwrap_or((rest, ""));
    let (assumptions, guarantees) = rest.split_once(" / ").unwrap_or((rest, ""));
    let inputs = names_of(rt, alloc, inputs);
    let outputs = names_of(rt, alloc, outputs);
    let assumptions = rows_of(rt, alloc, assumptions);
    let guarantees = rows_of(rt, alloc, guarantees);
    let columns = inputs.len() as usize;
    let all = columns + outputs.len() as usize;
    assert!(rt; have_columns(&assumptions, columns) && have_columns(&guarantees, all));
    assert!(rt; assumptions.len() < 16 && guarantees.len() < 16);
    make_from(alloc, inputs, outputs, assumptions, guarantees).expect(rt, "a contract")
}

fn write_weights(text: &mut String, weights: &Weights) -> Result<(), AllocError> {
    let den = weights.den;
    write!(text, " {den}")?;
    for (place, number) in &weights.parts {
        write!(text, " {place}:{number}")?;
    }
    Ok(())
}

// The numbers of rows, each row behind a comma but the first.
fn write_rows(text: &mut String, rows: &[Row]) -> Result<(), AllocError> {
    for place in 0..rows.len() {
        if place > 0 {
            text.push_str(", ")?;
        }
        let row = &rows[place];
        for number in &row.c {
            write!(text, "{number} ")?;
        }
        let bound = row.b;
        write!(text, "{bound}")?;
    }
    Ok(())
}

fn write_drops(text: &mut String, drops: &[Dropped]) -> Result<(), AllocError> {
    for dropped in drops {
        let row = dropped.row;
        write!(text, ", drop {row}")?;
        write_weights(text, &dropped.weights)?;
    }
    Ok(())
}

fn write_group(text: &mut String, word: &str, group: Group, row: u32) -> Result<(), AllocError> {
    match group {
        Group::Thin => write!(text, " {word} thin {row}"),
        Group::Step(step) => write!(text, " {word} {step} {row}"),
    }
}

fn write_task(text: &mut String, task: Task) -> Result<(), AllocError> {
    match task {
        Task::Clean { group, row } => write_group(text, "clean", group, row),
        Task::Filter { group, row } => write_group(text, "filter", group, row),
        Task::Pairs { step, row } => write!(text, " pairs {step} {row}"),
        _ => text.push_str(" other"),
    }
}

// A place behind its word, as `wide filter 0 1 a read`, and as `wide pairs 1 0` of a task that solves no problem.
fn write_place(text: &mut String, word: &str, place: Place) -> Result<(), AllocError> {
    text.push_str(word)?;
    write_task(text, place.task)?;
    if !matches!(place.task, Task::Filter { .. }) {
        return Ok(());
    }
    match place.sub {
        Sub::Main => text.push_str(" a")?,
        Sub::Base => text.push_str(" b")?,
    }
    match place.spot {
        Spot::Load => Ok(()),
        Spot::Pivot { pivot, row, column } => write!(text, " pivot {pivot} {row} {column}"),
        Spot::Read => text.push_str(" read"),
        Spot::Check => text.push_str(" check"),
    }
}

fn write_name(text: &mut String, name: &Name) -> Result<(), AllocError> {
    for byte in name.bytes() {
        text.push(char::from(*byte))?;
    }
    Ok(())
}

fn write_names(text: &mut String, names: &Names) -> Result<(), AllocError> {
    for place in 0..names.len() {
        if place > 0 {
            text.push_str(" ")?;
        }
        write_name(text, names.at(place))?;
    }
    Ok(())
}

fn write_contract(text: &mut String, contract: &Contract) -> Result<(), AllocError> {
    write_names(text, &contract.inputs)?;
    text.push_str(" / ")?;
    write_names(text, &contract.outputs)?;
    text.push_str(" / ")?;
    write_rows(text, &contract.assumptions)?;
    text.push_str(" / ")?;
    write_rows(text, &contract.guarantees)
}

fn write_step(text: &mut String, step: &NamedStep) -> Result<(), AllocError> {
    text.push_str("; step ")?;
    match &step.name {
        Some(name) => write_name(text, name)?,
        None => text.push_str("-")?,
    }
    write_drops(text, &step.drops)
}

fn write_steps(text: &mut String, steps: &[NamedStep]) -> Result<(), AllocError> {
    for step in steps {
        write_step(text, step)?;
    }
    Ok(())
}

fn hidden_text(alloc: Global, hidden: Result<Hidden, HideFault>) -> Result<String, AllocError> {
    let mut text = String::new(alloc);
    match hidden {
        Ok(Hidden { contract, steps }) => {
            write_contract(&mut text, &contract)?;
            write_steps(&mut text, &steps.steps)?;
        }
        Err(HideFault::Memory) => text.push_str("memory")?,
        Err(HideFault::NotOutput { name }) => {
            text.push_str("not-output ")?;
            write_name(&mut text, &name)?;
        }
        Err(HideFault::Load { count }) => write!(text, "rows {count}")?,
        Err(HideFault::RowLimit { step, count }) => write!(text, "row-limit {step} {count}")?,
        Err(HideFault::PivotLimit(place)) => write_place(&mut text, "pivot-limit", place)?,
        Err(HideFault::Wide(place)) => write_place(&mut text, "wide", place)?,
    }
    Ok(text)
}

// A contract, the names that are hidden, how many rows a step and how many pivots a problem may have, and what is left.
const HIDINGS: &str = "\
i / x y /  / 0 1 0 0, 0 -1 0 -1 | x | 100 | 200 | i / y /  / 0 0 -1; step -; step x
i / x y /  / 0 1 0 0, 0 -1 0 -1 | i | 100 | 200 | not-output i
i / x y /  / 0 1 0 0, 0 -1 0 -1 | y q x | 100 | 200 | not-output q
 / x y z /  / 1 0 0 5, -1 0 0 1, -1 1 0 0, -1 0 1 0 | x | 2 | 200 | row-limit 1 3
 / x y z /  / 1 0 0 5, -1 0 0 1, -1 1 0 0, -1 0 1 0 | x | 100 | 200 |  / y z /  / 1 0 5, 0 1 5; step -; step x
 / x y z /  / 1 0 0 1, 0 1 0 1, 1 1 0 3 | z | 100 | 200 |  / x y /  / 1 0 1, 0 1 1; step -, drop 2 1 0:1 1:1; step z
 / x y z /  / 1 -1 0 0, -1 1 0 0, 1 0 0 5, -1 0 0 1, -1 0 1 0 | x | 3 | 200 |  / y z /  / 1 0 5, -1 0 1, -1 1 0; step -; step x
panel power / baseplate case junction / -1 0 20, 1 0 50, 0 -1 0, 0 1 12 / 1 0 -1 0 0 0, -5 -2 5 0 0 0, 0 0 1 -1 0 0, 0 -9 -10 10 0 20, 0 0 0 1 -1 0, 0 -5 0 -2 2 0 | baseplate case | 1024 | 4096 | panel power / junction / -1 0 20, 1 0 50, 0 -1 0, 0 1 12 / 0 -1 0 0, 1 0 -1 0, -5 -19 5 10; step -; step baseplate, drop 2 5 0:2 1:1; step case
panel power / baseplate case junction / -1 0 20, 1 0 50, 0 -1 0, 0 1 12 / 1 0 -1 0 0 0, -5 -2 5 0 0 0, 0 0 1 -1 0 0, 0 -9 -10 10 0 20, 0 0 0 1 -1 0, 0 -5 0 -2 2 0 | case baseplate | 1024 | 4096 | panel power / junction / -1 0 20, 1 0 50, 0 -1 0, 0 1 12 / 0 -1 0 0, 1 0 -1 0, -5 -19 5 10; step -; step baseplate, drop 2 5 0:2 1:1; step case
panel power / baseplate case junction / -1 0 20, 1 0 50, 0 -1 0, 0 1 12 / 1 0 -1 0 0 0, -5 -2 5 0 0 0, 0 0 1 -1 0 0, 0 -9 -10 10 0 20, 0 0 0 1 -1 0, 0 -5 0 -2 2 0 | junction baseplate case | 1024 | 4096 | panel power /  / -1 0 20, 1 0 50, 0 -1 0, 0 1 12 / 0 -1 0; step -; step baseplate, drop 2 5 0:2 1:1; step case; step junction
a / b c / 1 3, 2 7 / 1 -1 1 2, 0 1 1 3, -1 0 2 1, 0 0 -1 4 | c b | 100 | 200 | a /  / 1 3, 2 7 / -1 9, 1 13; step -; step b; step c
a / b c / 1 3, 2 7 / 1 -1 1 2, 0 1 1 3, -1 0 2 1, 0 0 -1 4 | b | 3 | 200 | a / c / 1 3, 2 7 / -1 2 1, 0 -1 4, 1 2 5; step -; step b
a / b c / 1 3, 2 7 / 1 -1 1 2, 0 1 1 3, -1 0 2 1, 0 0 -1 4 | b | 1 | 200 | row-limit 1 3
a / b c / 1 3, 2 7 / 1 -1 1 2, 0 1 1 3, -1 0 2 1, 0 0 -1 4 | b | 100 | 1 | pivot-limit filter 0 1 a
 / x /  / 1 3, -1 -4 | x | 100 | 200 |  /  /  / -1; step -; step x
 / x y /  / 1 999999999999999998 0, -999999999999999997 -1 5, 1 0 5 | x y | 100 | 200 | wide pairs 2 0
 / x y /  / 999999999999999998 1 1, 1 999999999999999989 5, 1 1 1 | x | 100 | 200 | wide filter 0 2 a pivot 2 0 2
 / x y /  / -999999999999999997 1 5, 1 999999999999999989 1, 1 1 1 | x y | 100 | 200 | wide clean 1 0
 / x /  / -1 3 | x | 100 | 200 |  /  /  / ; step -; step x";

// The parts of a line of a table.
fn parts_of<'a>(line: &'a str) -> [&'a str; 5] {
    let mut parts = [""; 5];
    let mut rest = line;
    for i in 0..5 {
        let (part, more) = rest.split_once(" | ").unwrap_or((rest, ""));
        parts[i] = part;
        rest = more;
    }
    parts
}

fn small(rt: &impl Abort, text: &str) -> u32 {
    u32::from(text.parse::<u16>().expect(rt, "a number"))
}

fn limits_of(rt: &impl Abort, rows: &str, pivots: &str) -> Limits {
    let rows = small(rt, rows);
    let pivots = small(rt, pivots);
    assert!(rt; 1 <= rows && rows <= 4096);
    assert!(rt; 1 <= pivots && pivots <= 4096);
    Limits { rows, pivots }
}

fn assert_hiding(rt: &impl Abort, alloc: Global, line: &str) {
    let [contract, names, limit, most, wanted] = parts_of(line);
    let contract = contract_of(rt, alloc, contract);
    let names = names_of(rt, alloc, names);
    let limits = limits_of(rt, limit, most);
    let hidden = hide(alloc, &contract, &names, limits);
    let text = hidden_text(alloc, hidden).expect(rt, "memory");
    assert_eq!(rt; text.as_str(), wanted, "{line}");
}

#[test]
fn outputs_are_hidden_with_steps_or_a_refusal_is_due(rt: HostRuntime) {
    for line in HIDINGS.lines() {
        assert_hiding(&rt, rt.alloc(), line);
    }
}

// A contract with this many guarantees, each another bound of its one output.
fn with_guarantees(rt: &impl Abort, alloc: Global, count: u16) -> Contract {
    let mut guarantees = Vec::new(alloc);
    for bound in 0..count {
        let mut c = Vec::new(alloc);
        c.push(1).expect(rt, "memory");
        let row = Row::checked(c, i128::from(bound)).expect(rt, "a row");
        guarantees.push(row).expect(rt, "memory");
    }
    let inputs = Names::new(alloc);
    let outputs = names_of(rt, alloc, "x");
    let columns = (inputs.len() + outputs.len()) as usize;
    assert!(rt; have_columns(&guarantees, columns) && guarantees.len() < 5000);
    make_from(alloc, inputs, outputs, Vec::new(alloc), guarantees).expect(rt, "a contract")
}

#[test]
fn more_rows_than_an_operation_takes_are_refused(rt: HostRuntime) {
    let alloc = rt.alloc();
    let names = names_of(&rt, alloc, "x");
    let limits = Limits { rows: 1, pivots: 1 };
    let full = with_guarantees(&rt, alloc, 4096);
    let text = hidden_text(alloc, hide(alloc, &full, &names, limits)).expect(&rt, "memory");
    assert_eq!(rt; text.as_str(), " /  /  / ; step -; step x");
    let over = with_guarantees(&rt, alloc, 4097);
    let text = hidden_text(alloc, hide(alloc, &over, &names, limits)).expect(&rt, "memory");
    assert_eq!(rt; text.as_str(), "rows 4097");
}
