// Eliminations of small lists. The answers are worked by hand, or those of another program, which was written from the same
// description in Python.
ghost use Rattle.std.specs.Prelude.{◌↔◌, ◌≡◌, All, IsTrue, length};
ghost use Rattle.pa_elim.specs.Meant.{AreColumns};

use crate::{ElimFault, Projected, eliminate};
use pa_row::{Dropped, Group, Limits, Place, Row, Spot, Sub, Task, Weights};
use std::alloc::{AllocError, Global};
use std::fmt::Write;
use std::process::Abort;

fn number_of(rt: &impl Abort, text: &str) -> i128 {
    i128::from(text.parse::<i64>().expect(rt, "a number"))
}

// The row with the numbers of a text, of which the last is the bound.
fn row_of(rt: &impl Abort, alloc: Global, text: &str) -> Row {
    let (front, bound) = text.rsplit_once(' ').unwrap_or(("", text));
    let b = number_of(rt, bound);
    let mut c = Vec::new(alloc);
    for word in front.split_whitespace() {
        c.push(number_of(rt, word)).expect(rt, "memory");
    }
    Row::checked(c, b).expect(rt, "a row")
}

// The rows of a text, each behind a comma but the first.
fn rows_of(rt: &impl Abort, alloc: Global, text: &str) -> Vec<Row> {
    let mut rows = Vec::new(alloc);
    for part in text.split(',') {
        if !part.trim().is_empty() {
            rows.push(row_of(rt, alloc, part.trim()))
                .expect(rt, "memory");
        }
    }
    rows
}

fn have_columns(rows: &[Row], columns: usize) -> bool
    ensures { IsTrue result ↔ All (λ row. length row.c ≡ columns) rows.now }
{
    rows.iter().all(|row| row.c.len() == columns)
}

fn places_of(rt: &impl Abort, alloc: Global, text: &str) -> Vec<u32> {
    let mut places = Vec::new(alloc);
    for word in text.split_whitespace() {
        let place = u32::from(word.parse::<u8>().expect(rt, "a column"));
        places.push(place).expect(rt, "memory");
    }
    places
}

fn write_weights(text: &mut String, weights: &Weights) -> Result<(), AllocError> {
    let den = weights.den;
    write!(text, " {den}")?;
    for (place, number) in &weights.parts {
        write!(text, " {place}:{number}")?;
    }
    Ok(())
}

// The numbers of rows, each row behind a comma but the first.
fn write_rows(text: &mut String, rows: &[Row]) -> Result<(), AllocError> {
    for place in 0..rows.len() {
        if place > 0 {
            text.push_str(", ")?;
        }
        let row = &rows[place];
        for number in &row.c {
            write!(text, "{number} ")?;
        }
        let bound = row.b;
        write!(text, "{bound}")?;
    }
    Ok(())
}

fn write_drops(text: &mut String, drops: &[Dropped]) -> Result<(), AllocError> {
    for dropped in drops {
        let row = dropped.row;
        write!(text, ", drop {row}")?;
        write_weights(text, &dropped.weights)?;
    }
    Ok(())
}

fn write_group(text: &mut String, word: &str, group: Group, row: u32) -> Result<(), AllocError> {
    match group {
        Group::Thin => write!(text, " {word} thin {row}"),
        Group::Step(step) => write!(text, " {word} {step} {row}"),
    }
}

fn write_task(text: &mut String, task: Task) -> Result<(), AllocError> {
    match task {
        Task::Clean { group, row } => write_group(text, "clean", group, row),
        Task::Filter { group, row } => write_group(text, "filter", group, row),
        Task::Pairs { step, row } => write!(text, " pairs {step} {row}"),
        _ => text.push_str(" other"),
    }
}

// A place behind its word, as `wide filter 0 1 a read`, and as `wide pairs 1 0` of a task that solves no problem.
fn write_place(text: &mut String, word: &str, place: Place) -> Result<(), AllocError> {
    text.push_str(word)?;
    write_task(text, place.task)?;
    if !matches!(place.task, Task::Filter { .. }) {
        return Ok(());
    }
    match place.sub {
        Sub::Main => text.push_str(" a")?,
        Sub::Base => text.push_str(" b")?,
    }
    match place.spot {
        Spot::Load => Ok(()),
        Spot::Pivot { pivot, row, column } => write!(text, " pivot {pivot} {row} {column}"),
        Spot::Read => text.push_str(" read"),
        Spot::Check => text.push_str(" check"),
    }
}

fn projected_text(
    alloc: Global,
    projected: Result<Projected, ElimFault>,
) -> Result<String, AllocError> {
    let mut text = String::new(alloc);
    match projected {
        Ok(projected) => {
            text.push_str("rows")?;
            if !projected.rows.is_empty() {
                text.push_str(" ")?;
            }
            write_rows(&mut text, &projected.rows)?;
            for step in &projected.steps {
                text.push_str("; step")?;
                write_drops(&mut text, &step.drops)?;
            }
        }
        Err(ElimFault::Memory) => text.push_str("memory")?,
        Err(ElimFault::RowLimit { step, count }) => write!(text, "row-limit {step} {count}")?,
        Err(ElimFault::PivotLimit(place)) => write_place(&mut text, "pivot-limit", place)?,
        Err(ElimFault::Wide(place)) => write_place(&mut text, "wide", place)?,
    }
    Ok(text)
}

// How many columns, the rows, the columns that go, how many rows a step and how many pivots a problem may have, and what is
// left.
const ELIMINATIONS: &str = "\
3 | 0 1 0 0, 0 -1 0 -1 | 1 | 100 | 200 | rows 0 0 -1; step; step
3 | 1 0 0 5, -1 0 0 1, -1 1 0 0, -1 0 1 0 | 0 | 2 | 200 | row-limit 1 3
3 | 1 0 0 5, -1 0 0 1, -1 1 0 0, -1 0 1 0 | 0 | 3 | 200 | rows 1 0 5, 0 1 5; step; step
3 | 1 0 0 1, 0 1 0 1, 1 1 0 3 | 2 | 100 | 200 | rows 1 0 1, 0 1 1; step, drop 2 1 0:1 1:1; step
3 | 1 -1 0 0, -1 1 0 0, 1 0 0 5, -1 0 0 1, -1 0 1 0 | 0 | 3 | 200 | rows 1 0 5, -1 0 1, -1 1 0; step; step
3 | 1 1 1 2, -1 0 1 3 |  | 100 | 200 | rows 1 1 1 2, -1 0 1 3; step
2 |  | 1 0 | 100 | 200 | rows; step; step; step
2 | 0 0 -3, 1 1 4 | 0 1 | 100 | 200 | rows -1; step; step; step
4 | 0 1 1 -3 -1, 0 1 2 0 1, 0 0 -1 1 1, 0 0 -1 0 6 | 0 2 | 100 | 200 | rows 1 -2 0, 1 -3 5, 1 2 3; step; step; step, drop 3 2 0:1 2:1
4 | 0 0 1 0 0, -3 0 -1 -1 2, 0 1 2 1 5, 1 0 1 -1 3, -1 1 -3 2 5, 0 0 -1 0 0 | 3 2 | 100 | 200 | rows -3 1 7, 1 1 8, -7 1 9; step; step, drop 5 1 1:4 3:1; step
4 | 0 1 1 0 -1, 1 1 0 -1 5, 1 -1 0 1 3, 2 -1 0 2 3, 0 0 -3 -1 2, -1 -1 -3 -3 4 | 2 1 | 100 | 200 | rows 6 5 8, 1 -1 7, 3 1 7; step, drop 1 1 0:3 3:1 5:1; step; step, drop 0 3 1:1 3:1
3 | -1 2 2 2, -3 1 2 3, -1 0 -1 -2, 2 0 -1 -2, 0 0 1 0 | 2 0 | 100 | 200 | rows 0 -1; step, drop 0 2 2:2 3:1 4:3; step, drop 0 1 2:1 3:1; step
3 | 1 0 1 0, -4 0 3 0, -1 0 -3 1 | 1 | 2 | 200 | row-limit 1 3
4 | 0 1 0 0 2, 0 -1 1 0 0, 1 -1 -1 0 -2, -3 0 1 0 4 | 3 1 | 2 | 200 | row-limit 1 4
3 | 1 0 0 1, 0 1 0 1, 1 1 0 3 | 2 | 2 | 1 | pivot-limit filter 0 0 a
4 | 0 -1 0 -3 -4, -4 1 4 0 -3, 0 0 1 0 0, 0 1 -1 -1 1 | 2 3 0 | 3 | 1 | pivot-limit filter 1 1 a
2 | 3 2305843009213693959 -1, 4611686018427387847 0 1, -4611686018427387915 2 0 | 0 1 | 100 | 200 | wide clean 1 0
3 | 4611686018427387847 4611686018427387847 0 999999999999999999, -3 0 0 2, 1000000000000000009 9223372036854775783 0 0 | 2 0 1 | 100 | 200 | wide clean 2 0
2 | 1 1 0, 1537228672809129305 1 0, -1 2305843009213693959 3 | 1 | 3 | 200 | wide filter 0 0 a pivot 2 0 2
2 | 1 0 0, -9223372036854775783 -1 0, 0 1 768614336404564653, 1 4611686018427387847 0 | 1 0 | 2 | 200 | wide filter 0 2 a check
2 | -2305843009213693959 0 -2, 0 1 -1537228672809129305, -1 0 0, 3 1000000000000000009 0 | 0 1 | 100 | 200 | wide filter 0 1 a read
3 | 9223372036854775783 0 -9223372036854775783 999999999999999999, -4611686018427387847 3 0 -9223372036854775783, 0 -1 0 1, -3 0 1 0 | 1 | 3 | 200 | wide filter 1 2 a read
3 | 2305843009213693959 -2305843009213693959 0 -9223372036854775783, -9223372036854775783 1 -3 -4611686018427387847 | 0 | 100 | 200 | wide pairs 1 0
2 | -4611686018427387847 0 -3, 1 -4611686018427387915 -3, 4611686018427387847 1 0 | 1 0 | 100 | 2 | wide pairs 2 0
3 | -1 0 -768614336404564653 0, -3 0 1 2305843009213693959, 999999999999999999 0 1 2305843009213693959 | 2 1 0 | 3 | 200 | wide pairs 3 0";

// The parts of a line of a table.
fn parts_of<'a>(line: &'a str) -> [&'a str; 6] {
    let mut parts = [""; 6];
    let mut rest = line;
    for i in 0..6 {
        let (part, more) = rest.split_once(" | ").unwrap_or((rest, ""));
        parts[i] = part;
        rest = more;
    }
    parts
}

// Whether these are different columns.
fn are_columns(places: &[u32], columns: u32) -> bool
    ensures { IsTrue result → AreColumns columns places.now }
{
    for i in 0..places.len() {
        if places[i] >= columns || places[..i].contains(&places[i]) {
            return false;
        }
    }
    true
}

fn small(rt: &impl Abort, text: &str) -> u32 {
    u32::from(text.parse::<u8>().expect(rt, "a number"))
}

fn limits_of(rt: &impl Abort, rows: &str, pivots: &str) -> Limits {
    let rows = small(rt, rows);
    let pivots = small(rt, pivots);
    assert!(rt; 1 <= rows && rows <= 4096);
    assert!(rt; 1 <= pivots && pivots <= 4096);
    Limits { rows, pivots }
}

fn assert_elimination(rt: &impl Abort, alloc: Global, line: &str) {
    let [columns, rows, gone, limit, most, wanted] = parts_of(line);
    let columns = small(rt, columns);
    let rows = rows_of(rt, alloc, rows);
    let gone = places_of(rt, alloc, gone);
    let limits = limits_of(rt, limit, most);
    assert!(rt; columns <= 128 && rows.len() <= 4096 && have_columns(&rows, columns as usize));
    assert!(rt; are_columns(&gone, columns));
    let projected = eliminate(alloc, &rows, columns, &gone, limits);
    let text = projected_text(alloc, projected).expect(rt, "memory");
    assert_eq!(rt; text.as_str(), wanted, "{line}");
}

#[test]
fn columns_are_eliminated_with_drops_or_a_limit_is_met(rt: HostRuntime) {
    for line in ELIMINATIONS.lines() {
        assert_elimination(&rt, rt.alloc(), line);
    }
}
