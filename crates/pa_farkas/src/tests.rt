// Lists of rows with the answers of another program, which was written from the same description in Python.
ghost use Rattle.std.specs.Prelude.{◌↔◌, ◌≡◌, All, IsTrue, length};

use crate::{Feasibility, Thinned, Verdict, covered, feasible, implied, thin};
use pa_row::{Group, Halt, Point, Row, Spot, Sub, Task, Weights};
use std::alloc::{AllocError, Global};
use std::fmt::Write;
use std::process::Abort;

fn number_of(rt: &impl Abort, text: &str) -> i128 {
    i128::from(text.parse::<i64>().expect(rt, "a number"))
}

// The row with the numbers of a text, of which the last is the bound.
fn row_of(rt: &impl Abort, alloc: Global, text: &str) -> Row {
    let (front, bound) = text.rsplit_once(' ').unwrap_or(("", text));
    let b = number_of(rt, bound);
    let mut c = Vec::new(alloc);
    for word in front.split_whitespace() {
        c.push(number_of(rt, word)).expect(rt, "memory");
    }
    Row::checked(c, b).expect(rt, "a row")
}

// The rows of a text, each behind a comma but the first.
fn rows_of(rt: &impl Abort, alloc: Global, text: &str) -> Vec<Row> {
    let mut rows = Vec::new(alloc);
    for part in text.split(',') {
        if !part.trim().is_empty() {
            rows.push(row_of(rt, alloc, part.trim()))
                .expect(rt, "memory");
        }
    }
    rows
}

fn have_columns(rows: &[Row], columns: usize) -> bool
    ensures { IsTrue result ↔ All (λ row. length row.c ≡ columns) rows.now }
{
    rows.iter().all(|row| row.c.len() == columns)
}

fn write_weights(text: &mut String, weights: &Weights) -> Result<(), AllocError> {
    let den = weights.den;
    write!(text, "{den}")?;
    for (place, number) in &weights.parts {
        write!(text, " {place}:{number}")?;
    }
    Ok(())
}

fn write_point(text: &mut String, point: &Point) -> Result<(), AllocError> {
    let q = point.q;
    write!(text, "{q}")?;
    for number in &point.p {
        write!(text, " {number}")?;
    }
    Ok(())
}

// The texts of faults, as `limit a` or `wide b pivot 2 0 2`.
fn write_halt(text: &mut String, halt: Halt) -> Result<(), AllocError> {
    match halt {
        Halt::Memory => text.push_str("memory"),
        Halt::PivotLimit(place) => {
            text.push_str("limit ")?;
            write_task(text, place.task)?;
            write_sub(text, place.sub)
        }
        Halt::Wide(place) => {
            text.push_str("wide ")?;
            write_task(text, place.task)?;
            write_sub(text, place.sub)?;
            write_spot(text, place.spot)
        }
    }
}

fn write_sub(text: &mut String, sub: Sub) -> Result<(), AllocError> {
    match sub {
        Sub::Main => text.push('a'),
        Sub::Base => text.push('b'),
    }
}

fn write_spot(text: &mut String, spot: Spot) -> Result<(), AllocError> {
    match spot {
        Spot::Load => text.push_str(" load"),
        Spot::Pivot { pivot, row, column } => { write!(text, " pivot {pivot} {row} {column}") }
        Spot::Read => text.push_str(" read"),
        Spot::Check => text.push_str(" check"),
    }
}

// The row of a filter or a clean; the tables of single questions leave their task out.
fn write_task(text: &mut String, task: Task) -> Result<(), AllocError> {
    match task {
        Task::Filter { row, .. } => write!(text, "filter {row} "),
        Task::Clean { row, .. } => write!(text, "clean {row} "),
        _ => Ok(()),
    }
}

fn verdict_text(alloc: Global, verdict: Result<Verdict, Halt>) -> Result<String, AllocError> {
    let mut text = String::new(alloc);
    match verdict {
        Ok(Verdict::Yes(w)) => {
            text.push_str("yes ")?;
            write_weights(&mut text, &w)?;
        }
        Ok(Verdict::Empty(w)) => {
            text.push_str("empty ")?;
            write_weights(&mut text, &w)?;
        }
        Ok(Verdict::No(point)) => {
            text.push_str("no ")?;
            write_point(&mut text, &point)?;
        }
        Err(halt) => write_halt(&mut text, halt)?,
    }
    Ok(text)
}

fn cover_text(alloc: Global, cover: Result<Option<Weights>, Halt>) -> Result<String, AllocError> {
    let mut text = String::new(alloc);
    match cover {
        Ok(Some(w)) => write_weights(&mut text, &w)?,
        Ok(None) => text.push_str("none")?,
        Err(halt) => write_halt(&mut text, halt)?,
    }
    Ok(text)
}

fn feasibility_text(
    alloc: Global,
    feasibility: Result<Feasibility, Halt>,
) -> Result<String, AllocError> {
    let mut text = String::new(alloc);
    match feasibility {
        Ok(Feasibility::Point(point)) => {
            text.push_str("point ")?;
            write_point(&mut text, &point)?;
        }
        Ok(Feasibility::Empty(w)) => {
            text.push_str("empty ")?;
            write_weights(&mut text, &w)?;
        }
        Err(halt) => write_halt(&mut text, halt)?,
    }
    Ok(text)
}

// The rows that stay, and the drops, as `1 2 | 0 1 1:1; 2 1 1:2`.
fn thinned_text(alloc: Global, thinned: Result<Thinned, Halt>) -> Result<String, AllocError> {
    let mut text = String::new(alloc);
    match thinned {
        Ok(thinned) => {
            write_rows(&mut text, &thinned.rows)?;
            text.push_str(" |")?;
            let mut mark = " ";
            for drop in &thinned.drops {
                let row = drop.row;
                write!(text, "{mark}{row} ")?;
                write_weights(&mut text, &drop.weights)?;
                mark = "; ";
            }
        }
        Err(halt) => write_halt(&mut text, halt)?,
    }
    Ok(text)
}

fn write_rows(text: &mut String, rows: &[Row]) -> Result<(), AllocError> {
    let mut mark = "";
    for row in rows {
        text.push_str(mark)?;
        for number in &row.c {
            write!(text, "{number} ")?;
        }
        let b = row.b;
        write!(text, "{b}")?;
        mark = ", ";
    }
    Ok(())
}

// Rows, a row, the number of pivots, the verdict, the weights that cover the row, and whether a point meets the rows.
// Empty lists, ties, equal and constant rows, each kind of answer by both problems, and each kind of fault.
const QUESTIONS: &str = "\
-3 2 -4, -1 -2 -2, 3 -2 2, -3 -1 -2, 1 1 3 | 2 0 0 | 60 | empty 1 0:1 2:1 | 1 0:1 2:1 | empty 1 0:1 2:1
0 -1 0 -4, 2 0 1 -3, -2 -3 3 4, 0 0 -2 -4, 2 -3 0 -4 | 0 -1 0 3 | 60 | yes 1 0:1 | 1 0:1 | point 8 -25 32 26
-3 1 1 0, 0 -3 -3 -3, 0 -3 0 -1, 3 -3 0 -4, 0 0 3 4 | -3 -1 0 1 | 60 | yes 9 0:12 1:4 3:3 | 9 0:12 1:4 3:3 | point 3 4 8 4
3 0 -4, 1 -2 -3 | 3 -1 4 | 60 | yes 6 0:5 1:3 | 6 0:5 1:3 | point 6 -8 5
1 2, -2 3 | 0 2 | 60 | yes 1 | 1 | point 1 2
1 0, -1 -1 | 1 5 | 60 | empty 1 0:1 1:1 | 1 0:1 1:1 | empty 1 0:1 1:1
 | 1 0 0 | 60 | no 1 1 1 | none | point 1 0 0
 | 0 0 | 60 | yes 1 | 1 | point 1 0
 | 0 -1 | 60 | no 1 0 | none | point 1 0
-3 3 0 4, -1 -2 -3 2, 2 -3 -1 1, 0 -2 0 -1, -3 -3 -2 3 | 0 -3 -2 -2 | 60 | no 14 9 7 -17 | none | point 18 -15 9 -13
-1 -1 0 3, 0 -1 2 -2, 1 -1 -1 3, -2 0 2 3, -3 0 -1 4 | -3 0 0 1 | 60 | no 8 -11 18 1 | none | point 10 -7 -18 -19
1 2, -1 -2 | 1 1 | 60 | no 1 2 | none | point 1 2
1 2, -1 -2 | 1 2 | 60 | yes 1 0:1 | 1 0:1 | point 1 2
-2 -2 1 -2, 3 -1 3 2, -2 -1 0 3, -2 -1 0 -3, 0 -3 0 2 | 1 0 -2 -2 | 60 | no 18 33 -12 -25 | none | point 18 33 -12 -25
-1 0 0 -4, 0 0 0 4, -2 -1 3 -2, 0 -1 1 1, -3 -1 -3 -3 | 3 0 2 -1 | 60 | no 2 8 3 5 | none | point 2 8 3 5
3 3 1 -4, 3 2 0 -2 | 0 -2 -3 -1 | 60 | no 3 2 -6 0 | none | point 3 2 -6 0
-1 1 | 1 -1 | 60 | no 1 0 | none | point 1 -1
-1 1 | 1 7 | 60 | no 1 8 | none | point 1 -1
1 0 0, -1 0 -1 | 0 1 0 | 60 | empty 1 0:1 1:1 | none | empty 1 0:1 1:1
-3 0 -1 -3, -2 2 -1 -1, 0 0 0 -2, -3 0 -1 -3, 3 0 -3 -1 | 0 0 1 2 | 60 | empty 1 2:1 | none | empty 1 2:1
1 0 0, -1 0 -1 | 0 1 3 | 60 | empty 1 0:1 1:1 | none | empty 1 0:1 1:1
2 0 | 0 0 | 0 | limit a | limit a | limit b
-1 0 | 2 0 | 0 | limit b | none | limit b
0 -1148478290777061212 0, 57442392358 -2 0 | 1 -31320032978 0 | 60 | wide a check | wide a check | point 1 0 0
725644208839 0 2, -2 -553946302057163 0 | 0 0 -89749150019018 | 60 | wide a check | none | point 401967926095559763287863757 1107892604114326 -4
-2 2093121817, -27614820755928339 2 | -880394389903890 2 | 60 | wide a pivot 2 2 3 | wide a pivot 2 2 3 | point 27614820755928339 -2
2 27160172420 0, 2 24158730 1, 230264982224 -1 0 | 79 2 2 | 60 | wide a pivot 4 0 3 | wide a pivot 4 0 3 | point 1 0 0
1 -985492950909471 0, -401393970525 -1 -2 | 0 -2 -1003879957876 | 60 | wide a read | wide a read | point 197785464244975737258671138 985492950909471 1
-4901309480401400 1 | 2 137702349 | 60 | wide b check | none | point 4901309480401400 -1
-9774919354865360 -2 1, -1 -83849892208 3 | 1 0 0 | 60 | wide b pivot 2 0 2 | none | wide b pivot 2 0 2
-15900496715476832 2 -2 | -1 0 6294323 | 60 | wide b read | none | point 7950248357738416 1 0
-2 -17067647179442179 0 0, 1 0 3 -300897007349816531, 1 0 1385477848945291 0 | 85291928841580340 0 22782268938215 0 | 60 | wide b read | none | wide b read
-174909270283 2374202373 0, 2 0 810891498601592925 | 1 8265621662388442 1747412302357432110 | 60 | wide a pivot 2 3 4 | wide a pivot 2 3 4 | wide b check";

// The parts of a line of the table.
fn parts_of<'a>(line: &'a str) -> [&'a str; 6] {
    let mut parts = [""; 6];
    let mut rest = line;
    for i in 0..6 {
        let (part, more) = rest.split_once(" | ").unwrap_or((rest, ""));
        parts[i] = part;
        rest = more;
    }
    parts
}

fn assert_question(rt: &impl Abort, alloc: Global, line: &str) {
    let [rows, row, most, verdict, cover, feasibility] = parts_of(line);
    let rows = rows_of(rt, alloc, rows);
    let row = row_of(rt, alloc, row);
    let columns = row.c.len();
    let most = u32::from(most.parse::<u8>().expect(rt, "a number"));
    assert!(rt; columns <= 8 && rows.len() <= 8 && have_columns(&rows, columns));
    let task = Task::Cover { row: 7 };
    let text = verdict_text(alloc, implied(alloc, &rows, &row, most, task)).expect(rt, "memory");
    assert_eq!(rt; text.as_str(), verdict, "{line}");
    let text = cover_text(alloc, covered(alloc, &rows, &row, most, task)).expect(rt, "memory");
    assert_eq!(rt; text.as_str(), cover, "{line}");
    let text = feasibility_text(alloc, feasible(alloc, &rows, columns as u32, most, task)).expect(
        rt, "memory",
    );
    assert_eq!(rt; text.as_str(), feasibility, "{line}");
}

#[test]
fn questions_have_the_answers_of_another_program(rt: HostRuntime) {
    for line in QUESTIONS.lines() {
        assert_question(&rt, rt.alloc(), line);
    }
}

// Rows, a context, the number of columns and of pivots, and what stays and what is dropped.
const LISTS: &str = "\
-3 -2, 1 0, 1 1 / 1 0 / 1 / 60 / -3 -2 | 1 1 0:1 2:3
-1 0 2, 1 2 1, 3 2 -3, 0 -3 -1, 0 -2 -1 /  / 2 / 60 / -1 0 2, 3 2 -3, 0 -2 -1 | 1 1 0:2 2:1
3 3 -1 -3, 2 -3 -1 2, 0 -3 -3 -2, 1 0 0 -2, 2 1 -2 -3, 0 -1 2 -1 /  / 3 / 60 / 3 3 -1 -3, 0 -3 -3 -2, 2 1 -2 -3, 0 -1 2 -1 | 1 9 2:7 3:18 5:6; 3 2 4:1 5:1
0 2 -1, 1 -3 -1, -1 -3 -1, 0 0 0, -2 0 1, 1 -1 -2, 0 1 -3 / 0 0 1 / 2 / 60 / -2 0 1, 1 -1 -2, 0 1 -3 | 0 2 2:1 3:2 4:2; 1 2 2:1 3:2 4:2
2 -3 0 -3, -1 -3 1 3, -2 0 0 -1, 2 3 -1 1, -1 1 1 2 / 0 0 3 -3, 0 -3 1 -2 / 3 / 60 / 2 -3 0 -3, -2 0 0 -1, 2 3 -1 1 | 1 6 0:8 2:11 3:6 4:6; 4 3 0:3 2:6 3:3 5:1
-1 -1 -2 -2, 1 -1 2 -3, 1 3 -3 -2, 0 3 -1 0, -3 2 0 2, 1 -3 0 3, 0 3 -2 -1 / 0 0 0 -2 / 3 / 60 / 1 -1 2 -3, -3 2 0 2, 1 -3 0 3, 0 3 -2 -1 | 0 1 7:1; 2 1 7:1; 3 1 7:1
-3 -3 -1 0, 0 -3 -1 3, 2 1 2 -1, 3 3 -1 1, 2 -1 1 -2, 0 0 -2 3, 0 0 -2 3 / 0 0 -2 -2, -1 0 0 3 / 3 / 60 / -3 -3 -1 0, 2 1 2 -1 | 1 2 0:4 2:6 6:5; 3 2 2:6 6:7 7:6; 4 6 0:8 2:18 6:11; 5 1 6:1
3 -3 -3, 2 3 1, -2 0 -2, 1 2 3, -3 -2 -1, 1 -2 -2, 0 -2 3 /  / 2 / 60 / -2 0 -2, 1 2 3, 1 -2 -2 | 0 7 1:4 2:7 5:6; 1 1 2:1 3:1 5:1; 4 1 2:1 3:1 5:1; 6 1 2:1 3:1 5:1
2 2 0 1, 2 -2 0 -3, -3 -1 -1 -1, -3 -3 -1 -1, 0 0 -3 3, 0 3 3 3, 1 2 -2 -1 / -2 0 2 2, 0 1 -3 0 / 3 / 60 / 2 -2 0 -3, 1 2 -2 -1 | 0 15 1:18 2:15 5:11 6:9; 2 1 1:1 3:1 5:1 6:1; 3 4 1:5 6:4 7:7 8:2; 4 4 1:5 6:4 7:7 8:2; 5 2 1:5 6:4 7:7 8:2
0 -2, -2 -1, -2 2, 2 2 / -3 -1, 2 1 / 1 / 60 / 0 -1 |
-1 0 / 0 -1, -1 3 / 1 / 60 /  | 0 1 1:1
1 2, 1 2, 2 4, 1 3 /  / 1 / 60 / 1 2 |
 / 1 1 / 1 / 60 /  |
1 1, 2 3 /  / 1 / 0 / 1 1 |
1 1 0, 1 0 2, 0 1 3 /  / 2 / 0 / limit filter 0 a
4611686018427387903 0 1, 0 4611686018427387903 1, 4611686018427387901 4611686018427387902 3 /  / 2 / 60 / 4611686018427387903 0 1, 0 4611686018427387903 1 | 2 4611686018427387903 0:4611686018427387901 1:4611686018427387902";

fn assert_thinned(rt: &impl Abort, alloc: Global, line: &str) {
    let (rows, rest) = line.split_once(" / ").unwrap_or((line, ""));
    let (context, rest) = rest.split_once(" / ").unwrap_or((rest, ""));
    let (columns, rest) = rest.split_once(" / ").unwrap_or((rest, ""));
    let (most, wanted) = rest.split_once(" / ").unwrap_or((rest, ""));
    let rows = rows_of(rt, alloc, rows);
    let context = rows_of(rt, alloc, context);
    let columns = u32::from(columns.parse::<u8>().expect(rt, "a number"));
    let most = u32::from(most.parse::<u8>().expect(rt, "a number"));
    assert!(rt; columns <= 8 && rows.len() <= 8 && context.len() <= 8);
    assert!(rt; have_columns(&rows, columns as usize) && have_columns(&context, columns as usize));
    let thinned = thin(alloc, &rows, &context, columns, most, Group::Thin);
    let text = thinned_text(alloc, thinned).expect(rt, "memory");
    assert_eq!(rt; text.as_str(), wanted, "{line}");
}

#[test]
fn lists_are_thinned_as_another_program_does(rt: HostRuntime) {
    for line in LISTS.lines() {
        assert_thinned(&rt, rt.alloc(), line);
    }
}
