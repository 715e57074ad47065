// Terms over rows, with the answers of another program, which was written from the same description in Python: each line
// was given to its `shift`, with as many columns that stay as the nominal point has.
ghost use Rattle.std.specs.Prelude.{◌↔◌, ◌≡◌, All, IsTrue, length};

use crate::{Shifted, shift};
use pa_row::{Halt, Point, Row, Spot, Task, Weights};
use std::alloc::{AllocError, Global};
use std::fmt::Write;
use std::process::Abort;

fn number_of(rt: &impl Abort, text: &str) -> i128 {
    i128::from(text.parse::<i64>().expect(rt, "a number"))
}

// The numbers of a text but the last one, and the last one.
fn numbers_of(rt: &impl Abort, alloc: Global, text: &str) -> (Vec<i128>, i128) {
    let (front, last) = text.rsplit_once(' ').unwrap_or(("", text));
    let mut numbers = Vec::new(alloc);
    for word in front.split_whitespace() {
        numbers.push(number_of(rt, word)).expect(rt, "memory");
    }
    (numbers, number_of(rt, last))
}

fn row_of(rt: &impl Abort, alloc: Global, text: &str) -> Row {
    let (c, b) = numbers_of(rt, alloc, text);
    Row::checked(c, b).expect(rt, "a row")
}

// The rows of a text, each behind a comma but the first.
fn rows_of(rt: &impl Abort, alloc: Global, text: &str) -> Vec<Row> {
    let mut rows = Vec::new(alloc);
    for part in text.split(',') {
        if !part.trim().is_empty() {
            rows.push(row_of(rt, alloc, part.trim()))
                .expect(rt, "memory");
        }
    }
    rows
}

// The point of a text, whose last number is the denominator.
fn point_of(rt: &impl Abort, alloc: Global, text: &str) -> Point {
    let (p, q) = numbers_of(rt, alloc, text);
    Point::checked(p, q).expect(rt, "a point")
}

fn have_columns(rows: &[Row], columns: usize) -> bool
    ensures { IsTrue result ↔ All (λ row. length row.c ≡ columns) rows.now }
{
    rows.iter().all(|row| row.c.len() == columns)
}

fn write_weights(text: &mut String, weights: &Weights) -> Result<(), AllocError> {
    let den = weights.den;
    write!(text, "{den}")?;
    for (place, number) in &weights.parts {
        write!(text, " {place}:{number}")?;
    }
    Ok(())
}

fn write_row(text: &mut String, row: &Row) -> Result<(), AllocError> {
    for number in &row.c {
        write!(text, " {number}")?;
    }
    let b = row.b;
    write!(text, " {b}; ")
}

fn write_halt(text: &mut String, halt: Halt) -> Result<(), AllocError> {
    match halt {
        Halt::Memory => text.push_str("memory"),
        Halt::PivotLimit(_) => text.push_str("limit"),
        Halt::Wide(place) => match place.spot {
            Spot::Load => text.push_str("wide load"),
            Spot::Pivot { pivot, row, column } => {
                write!(text, "wide pivot {pivot} {row} {column}")
            }
            Spot::Read => text.push_str("wide read"),
            Spot::Check => text.push_str("wide check"),
        },
    }
}

// The row that is left and the weights, as `term 1 0 2; 3 0:1`, or the direction, as `ray 1 -1`, or the fault.
fn answer_text(alloc: Global, answer: Result<Shifted, Halt>) -> Result<String, AllocError> {
    let mut text = String::new(alloc);
    match answer {
        Ok(Shifted::Term { row, weights }) => {
            text.push_str("term")?;
            write_row(&mut text, &row)?;
            write_weights(&mut text, &weights)?;
        }
        Ok(Shifted::Ray { direction }) => {
            text.push_str("ray")?;
            for number in &direction.numbers {
                write!(text, " {number}")?;
            }
        }
        Err(halt) => write_halt(&mut text, halt)?,
    }
    Ok(text)
}

// Rows, a term, a nominal point, the number of pivots, and the answer. The chain of two parts, whose second one assumes
// what the first one makes; the stronger of two rows by the nominal point, and both where they are as strong; terms with
// nothing in the columns that go; directions; costs that fall without end; and each kind of fault.
const TERMS: &str = "\
-1 1 0 0, 1 -2 0 2 | 0 1 0 1 | 0 1 | 60 | term 1 0 0 1; 1 0:1
-1 1 0 0, 1 -2 0 2 | 0 -1 0 1 | 0 1 | 60 | term -1 0 0 0; 2 1:1
-1 1 0 0, 1 -2 0 2 | 0 5 0 1 | 0 1 | 60 | term 5 0 0 1; 1 0:5
-1 1 0, 0 1 1 | 0 1 2 | 0 1 | 60 | term 1 0 2; 1 0:1
-1 1 0, 0 1 1 | 0 1 2 | 5 1 | 60 | term 0 0 1; 1 1:1
-1 1 0, 0 1 1 | 0 1 2 | 1 2 | 60 | term 1 0 2; 1 0:1
-1 1 0, 0 1 1 | 0 1 2 | 3 2 | 60 | term 0 0 1; 1 1:1
1 -1 0 | 0 1 1 | 0 1 | 60 | ray 1
0 1 1 | 0 1 1 | 1 | 60 | term 0 0 0; 1 0:1
 | 1 | 1 | 1 | term 1; 1
 | -2 -3 1 | 2 3 | 1 | ray -1
 | 3 3 3 | 1 | 0 | ray 1 1
 | 0 1 0 | 3 0 1 | 1 | term 0 1 0; 1
3 0 1, 1 -1 1 | 1 0 3 | -3 1 | 1 | term 1 0 3; 1
2 -1 2, 3 -3 2, -1 -3 3 | 3 2 2 | 2 -2 2 | 0 | term 3 2 2; 1
-2 -1 -1 | 1 -1 -3 | -3 3 | 0 | limit
1 3, 1 2 | 2 2 | 3 | 1 | limit
3 3 1 | -3 -1 -2 | 2 1 | 60 | ray -1
-3 1 0 3 -2 | 1 -3 -3 -1 -1 | -1 2 1 | 60 | ray -1 -1
3 -3 131380722580 -1, -1 -2 660181415521480616 -3, -1 0 68445669692084266 3042341693994435333 | -1 1 -4057460410091978384 -1 | 3 1 | 60 | ray 1 -1
2 -1 0 | 2 -1 2 | -1 1 | 60 | term 0 0 1; 1 0:1
2 -2 -1 -3 | 2 3 -2 -2 | 1 -3 1 | 1 | term -2 7 0 4; 1 0:2
1 2 0 1, -3 0 -2 -3, 0 1 -1 2 | 2 3 -2 -2 | 3 1 | 60 | term 7 0 0 -1; 2 0:3 1:2
2 0 1 3 | 3 -2 1 3 | 1 3 2 | 1 | term 1 -2 0 0; 1 0:1
3 -2 -3 -1, 3 3 0 3, 2 -3 2 -1, 1 -3 -3 -1 | -2 1 1 -2 | 1 -1 1 | 60 | term -6 5 0 -3; 2 2:1
-1 3 0 -2 -2, 2 -1 2 2 0, -1 2 0 -1 3, 3 -2 -1 3 -3 | 2 3 3 1 2 | -2 -1 2 | 60 | term 0 3 0 0 8; 2 0:2 1:3
2 3 -957142678944060, 137610750718148 -1 3 | 1 -3 3349177630091707632 | -2 2 | 60 | term -37530204741313 0 304470693644700693; 1 1:3
0 1 1, 0 -1 -2 | 3 1 4 | 0 1 | 60 | term 1 0 1; 1 0:1
0 1 0 1, 1 -1 0 -2, 0 0 1 5 | 3 2 1 4 | -1 1 | 60 | term 1 0 0 -1; 1 0:2 2:1
0 -3 2 -3, 0 2 -1 0, 1 3 -3 2 | -1 -1 3 -2 | 1 2 | 60 | term -1 0 0 13; 1 0:5 1:7
-3 0 0 -2 -3, -1 3 3 1 -1, -3 -2 -2 0 3 | 1 2 1 -3 -3 | -2 -2 2 | 60 | term 19 3 0 0 7; 3 0:5 1:1
9223372036854775807 9223372036854775807 1 -9223372036854775807, 1 0 1 1 | 0 0 1 2 | 9223372036854775807 9223372036854775807 9223372036854775807 | 60 | wide load
1 0 1 1, 9223372036854775807 9223372036854775807 1 -9223372036854775807 | 0 0 1 2 | 9223372036854775807 9223372036854775807 9223372036854775807 | 0 | wide load
9223372036854775807 9223372036854775807 1 -9223372036854775807, 1 0 1 1 | 3 0 0 2 | 9223372036854775807 9223372036854775807 9223372036854775807 | 60 | term 3 0 0 2; 1
4611686018427387903 0 0 0, 0 4611686018427387901 0 0, 0 0 4611686018427387899 0 | 1 1 1 0 | 1 | 60 | wide read
0 -492505051106 1 -1048502, 961334258971065 3 0 2 | 0 0 2184233331902722270 2 | 0 1 | 60 | wide check
2 3 -325711694924695, -488888556103 -889963918643417 -2, -110265067219736074 0 0 | -6634401190095084121 -3 -2 | 2 | 60 | wide check
-1 8601217720002801398 | -8813658625977910391 -2 | 2 | 60 | wide pivot 1 2 2
3 -1017199 0 3, 1 -1 -892694141829 3, -3 -1 665587502661982181 -2 | -514984 -2 2 3 | 71926664680568 3 | 60 | wide pivot 3 3 4";

// The parts of a line of the table.
fn parts_of<'a>(line: &'a str) -> [&'a str; 5] {
    let mut parts = [""; 5];
    let mut rest = line;
    for i in 0..5 {
        let (part, more) = rest.split_once(" | ").unwrap_or((rest, ""));
        parts[i] = part;
        rest = more;
    }
    parts
}

fn assert_shift(rt: &impl Abort, alloc: Global, line: &str) {
    let [rows, term, nominal, most, wanted] = parts_of(line);
    let rows = rows_of(rt, alloc, rows);
    let term = row_of(rt, alloc, term);
    let nominal = point_of(rt, alloc, nominal);
    let columns = term.c.len();
    let most = u32::from(most.parse::<u8>().expect(rt, "a number"));
    assert!(rt; columns <= 8 && rows.len() <= 8 && have_columns(&rows, columns));
    assert!(rt; nominal.p.len() <= columns);
    let task = Task::Whole { part: 0, row: 7 };
    let text = answer_text(alloc, shift(alloc, &term, &rows, &nominal, most, task)).expect(
        rt, "memory",
    );
    assert_eq!(rt; text.as_str(), wanted, "{line}");
}

#[test]
fn terms_are_shifted_as_another_program_does(rt: HostRuntime) {
    for line in TERMS.lines() {
        assert_shift(&rt, rt.alloc(), line);
    }
}
