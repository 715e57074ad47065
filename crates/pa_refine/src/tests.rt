// Refinements and bounds of small contracts. The answers are worked by hand, or those of another program, which was written
// from the same description in Python.
ghost use Rattle.std.specs.Prelude.{◌↔◌, ◌≡◌, All, IsTrue, length};

use crate::{BoundFault, Bounded, RefineFault, Refined, bound, refine};
use pa_contract::{Contract, make_from};
use pa_grammar::read_plain;
use pa_names::{Name, Names};
use pa_row::{Broken, Place, Point, Row, Spot, Sub, Weights};
use std::alloc::{AllocError, Global};
use std::fmt::Write;
use std::process::Abort;

fn names_of(rt: &impl Abort, alloc: Global, text: &str) -> Names {
    let mut names = Names::new(alloc);
    for word in text.split_whitespace() {
        let name = Name::read(alloc, word.as_bytes()).expect(rt, "a name");
        names.add(name).expect(rt, "a new name");
    }
    names
}

fn number_of(rt: &impl Abort, text: &str) -> i128 {
    i128::from(text.parse::<i64>().expect(rt, "a number"))
}

// The row with the numbers of a text, of which the last is the bound.
fn row_of(rt: &impl Abort, alloc: Global, text: &str) -> Row {
    let (front, bound) = text.rsplit_once(' ').unwrap_or(("", text));
    let b = number_of(rt, bound);
    let mut c = Vec::new(alloc);
    for word in front.split_whitespace() {
        c.push(number_of(rt, word)).expect(rt, "memory");
    }
    Row::checked(c, b).expect(rt, "a row")
}

// The rows of a text, each behind a comma but the first.
fn rows_of(rt: &impl Abort, alloc: Global, text: &str) -> Vec<Row> {
    let mut rows = Vec::new(alloc);
    for part in text.split(',') {
        if !part.trim().is_empty() {
            rows.push(row_of(rt, alloc, part.trim()))
                .expect(rt, "memory");
        }
    }
    rows
}

fn have_columns(rows: &[Row], columns: usize) -> bool
    ensures { IsTrue result ↔ All (λ row. length row.c ≡ columns) rows.now }
{
    rows.iter().all(|row| row.c.len() == columns)
}

// The contract of a text, as `x / y / 1 2 / 1 1 3, 0 1 4`.
fn contract_of(rt: &impl Abort, alloc: Global, text: &str) -> Contract {
    let (inputs, rest) = text.split_once(" / ").unwrap_or((text, ""));
    let (outputs, rest) = rest.split_once(" / ").unwrap_or((rest, ""));
    let (assumptions, guarantees) = rest.split_once(" / ").unwrap_or((rest, ""));
    let inputs = names_of(rt, alloc, inputs);
    let outputs = names_of(rt, alloc, outputs);
    let assumptions = rows_of(rt, alloc, assumptions);
    let guarantees = rows_of(rt, alloc, guarantees);
    let columns = inputs.len() as usize;
    let all = columns + outputs.len() as usize;
    assert!(rt; have_columns(&assumptions, columns) && have_columns(&guarantees, all));
    assert!(rt; assumptions.len() < 16 && guarantees.len() < 16);
    make_from(alloc, inputs, outputs, assumptions, guarantees).expect(rt, "a contract")
}

fn write_weights(text: &mut String, weights: &Weights) -> Result<(), AllocError> {
    let den = weights.den;
    write!(text, " {den}")?;
    for (place, number) in &weights.parts {
        write!(text, " {place}:{number}")?;
    }
    Ok(())
}

fn write_proofs(text: &mut String, word: &str, proofs: &[Weights]) -> Result<(), AllocError> {
    for weights in proofs {
        text.push_str(word)?;
        write_weights(text, weights)?;
    }
    Ok(())
}

fn write_point(text: &mut String, point: &Point) -> Result<(), AllocError> {
    let q = point.q;
    write!(text, " point {q}")?;
    for number in &point.p {
        write!(text, " {number}")?;
    }
    Ok(())
}

fn write_broken(text: &mut String, of: Broken) -> Result<(), AllocError> {
    match of {
        Broken::Assumption(row) => write!(text, "no assume {row}"),
        Broken::Guarantee(row) => write!(text, "no guarantee {row}"),
    }
}

// A place behind its word, as `wide cover 1 a pivot 2 0 2`.
fn write_place(text: &mut String, word: &str, place: Place) -> Result<(), AllocError> {
    text.push_str(word)?;
    match place.task {
        pa_row::Task::Cover { row } => write!(text, " cover {row}")?,
        pa_row::Task::Goal => text.push_str(" goal")?,
        _ => text.push_str(" other")?,
    }
    match place.sub {
        Sub::Main => text.push_str(" a")?,
        Sub::Base => text.push_str(" b")?,
    }
    match place.spot {
        Spot::Load => Ok(()),
        Spot::Pivot { pivot, row, column } => write!(text, " pivot {pivot} {row} {column}"),
        Spot::Read => text.push_str(" read"),
        Spot::Check => text.push_str(" check"),
    }
}

fn refined_text(
    alloc: Global,
    refined: Result<Refined, RefineFault>,
) -> Result<String, AllocError> {
    let mut text = String::new(alloc);
    match refined {
        Ok(
            Refined::Yes {
                assumptions,
                guarantees,
            },
        ) => {
            text.push_str("yes")?;
            write_proofs(&mut text, "; assume", &assumptions.weights)?;
            write_proofs(&mut text, "; guarantee", &guarantees.weights)?;
        }
        Ok(Refined::No { of, at }) => {
            write_broken(&mut text, of)?;
            write_point(&mut text, &at)?;
        }
        Err(RefineFault::Memory) => text.push_str("memory")?,
        Err(RefineFault::PortsDiffer) => text.push_str("ports-differ")?,
        Err(RefineFault::Load { count }) => write!(text, "rows {count}")?,
        Err(RefineFault::PivotLimit(place)) => write_place(&mut text, "pivot-limit", place)?,
        Err(RefineFault::Wide(place)) => write_place(&mut text, "wide", place)?,
    }
    Ok(text)
}

fn bounded_text(alloc: Global, bounded: Result<Bounded, BoundFault>) -> Result<String, AllocError> {
    let mut text = String::new(alloc);
    match bounded {
        Ok(
            Bounded::Value {
                num,
                den,
                weights,
                at,
            },
        ) => {
            write!(text, "value {num}/{den} weights")?;
            write_weights(&mut text, &weights)?;
            write_point(&mut text, &at)?;
        }
        Ok(Bounded::Unbounded { at, direction }) => {
            text.push_str("unbounded")?;
            write_point(&mut text, &at)?;
            text.push_str(" direction")?;
            for number in &direction.numbers {
                write!(text, " {number}")?;
            }
        }
        Ok(Bounded::Nothing { weights }) => {
            text.push_str("nothing weights")?;
            write_weights(&mut text, &weights)?;
        }
        Err(BoundFault::Memory) => text.push_str("memory")?,
        Err(BoundFault::UnknownPort { name }) => {
            text.push_str("unknown-port ")?;
            for byte in name.bytes() {
                text.push(char::from(*byte))?;
            }
        }
        Err(BoundFault::Load { count }) => write!(text, "rows {count}")?,
        Err(BoundFault::PivotLimit(place)) => write_place(&mut text, "pivot-limit", place)?,
        Err(BoundFault::Wide(place)) => write_place(&mut text, "wide", place)?,
    }
    Ok(text)
}

// Two contracts, the number of pivots, and whether the first refines the second.
const REFINEMENTS: &str = "\
x / y / 1 1 /  | x / y / 0 -1 / 0 1 1 | 200 | yes; assume 1 0:1; guarantee 1 0:1
 / y /  /  |  / y /  / 1 1 | 200 | no guarantee 0 point 1 2
x / y / 1 1 /  | x / y / 1 2 /  | 200 | no assume 0 point 1 2 0
 / x y /  / 1 0 1, 0 1 1 |  / x y /  / 1 1 2 | 1 | pivot-limit cover 0 a
 / x y /  / 1 0 1, 0 1 1 |  / x y /  / 1 1 2 | 200 | yes; guarantee 1 0:1 1:1
 / x y z /  / 999999999999999999 0 0 1, 0 999999999999999998 0 1, 0 0 999999999999999997 1 |  / x y z /  / 1 1 1 0 | 200 | wide cover 0 a pivot 3 4 6
x / y /  /  | x / y / 1 0, -1 -1 / 0 1 1 | 200 | yes; guarantee 1 0:1 1:1
x / y / 1 1 /  |  / y /  / 1 1 | 200 | ports-differ
 /  /  /  |  /  /  /  | 200 | yes
 /  /  /  |  /  /  / 0 | 200 | yes; guarantee 1
 /  /  /  |  /  /  / -1 | 200 | no guarantee 0 point 1
 /  /  / -1 |  /  /  / -2, 3 | 200 | yes; guarantee 1 0:1; guarantee 1 0:1
 / y /  /  |  / y /  / 0 -1 | 200 | no guarantee 0 point 1 0
x y / z / 1 2 3 / 1 0 1 4 | y x / z / 2 1 3 / 0 1 1 4 | 200 | yes; assume 1 0:1; guarantee 1 1:1
x y / z / 1 0 3, 0 1 3 / 1 0 1 4 | y x / z / 1 0 2, 0 1 3 / 0 1 1 5, 1 1 1 7, 0 0 1 100 | 200 | no guarantee 2 point 1 -97 2 101
a / b / 1 5, -1 5 / -1 1 1, 1 -1 1 | a / b / 1 4, -1 2 / 0 1 5, 0 -1 3 | 200 | yes; assume 1 0:1; assume 1 1:1; guarantee 1 0:1 2:1; guarantee 1 1:1 3:1
a / b / 1 5, -1 5 / -1 1 1, 1 -1 1 | a / b / 1 4, -1 2 / 0 1 5, 0 -1 2 | 200 | no guarantee 1 point 1 -2 -3
a / b / 1 3 / -1 1 0 | a / b / 2 7, -1 0 / 0 1 3 | 200 | no assume 0 point 2 7 0
a / b /  / 0 1 1 | a / b /  / 0 1 1, 1 1 1 | 200 | no guarantee 1 point 1 1 1
a / b c / 1 1 / 1 -1 1 2, 0 1 1 3, -1 0 2 1 | a / c b / 1 1, -2 1 / 0 3 -1 10, 1 2 1 9, 1 0 0 2 | 200 | yes; assume 1 0:1; guarantee 1 2:1 4:1; guarantee 2 0:3 3:2 4:1; guarantee 1 0:1
 / x /  / 2 1 |  / x /  / 2 1 | 0 | pivot-limit cover 0 a
 / x / 5, 1 / 1 2 |  / x /  / 0 4 | 0 | pivot-limit cover 2 a
 / x / 0, 5 / -2 0 |  / x /  / 2 5 | 0 | pivot-limit cover 2 b
 / x y z / 0 / 0 0 0 0, -1 0 999999999999999998 1, 999999999999999989 0 1 1 |  / x y z /  / 0 0 1 0 | 200 | wide cover 1 a pivot 2 2 5
 / x y z / 0 / 0 -1 999999999999999989 0, -999999999999999998 0 0 1, 0 999999999999999999 0 1 |  / x y z /  / 0 0 1 0 | 200 | wide cover 1 a read
 / x y z / 0 / -1 0 0 1, 999999999999999997 0 999999999999999999 1, 0 999999999999999997 1 1 |  / x y z /  / 0 0 1 0 | 200 | wide cover 1 a check
 / x y z / 0 / 1 999999999999999998 1 1, 999999999999999997 1 0 0, 1 0 0 -5 |  / x y z /  / 0 0 1 0 | 200 | wide cover 1 b pivot 2 3 2
 / x y z / 0 / 0 999999999999999989 0 1, 999999999999999998 1 1 1, 0 0 0 0 |  / x y z /  / 0 0 1 0 | 200 | wide cover 1 b read
 / x y z / 0 / 999999999999999989 999999999999999997 0 1, 0 0 0 1 |  / x y z /  / 0 0 1 0 | 200 | wide cover 1 b check";

// A contract, a goal, the number of pivots, and the bound.
const BOUNDS: &str = "\
i / p / -1 0, 5 1 / -1 0 2, -1 1 0 | max p | 200 | value 1/5 weights 5 1:1 3:5 point 5 1 1
i / p / -1 0, 5 1 / -1 0 2, -1 1 0 | min p | 200 | unbounded point 5 1 1 direction 0 -1
 / y /  / 0 -1 | max y | 200 | nothing weights 1 0:1
 / y /  / 1 0, -1 -1 | max y | 200 | nothing weights 1 0:1 1:1
 / y z /  / 1 0 0, -1 0 -1 | min z | 200 | nothing weights 1 0:1 1:1
 / y /  / 1 4, -1 2 | max 3 y + 1/2 | 200 | value 25/2 weights 1 0:6 point 1 4
 / y /  / 1 4, -1 2 | min 3 y + 1/2 | 200 | value -11/2 weights 1 1:6 point 1 -2
 / y /  / 1 4, -1 2 | min 7/3 | 200 | value 7/3 weights 1 point 1 4
 / y /  /  | max 7/3 | 200 | value 7/3 weights 1 point 1 0
 /  /  /  | min 0 | 200 | value 0/1 weights 1 point 1
 / y /  /  | max y | 200 | unbounded point 1 0 direction 1
 / y /  /  | min -2 y + 5 | 200 | unbounded point 1 0 direction 1
a / b / 3 7, -1 0 / 2 -5 3, -1 3 2 | max 1/2 a + 2/3 b - 5 | 200 | value -155/54 weights 9 0:13 3:12 point 9 21 13
a / b / 3 7, -1 0 / 2 -5 3, -1 3 2 | min 1/2 b - a + 5/7 | 200 | value -61/42 weights 15 0:56 2:21 point 3 7 1
a / b / 3 7, -1 0 / 2 -5 3, -1 3 2 | min q + a | 200 | unknown-port q
a / b / 3 7, -1 0 / 2 -5 3, -1 3 2 | max a + b | 0 | pivot-limit goal a
a / b / 3 7, -1 0 /  | max a + b | 0 | pivot-limit goal a
a / b / 3 7, -1 0 /  | max a - b | 2 | unbounded point 3 7 0 direction 0 -1
 / x y z /  / 999999999999999999 0 0 1, 0 999999999999999998 0 1, 0 0 999999999999999997 1 | max x + y + z | 200 | wide goal a pivot 3 4 6
 / x y /  / 999999999999999999 0 1, 0 999999999999999998 1, -1 0 0 | max x + 1/999999999999999997 | 200 | wide goal a check
 / x y z /  / 999999999999999999 0 0 1, 0 999999999999999998 0 1, 0 0 999999999999999997 1, -999999999999999999 0 0 -1 | max x | 200 | wide goal a read
b a / d c / 1 1 5, -1 -1 -1 / 1 0 1 1 7, 0 1 -1 -1 2, 0 0 -1 2 3 | max c + d + 2 a | 200 | unbounded point 1 1 0 3 3 direction -3 3 2 1
b a / d c / 1 1 5, -1 -1 -1 / 1 0 1 1 7, 0 1 -1 -1 2, 0 0 -1 2 3 | min c - 3 b | 200 | unbounded point 1 1 0 3 3 direction 1 -1 0 -1";

// The parts of a line of a table.
fn parts_of<'a>(line: &'a str) -> [&'a str; 4] {
    let mut parts = [""; 4];
    let mut rest = line;
    for i in 0..4 {
        let (part, more) = rest.split_once(" | ").unwrap_or((rest, ""));
        parts[i] = part;
        rest = more;
    }
    parts
}

fn assert_refinement(rt: &impl Abort, alloc: Global, line: &str) {
    let [left, right, most, wanted] = parts_of(line);
    let left = contract_of(rt, alloc, left);
    let right = contract_of(rt, alloc, right);
    let most = u32::from(most.parse::<u8>().expect(rt, "a number"));
    let text = refined_text(alloc, refine(alloc, &left, &right, most)).expect(rt, "memory");
    assert_eq!(rt; text.as_str(), wanted, "{line}");
}

#[test]
fn contracts_refine_others_by_weights_or_a_point_breaks_a_row(rt: HostRuntime) {
    for line in REFINEMENTS.lines() {
        assert_refinement(&rt, rt.alloc(), line);
    }
}

fn assert_bound(rt: &impl Abort, alloc: Global, line: &str) {
    let [contract, goal, most, wanted] = parts_of(line);
    let contract = contract_of(rt, alloc, contract);
    let (word, plain) = goal.split_once(' ').unwrap_or((goal, ""));
    let plain = plain.as_bytes();
    assert!(rt; plain.len() <= 64);
    let goal = read_plain(alloc, plain).expect(rt, "a goal");
    let most = u32::from(most.parse::<u8>().expect(rt, "a number"));
    let bounded = bound(alloc, &contract, &goal, word == "min", most);
    let text = bounded_text(alloc, bounded).expect(rt, "memory");
    assert_eq!(rt; text.as_str(), wanted, "{line}");
}

#[test]
fn goals_have_values_with_certificates(rt: HostRuntime) {
    for line in BOUNDS.lines() {
        assert_bound(&rt, rt.alloc(), line);
    }
}

// A contract with this many guarantees, each another bound of its one output.
fn with_guarantees(rt: &impl Abort, alloc: Global, count: u16) -> Contract {
    let mut guarantees = Vec::new(alloc);
    for bound in 0..count {
        let mut c = Vec::new(alloc);
        c.push(1).expect(rt, "memory");
        let row = Row::checked(c, i128::from(bound)).expect(rt, "a row");
        guarantees.push(row).expect(rt, "memory");
    }
    let inputs = Names::new(alloc);
    let outputs = names_of(rt, alloc, "x");
    let columns = (inputs.len() + outputs.len()) as usize;
    assert!(rt; have_columns(&guarantees, columns) && guarantees.len() < 5000);
    make_from(alloc, inputs, outputs, Vec::new(alloc), guarantees).expect(rt, "a contract")
}

#[test]
fn more_rows_than_an_operation_takes_are_refused(rt: HostRuntime) {
    let alloc = rt.alloc();
    let half = with_guarantees(&rt, alloc, 2048);
    let more = with_guarantees(&rt, alloc, 2049);
    let text = refined_text(alloc, refine(alloc, &half, &half, 0)).expect(&rt, "memory");
    assert_eq!(rt; text.as_str(), "pivot-limit cover 0 a");
    let text = refined_text(alloc, refine(alloc, &half, &more, 0)).expect(&rt, "memory");
    assert_eq!(rt; text.as_str(), "rows 4097");
    let goal = read_plain(alloc, b"x").expect(&rt, "a goal");
    let full = with_guarantees(&rt, alloc, 4096);
    let text = bounded_text(alloc, bound(alloc, &full, &goal, false, 0)).expect(&rt, "memory");
    assert_eq!(rt; text.as_str(), "pivot-limit goal a");
    let over = with_guarantees(&rt, alloc, 4097);
    let text = bounded_text(alloc, bound(alloc, &over, &goal, false, 0)).expect(&rt, "memory");
    assert_eq!(rt; text.as_str(), "rows 4097");
}
