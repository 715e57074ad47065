// Parts that are discharged, and parts that are not. The answers are worked by hand, or those of another program, which was
// written from the same description in Python.
ghost use Rattle.std.specs.Prelude.{◌↔◌, ◌≡◌, ◌≤◌, All, IsTrue, length, sum_by, true};
ghost use Rattle.std.specs.List.{IsDistinct};
ghost use Rattle.std.specs.Str.{bytes_eq};
ghost use Rattle.pa_row.specs.Fractions.{IsFraction};
ghost use Rattle.pa_meaning.specs.Composition.{all_outputs, names_of as names_of_parts};
ghost use Rattle.pa_contract.specs.Merge.{row_count};
ghost use Rattle.pa_parts.specs.Composing.{ArePortsOf};

use crate::{DischargeFault, Discharged, discharge};
use pa_contract::{Contract, Nominal, make_from};
use pa_frac::gcd;
use pa_names::{Name, Names};
use pa_parts::{Parts, Ports, ports_of};
use pa_row::{Discharge, Place, Row, Spot, Stuck, Task, Weights};
use pa_tableau::Work;
use std::alloc::{AllocError, Global};
use std::fmt::Write;
use std::process::Abort;

fn name_of(rt: &impl Abort, alloc: Global, text: &str) -> Name {
    Name::read(alloc, text.as_bytes()).expect(rt, "a name")
}

fn names_of(rt: &impl Abort, alloc: Global, text: &str) -> Names {
    let mut names = Names::new(alloc);
    for word in text.split_whitespace() {
        names.add(name_of(rt, alloc, word)).expect(rt, "a new name");
    }
    names
}

fn number_of(rt: &impl Abort, text: &str) -> i128 {
    i128::from(text.parse::<i64>().expect(rt, "a number"))
}

// The row with the numbers of a text, of which the last is the bound.
fn row_of(rt: &impl Abort, alloc: Global, text: &str) -> Row {
    let (front, bound) = text.rsplit_once(' ').unwrap_or(("", text));
    let b = number_of(rt, bound);
    let mut c = Vec::new(alloc);
    for word in front.split_whitespace() {
        c.push(number_of(rt, word)).expect(rt, "memory");
    }
    Row::checked(c, b).expect(rt, "a row")
}

// The rows of a text, each behind a comma but the first.
fn rows_of(rt: &impl Abort, alloc: Global, text: &str) -> Vec<Row> {
    let mut rows = Vec::new(alloc);
    for part in text.split(',') {
        if !part.trim().is_empty() {
            rows.push(row_of(rt, alloc, part.trim()))
                .expect(rt, "memory");
        }
    }
    rows
}

fn have_columns(rows: &[Row], columns: usize) -> bool
    ensures { IsTrue result ↔ All (λ row. length row.c ≡ columns) rows.now }
{
    rows.iter().all(|row| row.c.len() == columns)
}

// The contract of a text, as `x / y / 1 2 / 1 1 3, 0 1 4`.
fn contract_of(rt: &impl Abort, alloc: Global, text: &str) -> Contract {
    let (inputs, rest) = text.split_once('/').unwrap_or((text, ""));
    let (outputs, rest) = rest.split_once('/').unwrap_or((rest, ""));
    let (assumptions, guarantees) = rest.split_once('/').unwrap_or((rest, ""));
    let inputs = names_of(rt, alloc, inputs);
    let outputs = names_of(rt, alloc, outputs);
    let assumptions = rows_of(rt, alloc, assumptions);
    let guarantees = rows_of(rt, alloc, guarantees);
    let columns = inputs.len() as usize;
    let all = columns + outputs.len() as usize;
    assert!(rt; have_columns(&assumptions, columns) && have_columns(&guarantees, all));
    assert!(rt; assumptions.len() < 16 && guarantees.len() < 16);
    make_from(alloc, inputs, outputs, assumptions, guarantees).expect(rt, "a contract")
}

// The contracts of a text, each behind a semicolon but the first.
fn contracts_of(rt: &impl Abort, alloc: Global, text: &str) -> Vec<Contract> {
    let mut contracts = Vec::new(alloc);
    for part in text.split(';') {
        contracts
            .push(contract_of(rt, alloc, part))
            .expect(rt, "memory");
    }
    contracts
}

// The fraction is in lowest terms, with a positive denominator and numbers of at most 126 bits.
fn is_fraction(n: i128, d: i128) -> bool
    ensures { result ≡ true → IsFraction (n, d) }
{
    let limit = 1 << 126;
    0 < d && d < limit && -limit < n && n < limit && gcd(n.unsigned_abs(), d.unsigned_abs()) == 1
}

fn are_fractions(parts: &[(i128, i128)]) -> bool
    ensures { result ≡ true → All IsFraction parts.now }
{
    parts.iter().all(|part| is_fraction(part.0, part.1))
}

// The nominal values of a text, as `i=5/1 j=3/7`. Each is in lowest terms.
fn nominal_of(rt: &impl Abort, alloc: Global, text: &str) -> Nominal {
    let mut names = Names::new(alloc);
    let mut values = Vec::new(alloc);
    for word in text.split_whitespace() {
        let (name, value) = word.split_once('=').unwrap_or((word, ""));
        let (num, den) = value.split_once('/').unwrap_or((value, "1"));
        names.add(name_of(rt, alloc, name)).expect(rt, "a new name");
        values
            .push((number_of(rt, num), number_of(rt, den)))
            .expect(rt, "memory");
    }
    assert!(rt; values.len() == names.len() as usize);
    assert!(rt; are_fractions(&values));
    Nominal { names, values }
}

fn write_weights(text: &mut String, weights: &Weights) -> Result<(), AllocError> {
    let den = weights.den;
    write!(text, " {den}")?;
    for (place, number) in &weights.parts {
        write!(text, " {place}:{number}")?;
    }
    Ok(())
}

// The numbers of rows, each row behind a comma but the first.
fn write_rows(text: &mut String, rows: &[Row]) -> Result<(), AllocError> {
    for place in 0..rows.len() {
        if place > 0 {
            text.push_str(", ")?;
        }
        let row = &rows[place];
        for number in &row.c {
            write!(text, "{number} ")?;
        }
        let bound = row.b;
        write!(text, "{bound}")?;
    }
    Ok(())
}

fn write_discharge(text: &mut String, discharge: &Discharge) -> Result<(), AllocError> {
    let round = discharge.round;
    write!(text, "; part {round}")?;
    for weights in &discharge.shifts {
        text.push_str(", shift")?;
        write_weights(text, weights)?;
    }
    Ok(())
}

// What is left of the assumptions, and each part's round and weights.
fn write_discharged(text: &mut String, discharged: &Discharged) -> Result<(), AllocError> {
    write_rows(text, &discharged.assumptions)?;
    for discharge in &discharged.discharges {
        write_discharge(text, discharge)?;
    }
    Ok(())
}

// A stuck row, as `1 0: -1 2`.
fn write_stuck(text: &mut String, stuck: &Stuck) -> Result<(), AllocError> {
    let part = stuck.part;
    let row = stuck.row;
    write!(text, "{part} {row}:")?;
    for number in &stuck.direction {
        write!(text, " {number}")?;
    }
    Ok(())
}

fn write_task(text: &mut String, task: Task) -> Result<(), AllocError> {
    match task {
        Task::Nominal => text.push_str(" nominal"),
        Task::Shift { round, part, row } => write!(text, " shift {round} {part} {row}"),
        Task::Whole { part, row } => write!(text, " whole {part} {row}"),
        _ => text.push_str(" other"),
    }
}

// A place behind its word, as `wide shift 1 1 0 a load`, and as `wide nominal` where no problem is solved.
fn write_place(text: &mut String, word: &str, place: Place) -> Result<(), AllocError> {
    text.push_str(word)?;
    write_task(text, place.task)?;
    if matches!(place.task, Task::Nominal) {
        return Ok(());
    }
    match place.spot {
        Spot::Load => text.push_str(" a load"),
        Spot::Pivot { pivot, row, column } => write!(text, " a pivot {pivot} {row} {column}"),
        Spot::Read => text.push_str(" a read"),
        Spot::Check => text.push_str(" a check"),
    }
}

fn write_fault(text: &mut String, fault: &DischargeFault) -> Result<(), AllocError> {
    match fault {
        DischargeFault::Memory => text.push_str("memory"),
        DischargeFault::NoMultipliers { stuck } => {
            text.push_str("no-multipliers ")?;
            write_stuck(text, stuck)
        }
        DischargeFault::Circle { stuck } => {
            text.push_str("circle")?;
            for one in &stuck.stuck {
                text.push_str("; ")?;
                write_stuck(text, one)?;
            }
            Ok(())
        }
        DischargeFault::PivotLimit(place) => write_place(text, "pivot-limit", *place),
        DischargeFault::Wide(place) => write_place(text, "wide", *place),
    }
}

fn answer_text(
    alloc: Global,
    answer: Result<Discharged, DischargeFault>,
) -> Result<String, AllocError> {
    let mut text = String::new(alloc);
    match answer {
        Ok(discharged) => write_discharged(&mut text, &discharged)?,
        Err(fault) => write_fault(&mut text, &fault)?,
    }
    Ok(text)
}

// Parts, nominal values, how many pivots a problem may have, and the answer: what is left of the assumptions over the external
// inputs, and of each part the round and the weights. One part alone; chains in and against the order of the line; parts of the
// same round; a part that needs nothing within a circle; nominal values that choose the weights; assumptions that nothing
// serves, and circles, with their directions; and limits and wide numbers with their places.
const DISCHARGES: &str = "\
i / o / 1 2, -1 2 / -1 1 0, 1 -2 2 |  | 4096 | 1 2, -1 2; part 0, shift 1, shift 1
 /  /  /  |  | 4096 | ; part 0
i / o / 1 2, -1 2 / -1 1 0, 1 -2 2; o / p / -1 1, 5 1 / -1 1 0 |  | 4096 | 1 2, -1 2, -1 0, 5 1; part 0, shift 1, shift 1; part 1, shift 2 1:1, shift 1 0:5
y / z / 1 3 / -1 1 0; x / y / 1 2 / -1 1 1; i / x / 1 1 / -1 1 0 |  | 4096 | 1 2, 1 2, 1 1; part 2, shift 1 0:1 1:1; part 1, shift 1 0:1; part 0, shift 1
i / o /  / -1 1 0, 0 1 1; o /  / 1 2 /  |  | 4096 | 1 2; part 0; part 1, shift 1 0:1
i / o /  / -1 1 0, 0 1 1; o /  / 1 2 /  | i=5/1 | 4096 | 0 1; part 0; part 1, shift 1 1:1
i / o /  / -1 1 0, 0 1 1; o /  / 1 2 /  | i=1/2 j=3/7 | 4096 | 1 2; part 0; part 1, shift 1 0:1
i / o /  / -2 1 0, 1 2 7; o /  / 3 9, 1 1 /  | i=3/5 | 4096 | 2 3, 2 1; part 0; part 1, shift 1 0:3, shift 1 0:1
i / o /  / -2 1 0, 1 2 7; o /  / 3 9, 1 1 /  | i=8/5 | 4096 | -1 -1, -1 -5; part 0; part 1, shift 2 1:3, shift 2 1:1
i / o /  / 1 -1 0; o /  / 1 1 /  |  | 4096 | no-multipliers 1 0: 1
b / a / 1 1 / 0 1 1; a / b / 1 1 / 0 1 1; a / c / 1 7, -1 7 / 0 1 0 |  | 4096 | no-multipliers 2 1: -1 0 0
a / b / 1 1 / 0 1 1; b / a / 1 1 / 0 1 1 |  | 4096 | circle; 0 0: 1 1; 1 0: 1 1
s / t /  / -1 1 0; t b / c / 1 0 4, 0 1 2 / 0 0 1 3; c t / b / 1 0 5, 0 1 9 / 0 0 1 1 |  | 4096 | circle; 1 1: 0 1 1; 2 0: 0 1 1
a / b / 1 1 / 0 1 1; b / a /  / 0 1 1 |  | 4096 | 0; part 1, shift 1 0:1; part 0
i / o /  / -1 1 0, 0 1 1; o /  / 1 2 /  |  | 1 | 1 2; part 0; part 1, shift 1 0:1
i / o /  / -1 1 0, 1 1 1; o /  / 1 2 /  | i=5/1 | 1 | pivot-limit shift 1 1 0 a load
a / b / 1 1 / 0 1 1; b / a / 1 1 / 0 1 1 |  | 1 | pivot-limit whole 0 0 a load
i j k / o /  / -1 1 1 1 0; o /  / 1 2 /  | i=1/4611686018427387903 j=1/4611686018427387901 k=1/4611686018427387899 | 4096 | wide nominal
i j / o /  / 9223372036854775807 9223372036854775807 1 -9223372036854775807; o /  / 1 2 /  | i=9223372036854775807/9223372036854775805 j=9223372036854775807/9223372036854775805 | 4096 | wide shift 1 1 0 a load
i / o p /  / -1 1 0 0, 0 0 1 4, 0 -1 1 2; o p / q / 1 1 6, 0 1 9 / 0 1 1 2; q / r / 1 5 / -1 1 0 | i=2 | 4096 | no-multipliers 2 0: 0 -1 1 1
i / o p /  / -1 1 0 0, 0 0 1 4, 0 -1 1 2; o p / q / 1 1 6, 0 1 9 / 0 1 1 2; q / r / 1 5 / -1 1 0 | i=2 | 2 | pivot-limit shift 2 2 0 a load
i / o / 1 3, 2 5, 3 1 / -1 1 0; o /  / 1 2 /  |  | 4096 | 1 3, 2 5, 3 1, 1 2; part 0, shift 1, shift 1, shift 1; part 1, shift 1 0:1
i j / o /  / -1 -1 1 0, 0 0 1 4; o j /  / 1 0 2, 0 1 9, 1 1 12 /  | i=3/2 j=-1/3 | 4096 | 1 1 2, 0 1 9, 1 2 12; part 0; part 1, shift 1 0:1, shift 1, shift 1 0:1
o p / q / 1 1 6, 1 0 9 / 0 0 1 2; i / o /  / -1 1 0, 0 1 4; i / p /  / 0 1 2, -2 1 0 | i=2 | 4096 | 1 4, 1 9; part 1, shift 1 0:1 2:1, shift 1 0:1; part 0; part 0
o p / q / 1 1 6, 1 0 9 / 0 0 1 2; i / o /  / -1 1 0, 0 1 4; i / p /  / 0 1 2, -2 1 0 | i=5 | 4096 | 0 0, 0 1; part 1, shift 1 1:1 2:1, shift 1 1:1; part 0; part 0
o p / q / 1 1 6, 1 0 9 / 0 0 1 2; i / o /  / -1 1 0, 0 1 4; i / p /  / 0 1 2, -2 1 0 |  | 4096 | 1 2, 1 9; part 1, shift 1 0:1 3:1, shift 1 0:1; part 0; part 0
o p / q / 1 1 6, 1 0 9 / 0 0 1 2; i / o /  / -1 1 0, 0 1 4; i / p /  / 0 1 2, -2 1 0 |  | 1 | pivot-limit shift 1 0 0 a load
i / o /  / -1 1 0; o / p / 1 2 / -1 1 0; q / r / 1 0 / 0 1 5; r / q / -1 4, 1 6 / 0 -1 3, 0 1 2 |  | 4096 | no-multipliers 3 0: 0 0 -1 0
i / o / 1 1, 1 5 / -1 1 0; o /  / 1 9, -1 0 /  |  | 4096 | no-multipliers 1 1: -1
c / a / 1 1 / 0 1 1; a / b / 1 1 / 0 1 1; b / c / 1 1 / 0 1 1 |  | 4096 | circle; 0 0: 1 1 1; 1 0: 1 1 1; 2 0: 1 1 1";

// The parts of a line of the table.
fn parts_of<'a>(line: &'a str) -> [&'a str; 4] {
    let mut parts = [""; 4];
    let mut rest = line;
    for i in 0..4 {
        let (part, more) = rest.split_once(" | ").unwrap_or((rest, ""));
        parts[i] = part;
        rest = more;
    }
    parts
}

fn limit_of(rt: &impl Abort, text: &str) -> u32
    ensures { result ≤ 4096 }
{
    let most = u32::from(text.parse::<u16>().expect(rt, "a number"));
    assert!(rt; most <= 4096);
    most
}

// The answer for parts with these names.
#[tactic(auto, using(pa_parts::proofs::Rows::all_guarantees_few))]
fn answer_over(
    alloc: Global,
    parts: &Parts,
    ports: &Ports,
    nominal: &Nominal,
    most: u32,
) -> Result<Discharged, DischargeFault>
    requires names { ArePortsOf parts.now ports.now }
    requires apart { IsDistinct bytes_eq (all_outputs parts.now) }
    requires count { length parts.now ≤ 32 }
    requires few { sum_by row_count parts.now ≤ 64 }
    requires short { length (names_of_parts parts.now) ≤ 128 }
    requires most { most ≤ 4096 }
{
    let Ok(mut work) = Work::new(alloc, 128, 64) else {
        return Err(DischargeFault::Memory);
    };
    discharge(alloc, &mut work, parts, ports, nominal, most)
}

// The answer for these parts.
fn answer_of(
    rt: &impl Abort,
    alloc: Global,
    parts: &Parts,
    nominal: &Nominal,
    most: u32,
) -> Result<Discharged, DischargeFault>
    requires count { length parts.now ≤ 32 }
    requires most { most ≤ 4096 }
{
    let Ok(ports) = ports_of(alloc, parts, &Names::new(alloc)) else {
        panic!(rt; "no names");
    };
    assert!(rt; parts.row_count() <= 64);
    answer_over(alloc, parts, &ports, nominal, most)
}

fn assert_answer(rt: &impl Abort, alloc: Global, line: &str) {
    let [contracts, nominal, most, wanted] = parts_of(line);
    let contracts = contracts_of(rt, alloc, contracts);
    let nominal = nominal_of(rt, alloc, nominal);
    let most = limit_of(rt, most);
    let mut parts = Parts::new(alloc);
    for contract in &contracts {
        parts.add(contract).expect(rt, "memory");
    }
    assert!(rt; parts.len() <= 32);
    let answer = answer_of(rt, alloc, &parts, &nominal, most);
    let text = answer_text(alloc, answer).expect(rt, "memory");
    assert_eq!(rt; text.as_str(), wanted, "{line}");
}

#[test]
fn parts_are_discharged_in_rounds_or_a_refusal_is_due(rt: HostRuntime) {
    for line in DISCHARGES.lines() {
        assert_answer(&rt, rt.alloc(), line);
    }
}
