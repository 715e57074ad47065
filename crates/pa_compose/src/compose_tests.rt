// Compositions of small contracts. The answers are worked by hand, or those of another program, which was written from the
// same description in Python: its `compose`, and the refusals by names that it looks for before.
ghost use Rattle.std.specs.Prelude.{◌↔◌, ◌≡◌, ◌≤◌, All, IsTrue, length, true};
ghost use Rattle.pa_row.specs.Fractions.{IsFraction};

use crate::{ComposeFault, compose};
use pa_cert::{Composed, NamedStep};
use pa_contract::{Contract, Nominal, make_from};
use pa_frac::gcd;
use pa_names::{Name, Names};
use pa_parts::Parts;
use pa_row::{Discharge, Dropped, Group, Limits, Place, Row, Spot, Stuck, Task, Weights};
use std::alloc::{AllocError, Global};
use std::fmt::Write;
use std::process::Abort;

fn name_of(rt: &impl Abort, alloc: Global, text: &str) -> Name {
    Name::read(alloc, text.as_bytes()).expect(rt, "a name")
}

fn names_of(rt: &impl Abort, alloc: Global, text: &str) -> Names {
    let mut names = Names::new(alloc);
    for word in text.split_whitespace() {
        names.add(name_of(rt, alloc, word)).expect(rt, "a new name");
    }
    names
}

fn number_of(rt: &impl Abort, text: &str) -> i128 {
    i128::from(text.parse::<i64>().expect(rt, "a number"))
}

// The row with the numbers of a text, of which the last is the bound.
fn row_of(rt: &impl Abort, alloc: Global, text: &str) -> Row {
    let (front, bound) = text.rsplit_once(' ').unwrap_or(("", text));
    let b = number_of(rt, bound);
    let mut c = Vec::new(alloc);
    for word in front.split_whitespace() {
        c.push(number_of(rt, word)).expect(rt, "memory");
    }
    Row::checked(c, b).expect(rt, "a row")
}

// The rows of a text, each behind a comma but the first.
fn rows_of(rt: &impl Abort, alloc: Global, text: &str) -> Vec<Row> {
    let mut rows = Vec::new(alloc);
    for part in text.split(',') {
        if !part.trim().is_empty() {
            rows.push(row_of(rt, alloc, part.trim()))
                .expect(rt, "memory");
        }
    }
    rows
}

fn have_columns(rows: &[Row], columns: usize) -> bool
    ensures { IsTrue result ↔ All (λ row. length row.c ≡ columns) rows.now }
{
    rows.iter().all(|row| row.c.len() == columns)
}

// The contract of a text, as `x / y / 1 2 / 1 1 3, 0 1 4`.
fn contract_of(rt: &impl Abort, alloc: Global, text: &str) -> Contract {
    let (inputs, rest) = text.split_once('/').unwrap_or((text, ""));
    let (outputs, rest) = rest.split_once('/').unwrap_or((rest, ""));
    let (assumptions, guarantees) = rest.split_once('/').unwrap_or((rest, ""));
    let inputs = names_of(rt, alloc, inputs);
    let outputs = names_of(rt, alloc, outputs);
    let assumptions = rows_of(rt, alloc, assumptions);
    let guarantees = rows_of(rt, alloc, guarantees);
    let columns = inputs.len() as usize;
    let all = columns + outputs.len() as usize;
    assert!(rt; have_columns(&assumptions, columns) && have_columns(&guarantees, all));
    assert!(rt; assumptions.len() < 16 && guarantees.len() < 16);
    make_from(alloc, inputs, outputs, assumptions, guarantees).expect(rt, "a contract")
}

// The contracts of a text, each behind a semicolon but the first.
fn contracts_of(rt: &impl Abort, alloc: Global, text: &str) -> Vec<Contract> {
    let mut contracts = Vec::new(alloc);
    for part in text.split(';') {
        contracts
            .push(contract_of(rt, alloc, part))
            .expect(rt, "memory");
    }
    contracts
}

// The fraction is in lowest terms, with a positive denominator and numbers of at most 126 bits.
fn is_fraction(n: i128, d: i128) -> bool
    ensures { result ≡ true → IsFraction (n, d) }
{
    let limit = 1 << 126;
    0 < d && d < limit && -limit < n && n < limit && gcd(n.unsigned_abs(), d.unsigned_abs()) == 1
}

fn are_fractions(parts: &[(i128, i128)]) -> bool
    ensures { result ≡ true → All IsFraction parts.now }
{
    parts.iter().all(|part| is_fraction(part.0, part.1))
}

// The nominal values of a text, as `i=5/1 j=3/7`. Each is in lowest terms.
fn nominal_of(rt: &impl Abort, alloc: Global, text: &str) -> Nominal {
    let mut names = Names::new(alloc);
    let mut values = Vec::new(alloc);
    for word in text.split_whitespace() {
        let (name, value) = word.split_once('=').unwrap_or((word, ""));
        let (num, den) = value.split_once('/').unwrap_or((value, "1"));
        names.add(name_of(rt, alloc, name)).expect(rt, "a new name");
        values
            .push((number_of(rt, num), number_of(rt, den)))
            .expect(rt, "memory");
    }
    assert!(rt; values.len() == names.len() as usize);
    assert!(rt; are_fractions(&values));
    Nominal { names, values }
}

fn write_weights(text: &mut String, weights: &Weights) -> Result<(), AllocError> {
    let den = weights.den;
    write!(text, " {den}")?;
    for (place, number) in &weights.parts {
        write!(text, " {place}:{number}")?;
    }
    Ok(())
}

// The numbers of rows, each row behind a comma but the first.
fn write_rows(text: &mut String, rows: &[Row]) -> Result<(), AllocError> {
    for place in 0..rows.len() {
        if place > 0 {
            text.push_str(", ")?;
        }
        let row = &rows[place];
        for number in &row.c {
            write!(text, "{number} ")?;
        }
        let bound = row.b;
        write!(text, "{bound}")?;
    }
    Ok(())
}

fn write_name(text: &mut String, name: &Name) -> Result<(), AllocError> {
    for byte in name.bytes() {
        text.push(char::from(*byte))?;
    }
    Ok(())
}

fn write_names(text: &mut String, names: &Names) -> Result<(), AllocError> {
    for place in 0..names.len() {
        if place > 0 {
            text.push_str(" ")?;
        }
        write_name(text, names.at(place))?;
    }
    Ok(())
}

fn write_contract(text: &mut String, contract: &Contract) -> Result<(), AllocError> {
    write_names(text, &contract.inputs)?;
    text.push_str(" / ")?;
    write_names(text, &contract.outputs)?;
    text.push_str(" / ")?;
    write_rows(text, &contract.assumptions)?;
    text.push_str(" / ")?;
    write_rows(text, &contract.guarantees)
}

fn write_drops(text: &mut String, drops: &[Dropped]) -> Result<(), AllocError> {
    for dropped in drops {
        let row = dropped.row;
        write!(text, ", drop {row}")?;
        write_weights(text, &dropped.weights)?;
    }
    Ok(())
}

fn write_discharge(text: &mut String, discharge: &Discharge) -> Result<(), AllocError> {
    let round = discharge.round;
    write!(text, "; part {round}")?;
    for weights in &discharge.shifts {
        text.push_str(", shift")?;
        write_weights(text, weights)?;
    }
    Ok(())
}

fn write_step(text: &mut String, step: &NamedStep) -> Result<(), AllocError> {
    text.push_str("; step ")?;
    match &step.name {
        Some(name) => write_name(text, name)?,
        None => text.push_str("-")?,
    }
    write_drops(text, &step.drops)
}

fn write_composed(text: &mut String, composed: &Composed) -> Result<(), AllocError> {
    write_contract(text, &composed.contract)?;
    for discharge in &composed.discharges.parts {
        write_discharge(text, discharge)?;
    }
    text.push_str("; thin")?;
    write_drops(text, &composed.thin.drops)?;
    for step in &composed.steps.steps {
        write_step(text, step)?;
    }
    Ok(())
}

// A stuck row, as `1 0: -1 2`.
fn write_stuck(text: &mut String, stuck: &Stuck) -> Result<(), AllocError> {
    let part = stuck.part;
    let row = stuck.row;
    write!(text, "{part} {row}:")?;
    for number in &stuck.direction {
        write!(text, " {number}")?;
    }
    Ok(())
}

fn write_group(text: &mut String, word: &str, group: Group, row: u32) -> Result<(), AllocError> {
    match group {
        Group::Thin => write!(text, " {word} thin {row}"),
        Group::Step(step) => write!(text, " {word} {step} {row}"),
    }
}

fn write_task(text: &mut String, task: Task) -> Result<(), AllocError> {
    match task {
        Task::Nominal => text.push_str(" nominal"),
        Task::Shift { round, part, row } => write!(text, " shift {round} {part} {row}"),
        Task::Whole { part, row } => write!(text, " whole {part} {row}"),
        Task::Filter { group, row } => write_group(text, "filter", group, row),
        _ => text.push_str(" other"),
    }
}

// A place behind its word, as `wide shift 1 1 0 a load`, and as `wide nominal` where no problem is solved.
fn write_place(text: &mut String, word: &str, place: Place) -> Result<(), AllocError> {
    text.push_str(word)?;
    write_task(text, place.task)?;
    if matches!(place.task, Task::Nominal) {
        return Ok(());
    }
    match place.spot {
        Spot::Load => text.push_str(" a load"),
        Spot::Pivot { pivot, row, column } => write!(text, " a pivot {pivot} {row} {column}"),
        Spot::Read => text.push_str(" a read"),
        Spot::Check => text.push_str(" a check"),
    }
}

fn write_fault(text: &mut String, fault: &ComposeFault) -> Result<(), AllocError> {
    match fault {
        ComposeFault::Memory => text.push_str("memory"),
        ComposeFault::PortClash { name } => {
            text.push_str("port-clash ")?;
            write_name(text, name)
        }
        ComposeFault::NotOutput { name } => {
            text.push_str("not-output ")?;
            write_name(text, name)
        }
        ComposeFault::VariableLimit { count } => write!(text, "variables {count}"),
        ComposeFault::Load { count } => write!(text, "rows {count}"),
        ComposeFault::NoMultipliers { stuck } => {
            text.push_str("no-multipliers ")?;
            write_stuck(text, stuck)
        }
        ComposeFault::Circle { stuck } => {
            text.push_str("circle")?;
            for one in &stuck.stuck {
                text.push_str("; ")?;
                write_stuck(text, one)?;
            }
            Ok(())
        }
        ComposeFault::RowLimit { step, count } => write!(text, "row-limit {step} {count}"),
        ComposeFault::PivotLimit(place) => write_place(text, "pivot-limit", *place),
        ComposeFault::Wide(place) => write_place(text, "wide", *place),
    }
}

fn composed_text(
    alloc: Global,
    composed: Result<Composed, ComposeFault>,
) -> Result<String, AllocError> {
    let mut text = String::new(alloc);
    match composed {
        Ok(composed) => write_composed(&mut text, &composed)?,
        Err(fault) => write_fault(&mut text, &fault)?,
    }
    Ok(text)
}

// Parts, the outputs that are kept, nominal values, how many rows a step and how many pivots a problem may have, and the
// composite: its contract, of each part the round and the weights, the drops of the assumptions, and the steps. Chains in
// and against the order of the line; a part that needs nothing within a circle; nominal values that choose the weights;
// circles and assumptions that nothing serves; each refusal by names; and limits and wide numbers at each kind of task.
const COMPOSITIONS: &str = "\
i / o / 1 2, -1 2 / -1 1 0, 1 -2 2; o / p / -1 1, 5 1 / -1 1 0 |  |  | 1024 4096 | i / p / -1 0, 5 1 / -1 0 2, -1 1 0; part 0, shift 1, shift 1; part 1, shift 2 1:1, shift 1 0:5; thin; step -; step o
i / o / 1 2, -1 2 / -1 1 0, 1 -2 2; o / p / -1 1, 5 1 / -1 1 0 | o |  | 1024 4096 | i / o p / -1 0, 5 1 / -1 1 0 0, 1 -2 0 2, 0 -1 1 0; part 0, shift 1, shift 1; part 1, shift 2 1:1, shift 1 0:5; thin; step -
a / b / 1 1 / 0 1 1; b / a / 1 1 / 0 1 1 |  |  | 1024 4096 | circle; 0 0: 1 1; 1 0: 1 1
a / b / 1 1 / 0 1 1; b / a /  / 0 1 1 | a |  | 1024 4096 |  / a /  / 1 1; part 1, shift 1 0:1; part 0; thin; step -; step b
i / o /  / 1 -1 0; o /  / 1 1 /  |  |  | 1024 4096 | no-multipliers 1 0: 1
i / o /  / -1 1 0, 0 1 1; o /  / 1 2 /  |  |  | 1024 4096 | i /  / 1 2 / ; part 0; part 1, shift 1 0:1; thin; step -; step o
i / o /  / -1 1 0, 0 1 1; o /  / 1 2 /  |  | i=5/1 | 1024 4096 | i /  /  / ; part 0; part 1, shift 1 1:1; thin; step -; step o
i / o /  / -1 1 0, 0 1 1; o /  / 1 2 /  |  | i=1/2 j=3/7 | 1024 4096 | i /  / 1 2 / ; part 0; part 1, shift 1 0:1; thin; step -; step o
s / t /  / -1 1 0; t b / c / 1 0 4, 0 1 2 / 0 0 1 3; c t / b / 1 0 5, 0 1 9 / 0 0 1 1 |  |  | 1024 4096 | circle; 1 1: 0 1 1; 2 0: 0 1 1
y / z / 1 3 / -1 1 0; x / y / 1 2 / -1 1 1; i / x / 1 1 / -1 1 0 |  |  | 1024 4096 | i / z / 1 1 / -1 1 1; part 2, shift 1 0:1 1:1; part 1, shift 1 0:1; part 0, shift 1; thin; step -; step y; step x
y / z / 1 3 / -1 1 0; x / y / 1 2 / -1 1 1; i / x / 1 1 / -1 1 0 | z x | i=2/1 | 1024 4096 | i / z x / 1 1 / -1 0 1 0, 0 1 -1 1; part 2, shift 1 0:1 1:1; part 1, shift 1 0:1; part 0, shift 1; thin; step -; step y
b / a / 1 1 / 0 1 1; a / b / 1 1 / 0 1 1; a / c / 1 7, -1 7 / 0 1 0 |  |  | 1024 4096 | no-multipliers 2 1: -1 0 0
i / o /  / ; j / p o /  /  |  |  | 1024 4096 | port-clash o
i / o / 1 2, -1 2 / -1 1 0, 1 -2 2; o / p / -1 1, 5 1 / -1 1 0 | o i q |  | 1024 4096 | not-output i
i / o / 1 2, -1 2 / -1 1 0, 1 -2 2; i / o / 1 2, -1 2 / -1 1 0, 1 -2 2 |  |  | 1024 4096 | port-clash o
i / o / 1 2, -1 2 / -1 1 0, 1 -2 2; o / p / -1 1, 5 1 / -1 1 0 |  |  | 1024 1 | pivot-limit filter 0 2 a load
a / b / 1 1 / 0 1 1; b / a / 1 1 / 0 1 1 |  |  | 1024 1 | pivot-limit whole 0 0 a load
i / o /  / 0 1 1, 1 -1 2, 1 1 3, -1 -1 4; o / p /  / 1 -1 0, -1 1 2, 0 1 5, 1 1 7 |  |  | 2 4096 | row-limit 1 9
i / o /  / 0 1 1, 1 -1 2, 1 1 3, -1 -1 4; o / p /  / 1 -1 0, -1 1 2, 0 1 5, 1 1 7 |  |  | 1024 4096 | i / p /  / -1 0 5, 0 1 3, 2 0 5, 1 1 5, 1 -1 2, -1 -1 4; part 0; part 0; thin; step -, drop 6 1 0:1 5:1, drop 7 1 0:2 5:1; step o
i / o /  / 0 1 1, 1 -1 2, 1 1 3, -1 -1 4; o / p /  / 1 -1 0, -1 1 2, 0 1 5, 1 1 7 |  |  | 1024 1 | pivot-limit filter 0 0 a load
i / o / 1 3, 2 5, 3 1 / -1 1 0; o /  / 1 2 /  |  |  | 1024 4096 | i /  / 3 1 / ; part 0, shift 1, shift 1, shift 1; part 1, shift 1 0:1; thin; step -; step o
i j / o /  / -1 -1 1 0, 0 0 1 4; o j /  / 1 0 2, 0 1 9, 1 1 12 /  |  | i=3/2 j=-1/3 | 1024 4096 | i j /  / 1 1 2, 0 1 9 / ; part 0; part 1, shift 1 0:1, shift 1, shift 1 0:1; thin, drop 2 1 0:1 1:1; step -; step o
i / o /  / -1 1 0, 0 1 1; o /  / 1 2 /  |  | i=1/4611686018427387903 | 1024 4096 | i /  / 1 2 / ; part 0; part 1, shift 1 0:1; thin; step -; step o
i j k / o /  / -1 1 1 1 0; o /  / 1 2 /  |  | i=1/4611686018427387903 j=1/4611686018427387901 k=1/4611686018427387899 | 1024 4096 | wide nominal
i j / o /  / 9223372036854775807 9223372036854775807 1 -9223372036854775807; o /  / 1 2 /  |  | i=9223372036854775807/9223372036854775805 j=9223372036854775807/9223372036854775805 | 1024 4096 | wide shift 1 1 0 a load
 /  /  /  |  |  | 1024 4096 |  /  /  / ; part 0; thin; step -
i / o / 1 3 / 0 1 1, 0 -1 -2 |  |  | 1024 4096 | i / o / 1 3 / 0 1 1, 0 -1 -2; part 0, shift 1; thin; step -
i / o / 0 -1 / 0 1 1 |  |  | 1024 4096 | i / o / 0 -1 / 0 1 1; part 0, shift 1; thin; step -
i / o / 1 1 / -1 1 0; o / i2 / 1 2 / 0 1 1; i2 o / q / 1 -1 0, 1 1 4 / -1 0 1 1 | i2 |  | 1024 4096 | no-multipliers 2 0: -1 0 0";

// The parts of a line of a table.
fn parts_of<'a>(line: &'a str) -> [&'a str; 5] {
    let mut parts = [""; 5];
    let mut rest = line;
    for i in 0..5 {
        let (part, more) = rest.split_once(" | ").unwrap_or((rest, ""));
        parts[i] = part;
        rest = more;
    }
    parts
}

fn small(rt: &impl Abort, text: &str) -> u32 {
    u32::from(text.parse::<u16>().expect(rt, "a number"))
}

fn limits_of(rt: &impl Abort, text: &str) -> Limits {
    let (rows, pivots) = text.split_once(' ').unwrap_or((text, ""));
    let rows = small(rt, rows);
    let pivots = small(rt, pivots);
    assert!(rt; 1 <= rows && rows <= 4096);
    assert!(rt; 1 <= pivots && pivots <= 4096);
    Limits { rows, pivots }
}

fn assert_composition(rt: &impl Abort, alloc: Global, line: &str) {
    let [contracts, keep, nominal, limits, wanted] = parts_of(line);
    let contracts = contracts_of(rt, alloc, contracts);
    let keep = names_of(rt, alloc, keep);
    let nominal = nominal_of(rt, alloc, nominal);
    let limits = limits_of(rt, limits);
    let mut parts = Parts::new(alloc);
    for contract in &contracts {
        parts.add(contract).expect(rt, "memory");
    }
    assert!(rt; parts.len() <= 32);
    let composed = compose(alloc, &parts, &keep, &nominal, limits);
    let text = composed_text(alloc, composed).expect(rt, "memory");
    assert_eq!(rt; text.as_str(), wanted, "{line}");
}

#[test]
fn parts_are_composed_or_a_refusal_is_due(rt: HostRuntime) {
    for line in COMPOSITIONS.lines() {
        assert_composition(&rt, rt.alloc(), line);
    }
}

// The outputs of two parts, 129 together.
#[test]
fn too_many_names_are_refused(rt: HostRuntime) {
    assert_composition(&rt, rt.alloc(), TOO_MANY_NAMES);
}

const TOO_MANY_NAMES: &str =
    " / v0 v1 v2 v3 v4 v5 v6 v7 v8 v9 v10 v11 v12 v13 v14 v15 v16 v17 v18 v19 v20 v21 v22 v23 v24 v25 v26 v27 v28 v29 v30 v31 v32 v33 v34 v35 v36 v37 v38 v39 v40 v41 v42 v43 v44 v45 v46 v47 v48 v49 v50 v51 v52 v53 v54 v55 v56 v57 v58 v59 v60 v61 v62 v63 v64 v65 v66 v67 v68 v69 /  / ;  / w0 w1 w2 w3 w4 w5 w6 w7 w8 w9 w10 w11 w12 w13 w14 w15 w16 w17 w18 w19 w20 w21 w22 w23 w24 w25 w26 w27 w28 w29 w30 w31 w32 w33 w34 w35 w36 w37 w38 w39 w40 w41 w42 w43 w44 w45 w46 w47 w48 w49 w50 w51 w52 w53 w54 w55 w56 w57 w58 /  /  |  |  | 1024 4096 | variables 129";
