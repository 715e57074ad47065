// Quotients of small contracts. The answers are worked by hand, or those of another program, which was written from the same
// description in Python: its `quotient`, and the refusals by names and counts that it looks for before.
ghost use Rattle.std.specs.Prelude.{◌↔◌, ◌≡◌, ◌≤◌, All, IsTrue, length, true};
ghost use Rattle.pa_row.specs.Fractions.{IsFraction};

use crate::{QuotientFault, quotient};
use pa_cert::Divided;
use pa_contract::{Contract, Nominal, make_from};
use pa_frac::gcd;
use pa_names::{Name, Names};
use pa_row::{Dropped, Group, Limits, Place, Row, Spot, Task, Weights};
use std::alloc::{AllocError, Global};
use std::fmt::Write;
use std::process::Abort;

fn name_of(rt: &impl Abort, alloc: Global, text: &str) -> Name {
    Name::read(alloc, text.as_bytes()).expect(rt, "a name")
}

fn names_of(rt: &impl Abort, alloc: Global, text: &str) -> Names {
    let mut names = Names::new(alloc);
    for word in text.split_whitespace() {
        names.add(name_of(rt, alloc, word)).expect(rt, "a new name");
    }
    names
}

fn number_of(rt: &impl Abort, text: &str) -> i128 {
    i128::from(text.parse::<i64>().expect(rt, "a number"))
}

// The row with the numbers of a text, of which the last is the bound.
fn row_of(rt: &impl Abort, alloc: Global, text: &str) -> Row {
    let (front, bound) = text.rsplit_once(' ').unwrap_or(("", text));
    let b = number_of(rt, bound);
    let mut c = Vec::new(alloc);
    for word in front.split_whitespace() {
        c.push(number_of(rt, word)).expect(rt, "memory");
    }
    Row::checked(c, b).expect(rt, "a row")
}

// The rows of a text, each behind a comma but the first.
fn rows_of(rt: &impl Abort, alloc: Global, text: &str) -> Vec<Row> {
    let mut rows = Vec::new(alloc);
    for part in text.split(',') {
        if !part.trim().is_empty() {
            rows.push(row_of(rt, alloc, part.trim()))
                .expect(rt, "memory");
        }
    }
    rows
}

fn have_columns(rows: &[Row], columns: usize) -> bool
    ensures { IsTrue result ↔ All (λ row. length row.c ≡ columns) rows.now }
{
    rows.iter().all(|row| row.c.len() == columns)
}

// The contract of a text, as `x / y / 1 2 / 1 1 3, 0 1 4`.
fn contract_of(rt: &impl Abort, alloc: Global, text: &str) -> Contract {
    let (inputs, rest) = text.split_once('/').unwrap_or((text, ""));
    let (outputs, rest) = rest.split_once('/').unwrap_or((rest, ""));
    let (assumptions, guarantees) = rest.split_once('/').unwrap_or((rest, ""));
    let inputs = names_of(rt, alloc, inputs);
    let outputs = names_of(rt, alloc, outputs);
    let assumptions = rows_of(rt, alloc, assumptions);
    let guarantees = rows_of(rt, alloc, guarantees);
    let columns = inputs.len() as usize;
    let all = columns + outputs.len() as usize;
    assert!(rt; have_columns(&assumptions, columns) && have_columns(&guarantees, all));
    assert!(rt; assumptions.len() < 16 && guarantees.len() < 16);
    make_from(alloc, inputs, outputs, assumptions, guarantees).expect(rt, "a contract")
}

// The fraction is in lowest terms, with a positive denominator and numbers of at most 126 bits.
fn is_fraction(n: i128, d: i128) -> bool
    ensures { result ≡ true → IsFraction (n, d) }
{
    let limit = 1 << 126;
    0 < d && d < limit && -limit < n && n < limit && gcd(n.unsigned_abs(), d.unsigned_abs()) == 1
}

fn are_fractions(parts: &[(i128, i128)]) -> bool
    ensures { result ≡ true → All IsFraction parts.now }
{
    parts.iter().all(|part| is_fraction(part.0, part.1))
}

// The nominal values of a text, as `i=5/1 j=3/7`. Each is in lowest terms.
fn nominal_of(rt: &impl Abort, alloc: Global, text: &str) -> Nominal {
    let mut names = Names::new(alloc);
    let mut values = Vec::new(alloc);
    for word in text.split_whitespace() {
        let (name, value) = word.split_once('=').unwrap_or((word, ""));
        let (num, den) = value.split_once('/').unwrap_or((value, "1"));
        names.add(name_of(rt, alloc, name)).expect(rt, "a new name");
        values
            .push((number_of(rt, num), number_of(rt, den)))
            .expect(rt, "memory");
    }
    assert!(rt; values.len() == names.len() as usize);
    assert!(rt; are_fractions(&values));
    Nominal { names, values }
}

fn write_weights(text: &mut String, weights: &Weights) -> Result<(), AllocError> {
    let den = weights.den;
    write!(text, " {den}")?;
    for (place, number) in &weights.parts {
        write!(text, " {place}:{number}")?;
    }
    Ok(())
}

// The numbers of rows, each row behind a comma but the first.
fn write_rows(text: &mut String, rows: &[Row]) -> Result<(), AllocError> {
    for place in 0..rows.len() {
        if place > 0 {
            text.push_str(", ")?;
        }
        let row = &rows[place];
        for number in &row.c {
            write!(text, "{number} ")?;
        }
        let bound = row.b;
        write!(text, "{bound}")?;
    }
    Ok(())
}

fn write_name(text: &mut String, name: &Name) -> Result<(), AllocError> {
    for byte in name.bytes() {
        text.push(char::from(*byte))?;
    }
    Ok(())
}

fn write_names(text: &mut String, names: &Names) -> Result<(), AllocError> {
    for place in 0..names.len() {
        if place > 0 {
            text.push_str(" ")?;
        }
        write_name(text, names.at(place))?;
    }
    Ok(())
}

fn write_contract(text: &mut String, contract: &Contract) -> Result<(), AllocError> {
    write_names(text, &contract.inputs)?;
    text.push_str(" / ")?;
    write_names(text, &contract.outputs)?;
    text.push_str(" / ")?;
    write_rows(text, &contract.assumptions)?;
    text.push_str(" / ")?;
    write_rows(text, &contract.guarantees)
}

fn write_drops(text: &mut String, drops: &[Dropped]) -> Result<(), AllocError> {
    for dropped in drops {
        let row = dropped.row;
        write!(text, ", drop {row}")?;
        write_weights(text, &dropped.weights)?;
    }
    Ok(())
}

// The contract, a mark for each guarantee, the weights of each shift, and the drops.
fn write_divided(text: &mut String, divided: &Divided) -> Result<(), AllocError> {
    write_contract(text, &divided.contract)?;
    text.push_str("; ")?;
    let marks = &divided.narrow.marks;
    for place in 0..marks.len() {
        if place > 0 {
            text.push_str(" ")?;
        }
        text.push_str(if marks[place] { "narrows" } else { "-" })?;
    }
    for weights in &divided.shifts.weights {
        text.push_str("; shift")?;
        write_weights(text, weights)?;
    }
    text.push_str("; thin")?;
    write_drops(text, &divided.thin.drops)
}

fn write_group(text: &mut String, word: &str, group: Group, row: u32) -> Result<(), AllocError> {
    match group {
        Group::Thin => write!(text, " {word} thin {row}"),
        Group::Step(step) => write!(text, " {word} {step} {row}"),
    }
}

fn write_task(text: &mut String, task: Task) -> Result<(), AllocError> {
    match task {
        Task::Nominal => text.push_str(" nominal"),
        Task::Shift { round, part, row } => write!(text, " shift {round} {part} {row}"),
        Task::Clean { group, row } => write_group(text, "clean", group, row),
        Task::Filter { group, row } => write_group(text, "filter", group, row),
        _ => text.push_str(" other"),
    }
}

// A place behind its word, as `wide shift 0 0 1 a load`, and as `wide nominal` where no problem is solved.
fn write_place(text: &mut String, word: &str, place: Place) -> Result<(), AllocError> {
    text.push_str(word)?;
    write_task(text, place.task)?;
    if matches!(place.task, Task::Nominal | Task::Clean { .. }) {
        return Ok(());
    }
    match place.spot {
        Spot::Load => text.push_str(" a load"),
        Spot::Pivot { pivot, row, column } => write!(text, " a pivot {pivot} {row} {column}"),
        Spot::Read => text.push_str(" a read"),
        Spot::Check => text.push_str(" a check"),
    }
}

fn write_fault(text: &mut String, fault: &QuotientFault) -> Result<(), AllocError> {
    match fault {
        QuotientFault::Memory => text.push_str("memory"),
        QuotientFault::PortClash { name } => {
            text.push_str("port-clash ")?;
            write_name(text, name)
        }
        QuotientFault::VariableLimit { count } => write!(text, "variables {count}"),
        QuotientFault::Load { count } => write!(text, "rows {count}"),
        QuotientFault::NoMultipliers { row, direction } => {
            write!(text, "no-multipliers {row}:")?;
            for number in &direction.numbers {
                write!(text, " {number}")?;
            }
            Ok(())
        }
        QuotientFault::PivotLimit(place) => write_place(text, "pivot-limit", *place),
        QuotientFault::Wide(place) => write_place(text, "wide", *place),
    }
}

fn divided_text(
    alloc: Global,
    divided: Result<Divided, QuotientFault>,
) -> Result<String, AllocError> {
    let mut text = String::new(alloc);
    match divided {
        Ok(divided) => write_divided(&mut text, &divided)?,
        Err(fault) => write_fault(&mut text, &fault)?,
    }
    Ok(text)
}

// The whole, the part, nominal values, how many pivots a problem may have, and the quotient: its contract, which guarantees
// narrow the inputs, the weights of each guarantee of the whole, and the drops. What is left of a guarantee and narrowing
// ones; outputs of the whole that stay and inputs of the part that become outputs; equations; nominal values that choose the
// weights; rows that the others or the whole's assumptions imply; impossible ones; the first guarantee without weights; each
// refusal by names; and limits and wide numbers at each kind of task.
const QUOTIENTS: &str = "\
w / y / -1 0, 1 1 / 0 1 10 | u / y / 1 8 / -2 1 0 |  | 4096 | w / u / -1 0, 1 1 / 0 1 5; -; shift 1 0:1; thin
w / y / 1 8 / 0 1 10 | w / y /  / -2 1 0 |  | 4096 | w /  / 1 8 / 1 5; narrows; shift 1 0:1; thin
w / y /  / 0 1 10 | u / y /  /  |  | 4096 | no-multipliers 0: 1
w / y /  /  | u / w /  /  |  | 4096 | port-clash w
w v / y /  /  | u / x v w /  /  |  | 4096 | port-clash v
 / y /  /  |  / y /  /  |  | 4096 |  /  /  / ; ; thin
 /  /  /  |  /  /  /  |  | 4096 |  /  /  / ; ; thin
 / y /  / 1 5, -1 -5 | u / y /  / -1 1 0, 1 -1 0 |  | 4096 |  / u /  / 1 5, -1 -5; - -; shift 1 0:1; shift 1 1:1; thin
 / y /  / 1 5, -1 -5 | u / y / 1 9, -1 0 / -1 1 0, 1 -1 0 |  | 4096 |  / u /  / 1 5, -1 -5; - -; shift 1 0:1; shift 1 1:1; thin
w / y z / 1 4 / 0 1 1 9, 0 0 1 3, 0 1 0 8 | u z / y / 1 0 7, 0 1 5 / -1 -1 1 0 |  | 4096 | w / z u / 1 4 / 0 0 1 7, 0 2 1 9, 0 1 0 3; - - -; shift 1 0:1; shift 1; shift 1 0:1; thin, drop 3 2 0:1 1:1
w / y z / 1 4 / 0 1 0 9, 0 0 1 3, 0 -1 0 8 | u / y / 1 7 / -1 1 0 |  | 4096 | no-multipliers 2: -1
w / y z / 1 4 / 0 1 0 9, 0 -1 0 8, 0 0 1 3 | u / z y / 1 7 / -1 0 1 0 |  | 4096 | no-multipliers 1: 1 -1
w / y / 1 4, -1 0 / -1 1 0, -1 1 3, 0 1 20 | u w / y / 1 0 7 / -1 -1 1 0 |  | 4096 | w / u / 1 4, -1 0 / 0 1 0; -; shift 1 0:1; shift 1 0:1; shift 1 0:1; thin, drop 1 1 0:1 2:1
 / y /  / 1 3 | u v / y /  / -1 0 1 0, 0 -1 1 1 |  | 4096 |  / u v /  / 1 0 3; -; shift 1 0:1; thin
 / y /  / 1 3 | u v / y /  / -1 0 1 0, 0 -1 1 1 | u=5/1 | 4096 |  / u v /  / 0 1 2; -; shift 1 1:1; thin
 / y /  / 1 3 | u v / y /  / -1 0 1 0, 0 -1 1 1 | v=-3/2 y=9/1 | 4096 |  / u v /  / 0 1 2; -; shift 1 1:1; thin
w / y / 1 2, -1 2 / 1 1 10 | u / y / 1 3, -1 0, 2 7 / -3 2 1 |  | 4096 | w / u / 1 2, -1 2 / 0 1 3, 0 -1 0; - -; shift 2 0:1; thin, drop 2 1 0:3 3:2
w / y / 1 2 / 2 1 10 | u / y / 1 3 / 0 0 -1, -1 1 0 |  | 4096 | w / u / 1 2 / 0 1 3; -; shift 1 1:1; thin, drop 1 1 0:1 2:2
w / y / 1 2, -1 2 / 0 1 10 | u w / y / 1 -1 0, 0 1 3, 1 0 5 / -1 0 1 0, 0 -1 1 7 |  | 4096 | w / u / 1 2, -1 2 / -1 1 0; -; shift 1 0:1; thin, drop 1 1 3:1, drop 2 1 0:1 3:1
w / y / 0 -1 / 0 1 1 | u / y /  / -1 1 0 |  | 4096 | w / u / 0 -1 / 0 1 1; -; shift 1 0:1; thin
w / y / 1 1 / 0 1 1, 0 0 -1 | u / y /  / -1 1 0 |  | 4096 | w / u / 1 1 / 0 0 -1; narrows; shift 1 0:1; shift 1; thin
w / y / 1 1 / 0 1 1, 0 2 3, 1 1 9 | u / y /  / -1 1 0 |  | 1 | pivot-limit filter thin 1 a load
 / y z /  / 1 0 1, 0 1 1, 1 1 1 | u v / y z /  / -1 0 1 0 0, 0 -1 0 1 0, 1 1 -1 -1 0 |  | 1 | pivot-limit shift 0 0 0 a load
 / y z /  / 1 1 1 | u v / y z /  / -1 0 1 0 0, 0 -1 0 1 0 |  | 1 | pivot-limit shift 0 0 0 a load
 / y /  / 1 1 | i j k / y /  / -1 0 0 1 0 | i=1/4611686018427387903 j=1/4611686018427387901 k=1/4611686018427387899 | 4096 | wide nominal
 / y /  / 1 1 | i j / y /  / 9223372036854775807 9223372036854775807 1 -9223372036854775807 | i=9223372036854775807/9223372036854775805 j=9223372036854775807/9223372036854775805 | 4096 | wide shift 0 0 0 a load
 / y z /  / 1 1 1 | u / y z /  / -1 9223372036854775807 1 0, -1 9223372036854775783 9223372036854775643 1, 1 1 1 1 |  | 4096 | wide shift 0 0 0 a pivot 1 2 1
 / y z x /  / 1 1 1 1 | u / y z x /  / -1 999999999999999999 0 0 0, -1 0 999999999999999998 0 0, -1 0 0 999999999999999997 0 |  | 4096 | wide shift 0 0 0 a read
 / y /  / 4611686018427387847 1 | u / y /  / -4611686018427387817 4611686018427387787 1 |  | 4096 |  / u /  / 21267647932558653302378126310941659999 -60; -; shift 4611686018427387787 0:4611686018427387847; thin
 / y /  / 9223372036854775807 1 | u v / y /  / -9223372036854775783 9223372036854775643 9223372036854775549 1 |  | 4096 | wide filter thin 0 a pivot 0 2 2
 / y /  / 4611686018427387847 1 | u / y / 3 4611686018427387903 / -4611686018427387817 4611686018427387787 1 |  | 4096 | wide clean thin 0
w / y / 999999999999999998 1 / 0 1 1 | u w / y / 999999999999999989 1 5, 1 1 1 / -1 -999999999999999997 1 1 |  | 4096 | wide filter thin 1 a pivot 2 1 4
w / y / 1 1 / 0 1 1 | u w / y / 1 999999999999999989 5, 999999999999999998 1 1, 1 1 1 / -1 -1 1 1 |  | 4096 | wide filter thin 2 a pivot 2 0 2
 / y /  / 9223372036854775807 -9223372036854775807 | u / y /  / -1 9223372036854775643 9223372036854775549 |  | 4096 | wide shift 0 0 0 a check";

// The parts of a line of a table.
fn parts_of<'a>(line: &'a str) -> [&'a str; 5] {
    let mut parts = [""; 5];
    let mut rest = line;
    for i in 0..5 {
        let (part, more) = rest.split_once(" | ").unwrap_or((rest, ""));
        parts[i] = part;
        rest = more;
    }
    parts
}

fn limits_of(rt: &impl Abort, text: &str) -> Limits {
    let pivots = u32::from(text.parse::<u16>().expect(rt, "a number"));
    assert!(rt; 1 <= pivots && pivots <= 4096);
    Limits { rows: 1, pivots }
}

fn assert_quotient(rt: &impl Abort, alloc: Global, line: &str) {
    let [whole, part, nominal, limits, wanted] = parts_of(line);
    let whole = contract_of(rt, alloc, whole);
    let part = contract_of(rt, alloc, part);
    let nominal = nominal_of(rt, alloc, nominal);
    let limits = limits_of(rt, limits);
    let divided = quotient(alloc, &whole, &part, &nominal, limits);
    let text = divided_text(alloc, divided).expect(rt, "memory");
    assert_eq!(rt; text.as_str(), wanted, "{line}");
}

#[test]
fn what_is_left_to_ask_is_answered_or_a_refusal_is_due(rt: HostRuntime) {
    for line in QUOTIENTS.lines() {
        assert_quotient(&rt, rt.alloc(), line);
    }
}

// The ports of the whole and the part's output, 128 and then 129 names together.
#[test]
fn too_many_names_are_refused(rt: HostRuntime) {
    assert_quotient(&rt, rt.alloc(), MOST_NAMES);
    assert_quotient(&rt, rt.alloc(), TOO_MANY_NAMES);
}

const MOST_NAMES: &str =
    "v0 v1 v2 v3 v4 v5 v6 v7 v8 v9 v10 v11 v12 v13 v14 v15 v16 v17 v18 v19 v20 v21 v22 v23 v24 v25 v26 v27 v28 v29 v30 v31 v32 v33 v34 v35 v36 v37 v38 v39 v40 v41 v42 v43 v44 v45 v46 v47 v48 v49 v50 v51 v52 v53 v54 v55 v56 v57 v58 v59 v60 v61 v62 v63 v64 v65 v66 v67 v68 v69 v70 v71 v72 v73 v74 v75 v76 v77 v78 v79 v80 v81 v82 v83 v84 v85 v86 v87 v88 v89 v90 v91 v92 v93 v94 v95 v96 v97 v98 v99 v100 v101 v102 v103 v104 v105 v106 v107 v108 v109 v110 v111 v112 v113 v114 v115 v116 v117 v118 v119 v120 v121 v122 v123 v124 v125 / y /  /  | x / y /  /  |  | 4096 | v0 v1 v2 v3 v4 v5 v6 v7 v8 v9 v10 v11 v12 v13 v14 v15 v16 v17 v18 v19 v20 v21 v22 v23 v24 v25 v26 v27 v28 v29 v30 v31 v32 v33 v34 v35 v36 v37 v38 v39 v40 v41 v42 v43 v44 v45 v46 v47 v48 v49 v50 v51 v52 v53 v54 v55 v56 v57 v58 v59 v60 v61 v62 v63 v64 v65 v66 v67 v68 v69 v70 v71 v72 v73 v74 v75 v76 v77 v78 v79 v80 v81 v82 v83 v84 v85 v86 v87 v88 v89 v90 v91 v92 v93 v94 v95 v96 v97 v98 v99 v100 v101 v102 v103 v104 v105 v106 v107 v108 v109 v110 v111 v112 v113 v114 v115 v116 v117 v118 v119 v120 v121 v122 v123 v124 v125 / x /  / ; ; thin";

const TOO_MANY_NAMES: &str =
    "v0 v1 v2 v3 v4 v5 v6 v7 v8 v9 v10 v11 v12 v13 v14 v15 v16 v17 v18 v19 v20 v21 v22 v23 v24 v25 v26 v27 v28 v29 v30 v31 v32 v33 v34 v35 v36 v37 v38 v39 v40 v41 v42 v43 v44 v45 v46 v47 v48 v49 v50 v51 v52 v53 v54 v55 v56 v57 v58 v59 v60 v61 v62 v63 v64 v65 v66 v67 v68 v69 v70 v71 v72 v73 v74 v75 v76 v77 v78 v79 v80 v81 v82 v83 v84 v85 v86 v87 v88 v89 v90 v91 v92 v93 v94 v95 v96 v97 v98 v99 v100 v101 v102 v103 v104 v105 v106 v107 v108 v109 v110 v111 v112 v113 v114 v115 v116 v117 v118 v119 v120 v121 v122 v123 v124 v125 v126 / y /  /  | x / y /  /  |  | 4096 | variables 129";

// A contract with this many assumptions, each another bound of its one input.
fn with_assumptions(rt: &impl Abort, alloc: Global, count: u16) -> Contract {
    let mut assumptions = Vec::new(alloc);
    for bound in 0..count {
        let mut c = Vec::new(alloc);
        c.push(1).expect(rt, "memory");
        let row = Row::checked(c, i128::from(bound)).expect(rt, "a row");
        assumptions.push(row).expect(rt, "memory");
    }
    let inputs = names_of(rt, alloc, "u");
    let outputs = names_of(rt, alloc, "y");
    assert!(rt; have_columns(&assumptions, inputs.len() as usize) && assumptions.len() < 5000);
    make_from(alloc, inputs, outputs, assumptions, Vec::new(alloc)).expect(rt, "a contract")
}

// Of the rows of the part the tightest is left, and stands in for none of the whole's rows.
#[test]
fn more_rows_than_an_operation_takes_are_refused(rt: HostRuntime) {
    let alloc = rt.alloc();
    let whole = contract_of(&rt, alloc, "w / z /  / 0 1 3");
    let nominal = nominal_of(&rt, alloc, "");
    let limits = Limits {
        rows: 1,
        pivots: 4096,
    };
    let part = with_assumptions(&rt, alloc, 4095);
    let text = divided_text(alloc, quotient(alloc, &whole, &part, &nominal, limits));
    assert_eq!(rt;
        text.expect(&rt, "memory").as_str(),
        "w / z u /  / 0 0 1 0, 0 1 0 3; - -; shift 1; thin"
    );
    let part = with_assumptions(&rt, alloc, 4096);
    let text = divided_text(alloc, quotient(alloc, &whole, &part, &nominal, limits));
    assert_eq!(rt; text.expect(&rt, "memory").as_str(), "rows 4097");
}
