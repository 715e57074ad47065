// What a composition tells.
ghost use Rattle.std.specs.Prelude.{◌≡◌, ◌+◌, ◌≤◌, All, IfErr, IfOk, IsErrOf, None, Some, ◌++◌, ◌∷◌, [], drop, length};
ghost use Rattle.std.specs.Option.{option_copied};
ghost use Rattle.pa_meaning.specs.Composition.{all_outputs};
ghost use Rattle.pa_contract.specs.Named.{contracts_named};
ghost use Rattle.pa_compose.specs.declared.compose_fault.ComposeFault.TheVariants as Fault;
ghost use Rattle.pa_compose.specs.Composing.{composed_of};
ghost use Rattle.pa_compose.specs.Composite.{IsTrueRefusal};
ghost use Rattle.pa_discharge.specs.Meant.{HasNumbers};
ghost use Rattle.pa_answers.specs.Answers as spec;

use crate::located::with_numbers;
use crate::told::{limited, refused, too_wide};
use pa_cert::{Answer, Composed, Heading, LineAnswer, NameRefusal, StuckRow, StuckRows, Table};
use pa_compose::{ComposeFault, compose};
use pa_contract::{Contract, Nominal};
use pa_names::{Name, Names};
use pa_parts::Parts;
use pa_row::{Limits, Stuck};
use std::alloc::{AllocError, Global};

// Whether no contract has the name.
fn is_unknown(table: &Table, name: &Name) -> bool
    ensures { result ≡ spec.is_unknown table.now name.now }
{
    table.find(name).is_none()
}

/// The first of these names that no contract of the table has.
pub(crate) fn first_unknown<'a>(table: &Table, names: &'a [Name]) -> Option<&'a Name>
    ensures { option_copied result ≡ spec.first_unknown table.now names.now }
{
    for name in names {
        if is_unknown(table, name) {
            return Some(name);
        }
    }
    None
}

/// The contracts of these names, each of which the table has.
pub(crate) fn parts_named<'a>(
    alloc: Global,
    table: &'a Table,
    names: &[Name],
) -> Result<Parts<'a>, AllocError>
    requires { spec.first_unknown table.now names.now ≡ None }
    ensures { IfOk result (λ parts. contracts_named table.now.contracts names.now ≡ Some parts) }
{
    let mut parts = Parts::new(alloc);
    for name in names {
        match table.find(name) {
            Some(contract) => parts.add(contract)?,
            None => unreachable!(),
        }
    }
    Ok(parts)
}

// The heading with the numbers of a part's outputs, which begin at a place.
fn with_part(
    alloc: Global,
    heading: Heading,
    part: &Contract,
    numbers: &[i128],
    first: usize,
) -> Result<Heading, AllocError>
    requires { first + length part.now.outputs ≤ length numbers.now }
    ensures { IfOk result (λ h. h ≡ spec.with_numbers heading part.now.outputs (drop first numbers.now)) }
{
    with_numbers(alloc, heading, &part.outputs, &numbers[first..])
}

// The direction, by the names of the parts' outputs whose number is not 0.
fn heading_of_parts(alloc: Global, parts: &Parts, numbers: &[i128]) -> Result<Heading, AllocError>
    requires { length (all_outputs parts.now) ≤ length numbers.now }
    ensures { IfOk result (λ h. h ≡ spec.heading_of (all_outputs parts.now) numbers.now) }
{
    let mut heading = Heading {
        names: Vec::new(alloc),
        numbers: Vec::new(alloc),
    };
    let mut first = 0;
    for place in 0..parts.len() {
        let part = parts.at(place);
        heading = match with_part(alloc, heading, part, numbers, first) {
            Ok(more) => more,
            Err(fault) => return Err(fault),
        };
        first += part.outputs.len() as usize;
    }
    Ok(heading)
}

// The assumption for which no weights exist, with its direction by names.
fn stuck_row(alloc: Global, parts: &Parts, stuck: Stuck) -> Result<StuckRow, AllocError>
    requires { HasNumbers parts.now stuck }
    ensures { IfOk result (λ row. row ≡ spec.stuck_row parts.now stuck) }
{
    let direction = heading_of_parts(alloc, parts, &stuck.direction)?;
    Ok(StuckRow {
        part: stuck.part,
        row: stuck.row,
        direction,
    })
}

// The rows so far and one more.
fn with_stuck_row(
    alloc: Global,
    parts: &Parts,
    mut rows: Vec<StuckRow>,
    stuck: Stuck,
) -> Result<Vec<StuckRow>, AllocError>
    requires { HasNumbers parts.now stuck }
    ensures { IfOk result (λ all. all.items ≡ rows.items ++ spec.stuck_row parts.now stuck ∷ []) }
{
    let row = stuck_row(alloc, parts, stuck)?;
    rows.push(row)?;
    Ok(rows)
}

// The same of each part of a circle.
fn stuck_rows(alloc: Global, parts: &Parts, stuck: Vec<Stuck>) -> Result<StuckRows, AllocError>
    requires { All (HasNumbers parts.now) stuck.items }
    ensures { IfOk result (λ rows. rows ≡ spec.stuck_rows parts.now stuck.items) }
{
    let mut rows = Vec::new(alloc);
    for one in stuck {
        rows = match with_stuck_row(alloc, parts, rows, one) {
            Ok(more) => more,
            Err(fault) => return Err(fault),
        };
    }
    Ok(StuckRows { stuck: rows })
}

// The answer by a refusal of the operation.
fn refused_by(alloc: Global, parts: &Parts, fault: ComposeFault) -> Result<LineAnswer, AllocError>
    requires { IsTrueRefusal parts.now fault }
    ensures answer { IfOk result (λ answer. answer ≡ spec.refusal_answer parts.now fault) }
    ensures settled { IfOk result (λ answer. ¬ (fault ≡ Fault.Memory)) }
{
    match fault {
        ComposeFault::Memory => Err(AllocError),
        ComposeFault::PortClash { name } => Ok(refused(NameRefusal::PortClash { name })),
        ComposeFault::NotOutput { name } => Ok(refused(NameRefusal::NotOutput { name })),
        ComposeFault::VariableLimit { count } => Ok(refused(NameRefusal::Variables { count })),
        ComposeFault::Load { count } => Ok(refused(NameRefusal::Rows { count })),
        ComposeFault::NoMultipliers { stuck } => {
            let stuck = stuck_row(alloc, parts, stuck)?;
            Ok(LineAnswer::Answered {
                answer: Answer::NoMultipliers { stuck },
            })
        }
        ComposeFault::Circle { stuck } => {
            let stuck = stuck_rows(alloc, parts, stuck.stuck)?;
            Ok(LineAnswer::Answered {
                answer: Answer::Circle { stuck },
            })
        }
        ComposeFault::RowLimit { step, count } => Ok(LineAnswer::Answered {
            answer: Answer::RowLimit { step, count },
        }),
        ComposeFault::PivotLimit(place) => Ok(limited(place)),
        ComposeFault::Wide(place) => Ok(too_wide(place)),
    }
}

// The answer by what the operation gave.
fn told(
    alloc: Global,
    parts: &Parts,
    outcome: Result<Composed, ComposeFault>,
) -> Result<LineAnswer, AllocError>
    requires { IfErr outcome (IsTrueRefusal parts.now) }
    ensures answer { IfOk result (λ answer. answer ≡ spec.compose_answer parts.now outcome) }
    ensures settled { IfOk result (λ answer. ¬ IsErrOf outcome Fault.Memory) }
{
    match outcome {
        Ok(answer) => Ok(LineAnswer::Answered {
            answer: Answer::Composed { answer },
        }),
        Err(fault) => refused_by(alloc, parts, fault),
    }
}

/// The composite of these parts, of which these outputs are kept, or why there is none.
pub(crate) fn composed(
    alloc: Global,
    parts: &Parts,
    keep: &Names,
    nominal: &Nominal,
    limits: Limits,
) -> Result<LineAnswer, AllocError>
    requires few { length parts.now ≤ 32 }
    ensures { IfOk result (λ answer. answer ≡ spec.compose_answer parts.now (composed_of parts.now keep.now nominal.now limits.rows limits.pivots)) }
{
    let outcome = compose(alloc, parts, keep, nominal, limits);
    told(alloc, parts, outcome)
}
