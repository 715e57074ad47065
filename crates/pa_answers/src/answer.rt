// The answer to a script line.
ghost use Rattle.std.specs.Prelude.{◌≡◌, ◌≤◌, IfOk, length};
ghost use Rattle.pa_meaning.specs.Contracts.{ports};
ghost use Rattle.pa_witness.specs.Steps.{Two};
ghost use Rattle.pa_row.specs.Steps.{IsLimit};
ghost use Rattle.pa_contract.specs.Merge.{merge_of};
ghost use Rattle.pa_contract.specs.Testing.{tested};
ghost use Rattle.pa_script.specs.Ops.{IsWellFormedOp};
ghost use Rattle.pa_cert.specs.Tables.{CanAdvance};
ghost use Rattle.pa_holds.specs.Tables.{HoldsOver, IsTrueOf};
ghost use Rattle.pa_answers.specs.Answers as spec;
ghost use Rattle.pa_answers.specs.Answers.{AreFormed};

use crate::bounding::bounded;
use crate::composing::{composed, first_unknown, parts_named};
use crate::dividing::divided;
use crate::hiding::hidden;
use crate::point::at_ports;
use crate::refining::refined;
use crate::told::{refused, taken, too_wide, unknown, unknown_port};
use pa_cert::{Answer, LineAnswer, NameRefusal, Table};
use pa_contract::{Contract, MergeFault, TestFault, merge, test};
use pa_grammar::Linear;
use pa_names::{Name, Names};
use pa_refine::first_missing_port;
use pa_row::Point;
use pa_script::{Mentions, Op, ScriptLine};
use std::alloc::{AllocError, Global};

// The merge of two contracts, or its refusal.
fn merged(alloc: Global, a: &Contract, b: &Contract) -> Result<LineAnswer, AllocError>
    ensures { IfOk result (λ answer. answer ≡ spec.merge_answer (merge_of a.now b.now)) }
{
    match merge(alloc, a, b) {
        Ok(contract) => Ok(LineAnswer::Answered {
            answer: Answer::Merged { contract },
        }),
        Err(MergeFault::Memory) => Err(AllocError),
        Err(MergeFault::PortClash { name }) => Ok(refused(NameRefusal::PortClash { name })),
        Err(MergeFault::VariableLimit { count }) => Ok(refused(NameRefusal::Variables { count })),
        Err(MergeFault::Load { count }) => Ok(refused(NameRefusal::Rows { count })),
    }
}

// The answer to a merge.
#[tactic(auto, using(crate::proofs::Truths::merge_given))]
fn merge_line(
    alloc: Global,
    table: &Table,
    name: &Name,
    left: &Name,
    right: &Name,
) -> Result<LineAnswer, AllocError>
    ensures { IfOk result (λ answer. answer ≡ spec.answer_of table.now (Op.Merge name.now left.now right.now)) }
{
    let Some(a) = table.find(left) else {
        return unknown(alloc, left);
    };
    let Some(b) = table.find(right) else {
        return unknown(alloc, right);
    };
    if table.find(name).is_some() {
        return taken(alloc, name);
    }
    merged(alloc, a, b)
}

// What a contract is at a point over its ports.
fn tested_at(alloc: Global, contract: &Contract, at: &Point) -> Result<LineAnswer, AllocError>
    requires { length at.now.p ≡ length (ports contract.now) }
    ensures { IfOk result (λ answer. answer ≡ spec.words_answer (tested contract.now at.now)) }
{
    match test(alloc, contract, at) {
        Ok(tested) => Ok(LineAnswer::Answered {
            answer: Answer::TestedAs { tested },
        }),
        Err(TestFault::Memory) => Err(AllocError),
        Err(TestFault::Wide(place)) => Ok(too_wide(place)),
    }
}

// What a contract is at the point over its ports that a test's point gives.
fn tested_at_ports(
    alloc: Global,
    contract: &Contract,
    names: &Names,
    at: &Point,
) -> Result<LineAnswer, AllocError>
    ensures { IfOk result (λ answer. answer ≡ spec.words_answer (tested contract.now (spec.at_ports contract.now names.now at.now))) }
{
    let at = at_ports(alloc, contract, names, at)?;
    tested_at(alloc, contract, &at)
}

// The answer to a test of a contract.
fn test_of(
    alloc: Global,
    contract: &Contract,
    names: &Names,
    at: &Point,
) -> Result<LineAnswer, AllocError>
    ensures { IfOk result (λ answer. answer ≡ spec.test_answer contract.now names.now at.now) }
{
    if let Some(name) = first_missing_port(contract, names) {
        return unknown_port(alloc, name);
    }
    tested_at_ports(alloc, contract, names, at)
}

// The answer to a test.
#[tactic(auto, using(crate::proofs::Truths::test_given))]
fn test_line(
    alloc: Global,
    table: &Table,
    of: &Name,
    names: &Names,
    at: &Point,
) -> Result<LineAnswer, AllocError>
    ensures { IfOk result (λ answer. answer ≡ spec.answer_of table.now (Op.Test of.now names.now at.now)) }
{
    match table.find(of) {
        Some(contract) => test_of(alloc, contract, names, at),
        None => unknown(alloc, of),
    }
}

// The answer to a refinement.
#[tactic(auto, using(crate::proofs::Truths::refine_given))]
fn refine_line(
    alloc: Global,
    table: &Table,
    first: &Name,
    second: &Name,
) -> Result<LineAnswer, AllocError>
    ensures { IfOk result (λ answer. answer ≡ spec.answer_of table.now (Op.Refine first.now second.now)) }
{
    let Some(a) = table.find(first) else {
        return unknown(alloc, first);
    };
    let Some(b) = table.find(second) else {
        return unknown(alloc, second);
    };
    refined(alloc, a, b, table.limits())
}

// The answer to a bound.
#[tactic(auto, using(crate::proofs::Truths::bound_given))]
fn bound_line(
    alloc: Global,
    table: &Table,
    of: &Name,
    least: bool,
    goal: &Linear,
) -> Result<LineAnswer, AllocError>
    ensures { IfOk result (λ answer. answer ≡ spec.answer_of table.now (Op.Bound of.now least goal.now)) }
{
    match table.find(of) {
        Some(contract) => bounded(alloc, contract, goal, least, table.limits()),
        None => unknown(alloc, of),
    }
}

// The answer to a hiding.
#[tactic(auto, using(crate::proofs::Truths::hide_given))]
fn hide_line(
    alloc: Global,
    table: &Table,
    name: &Name,
    of: &Name,
    names: &Names,
) -> Result<LineAnswer, AllocError>
    ensures { IfOk result (λ answer. answer ≡ spec.answer_of table.now (Op.Hide name.now of.now names.now)) }
{
    let Some(contract) = table.find(of) else {
        return unknown(alloc, of);
    };
    if table.find(name).is_some() {
        return taken(alloc, name);
    }
    hidden(alloc, contract, names, table.limits())
}

// The answer to a composition.
#[tactic(auto, using(crate::proofs::Truths::compose_given))]
fn compose_line(
    alloc: Global,
    table: &Table,
    name: &Name,
    names: &Mentions,
    keep: &Names,
) -> Result<LineAnswer, AllocError>
    requires few { length names.now ≤ 32 }
    ensures { IfOk result (λ answer. answer ≡ spec.answer_of table.now (Op.Compose name.now names.now keep.now)) }
{
    if let Some(missing) = first_unknown(table, &names.names) {
        return unknown(alloc, missing);
    }
    if table.find(name).is_some() {
        return taken(alloc, name);
    }
    let parts = parts_named(alloc, table, &names.names)?;
    composed(alloc, &parts, keep, table.nominal(), table.limits())
}

// The answer to a quotient.
#[tactic(auto, using(crate::proofs::Truths::quotient_given))]
fn quotient_line(
    alloc: Global,
    table: &Table,
    name: &Name,
    whole: &Name,
    part: &Name,
) -> Result<LineAnswer, AllocError>
    ensures { IfOk result (λ answer. answer ≡ spec.answer_of table.now (Op.Quotient name.now whole.now part.now)) }
{
    let Some(a) = table.find(whole) else {
        return unknown(alloc, whole);
    };
    let Some(b) = table.find(part) else {
        return unknown(alloc, part);
    };
    if table.find(name).is_some() {
        return taken(alloc, name);
    }
    divided(alloc, a, b, table.nominal(), table.limits())
}

// The answer to the line's operation.
fn answer_op(alloc: Global, table: &Table, op: &Op) -> Result<LineAnswer, AllocError>
    requires well_formed { IsWellFormedOp op.now }
    ensures { IfOk result (λ answer. answer ≡ spec.answer_of table.now op.now) }
{
    match op {
        Op::LimitRows { .. } | Op::LimitPivots { .. } => Ok(LineAnswer::Set),
        Op::Merge {
            result,
            left,
            right,
        } => merge_line(alloc, table, result, left, right),
        Op::Test { of, names, at } => test_line(alloc, table, of, names, at),
        Op::Refine { left, right } => refine_line(alloc, table, left, right),
        Op::Bound { of, least, goal } => bound_line(alloc, table, of, *least, goal),
        Op::Hide { result, of, names } => hide_line(alloc, table, result, of, names),
        Op::Compose {
            result,
            parts,
            keep,
        } => compose_line(alloc, table, result, parts, keep),
        Op::Quotient {
            result,
            whole,
            part,
        } => quotient_line(alloc, table, result, whole, part),
    }
}

// Shows a proof that the limit of rows is in its range, as the type of the limits says. Nothing is computed.
fn show_limits(table: &Table)
    ensures { IsLimit table.now.limits.rows }
{
    let _limits = table.limits();
}

/// The answer to a script line over the table. A refusal by names comes first: a contract that is not
/// there (`Unknown`), then a result's name that is not free (`Taken`); then what the operation refuses or
/// gives. The line is well formed. Over a table of well-formed contracts the answer holds as it is printed, under the limits
/// in force, and so is true; and the table can go past it.
pub fn answer_line(
    alloc: Global,
    table: &Table,
    line: &ScriptLine,
) -> Result<LineAnswer, AllocError>
    requires well_formed { IsWellFormedOp line.now.op }
    ensures answer { IfOk result (λ answer. answer ≡ spec.answer_of table.now line.now.op) }
    ensures holds { AreFormed table.now → IfOk result (HoldsOver Two table.now line.now.op) }
    ensures truth { AreFormed table.now → IfOk result (IsTrueOf table.now line.now.op) }
    ensures advances { IfOk result (CanAdvance table.now line.now.op) }
{
    show_limits(table);
    answer_op(alloc, table, &line.op)
}
