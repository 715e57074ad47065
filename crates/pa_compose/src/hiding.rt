// A contract without some of its outputs.
ghost use Rattle.std.specs.Prelude.{◌≡◌, ◌≤◌, ◌+◌, ◌⊎◌, Err, IfErr, IfOk, IsSome, None, length};
ghost use Rattle.pa_math.specs.Answers.{IsAnswer};
ghost use Rattle.pa_meaning.specs.Contracts.{ports};
ghost use Rattle.pa_meaning.specs.Composition.{IsHidden};
ghost use Rattle.pa_witness.specs.Steps.{Two};
ghost use Rattle.pa_contract.specs.Merge.{row_count};
ghost use Rattle.pa_contract.specs.WellFormed.{IsWellFormed};
ghost use Rattle.pa_holds.specs.Composed.{HoldsAsHidden};
ghost use Rattle.pa_holds.specs.Refusals.{due_hide, first_missing};
ghost use Rattle.pa_row.specs.declared.place.Place.{Place};
ghost use Rattle.pa_elim.specs.FewBases.{HaveFewBases};
ghost use Rattle.pa_compose.specs.Hiding as spec;

use crate::HideFault;
use crate::fault::hide_fault;
use crate::gone::{hidden_columns, hidden_names};
use crate::steps::named;
use pa_cert::Hidden;
use pa_contract::{Contract, MOST_ROWS};
use pa_elim::{Projected, eliminate};
use pa_names::{Name, Names};
use pa_parts::first_missing_name;
use pa_row::{Limits, Row, copy_rows};
use std::alloc::{AllocError, Global};

// Shows a proof that the contract is well formed, as its type says. Nothing is computed.
fn show_well_formed(contract: &Contract)
    ensures { IsWellFormed contract.now }
{
    let _inputs = &contract.inputs;
}

// How many ports a contract has.
fn port_count(contract: &Contract) -> u32
    ensures value { result ≡ length (ports contract.now) }
    ensures short { result ≤ 128 }
{
    show_well_formed(contract);
    contract.inputs.len() + contract.outputs.len()
}

// The contract without these outputs, with these rows in the place of its guarantees.
fn without_outputs(
    alloc: Global,
    contract: &Contract,
    names: &Names,
    guarantees: Vec<Row>,
) -> Result<Contract, AllocError>
    requires formed { IsWellFormed (spec.without_outputs contract.now names.now guarantees.items) }
    ensures { IfOk result (λ c. c ≡ spec.without_outputs contract.now names.now guarantees.items) }
{
    let Ok(inputs) = contract.inputs.copy() else {
        return Err(AllocError);
    };
    let Ok(outputs) = contract.outputs.without(names) else {
        return Err(AllocError);
    };
    let Ok(assumptions) = copy_rows(alloc, &contract.assumptions) else {
        return Err(AllocError);
    };
    Ok(Contract {
        inputs,
        outputs,
        assumptions,
        guarantees,
    })
}

// The guarantees over the ports that stay, with the steps that show them.
fn guarantees_left(
    alloc: Global,
    contract: &Contract,
    names: &Names,
    limits: Limits,
) -> Result<Projected, HideFault>
    requires due { due_hide contract.now names.now ≡ None }
    requires few { row_count contract.now ≤ 4096 }
    ensures exact { IsAnswer HideFault.Memory (spec.guarantees_of contract.now names.now limits.rows limits.pivots) result }
    ensures printed { IfOk result (λ p. HoldsAsHidden Two limits.rows contract.now names.now (spec.hidden_by contract.now names.now p)) }
    ensures formed { IfOk result (λ p. IsWellFormed (spec.without_outputs contract.now names.now p.rows)) }
    ensures steps { IfOk result (λ p. length p.steps ≡ length (spec.hidden_names contract.now names.now) + 1) }
{
    show_well_formed(contract);
    let columns = port_count(contract);
    let Ok(gone) = hidden_columns(alloc, contract, names) else {
        return Err(HideFault::Memory);
    };
    match eliminate(alloc, &contract.guarantees, columns, &gone, limits) {
        Ok(projected) => Ok(projected),
        Err(fault) => Err(hide_fault(fault)),
    }
}

// The answer by what is left of the guarantees.
fn answered(
    alloc: Global,
    contract: &Contract,
    names: &Names,
    projected: Projected,
) -> Result<Hidden, AllocError>
    requires formed { IsWellFormed (spec.without_outputs contract.now names.now projected.rows) }
    requires steps { length projected.steps ≡ length (spec.hidden_names contract.now names.now) + 1 }
    ensures { IfOk result (λ answer. answer ≡ spec.hidden_by contract.now names.now projected) }
{
    let Projected { rows, steps } = projected;
    let gone = hidden_names(alloc, contract, names)?;
    let steps = named(alloc, &gone, steps)?;
    let contract = without_outputs(alloc, contract, names, rows)?;
    Ok(Hidden { contract, steps })
}

// The answer for a contract with few rows, of which the names are outputs, with what it means.
fn shown(
    alloc: Global,
    contract: &Contract,
    names: &Names,
    limits: Limits,
) -> Result<Hidden, HideFault>
    requires due { due_hide contract.now names.now ≡ None }
    requires few { row_count contract.now ≤ 4096 }
    ensures exact { IsAnswer HideFault.Memory (spec.hidden_rows contract.now names.now limits.rows limits.pivots) result }
    ensures truth { IfOk result (λ answer. IsHidden contract.now names.now answer.contract) }
    ensures printed { IfOk result (HoldsAsHidden Two limits.rows contract.now names.now) }
{
    show_well_formed(contract);
    let projected = guarantees_left(alloc, contract, names, limits)?;
    match answered(alloc, contract, names, projected) {
        Ok(answer) => Ok(answer),
        Err(_) => Err(HideFault::Memory),
    }
}

// The same, with when no limit of pivots is met.
fn hidden(
    alloc: Global,
    contract: &Contract,
    names: &Names,
    limits: Limits,
) -> Result<Hidden, HideFault>
    requires due { due_hide contract.now names.now ≡ None }
    requires few { row_count contract.now ≤ 4096 }
    ensures exact { IsAnswer HideFault.Memory (spec.hidden_rows contract.now names.now limits.rows limits.pivots) result }
    ensures truth { IfOk result (λ answer. IsHidden contract.now names.now answer.contract) }
    ensures printed { IfOk result (HoldsAsHidden Two limits.rows contract.now names.now) }
    ensures unlimited { HaveFewBases (length contract.now.guarantees) (length (ports contract.now))
        (length (spec.hidden_names contract.now names.now)) limits.rows limits.pivots
        → (place : Place) → result ≡ Err (HideFault.PivotLimit place) → ⊥ }
{
    show_well_formed(contract);
    shown(alloc, contract, names, limits)
}

// The refusal of a name that is no output.
fn not_output(alloc: Global, name: &Name) -> HideFault
    ensures { (result ≡ HideFault.NotOutput name.now) ⊎ (result ≡ HideFault.Memory) }
{
    match name.copy(alloc) {
        Ok(name) => HideFault::NotOutput { name },
        Err(_) => HideFault::Memory,
    }
}

/// The contract without these outputs: its inputs, its other outputs and its assumptions stay, and its guarantees are what
/// shows of them at the ports that stay. A behaviour meets them exactly where some values of the hidden outputs make it meet
/// the old ones. The outputs go in the order in which the contract has them, each in a step of an elimination
/// ([`pa_elim::eliminate`]; Fourier 1827, Motzkin 1936). The answer has the drops of the given guarantees, and then of each
/// step, with the name that went: they show the guarantees by sums alone.
///
/// Refused, in this order, exactly where a name is no output (`NotOutput`, the first such name), and where the contract has
/// more than 4,096 rows (`Load`); then, as they come, `RowLimit` exactly where a step would make more rows than
/// `limits.rows`, before one of its rows is made, and `PivotLimit` and `Wide` with their place. `Memory` comes where memory
/// runs out once names and rows refuse nothing, or as the missing name is copied.
///
/// `PivotLimit` never comes where neither the guarantees over the ports, nor for any hidden output as many rows as its step
/// can make over the ports that are left, have more bases than `limits.pivots`, as [`pa_elim::eliminate`] says it. By limits
/// of 1,024 rows and 4,096 pivots that is so for 8 guarantees over 4 ports, whatever is hidden, and for 10 where one output is.
pub fn hide(
    alloc: Global,
    contract: &Contract,
    names: &Names,
    limits: Limits,
) -> Result<Hidden, HideFault>
    ensures answer { IsAnswer HideFault.Memory (spec.hidden_of contract.now names.now limits.rows limits.pivots) result }
    ensures truth { IfOk result (λ answer. IsHidden contract.now names.now answer.contract) }
    ensures printed { IfOk result (HoldsAsHidden Two limits.rows contract.now names.now) }
    ensures refused { IfOk result (λ _. due_hide contract.now names.now ≡ None) }
    ensures memory { IfErr result (λ fault. fault ≡ HideFault.Memory
        → (due_hide contract.now names.now ≡ None) ⊎ IsSome (first_missing contract.now.outputs names.now)) }
    ensures unlimited { HaveFewBases (length contract.now.guarantees) (length (ports contract.now))
        (length (spec.hidden_names contract.now names.now)) limits.rows limits.pivots
        → (place : Place) → result ≡ Err (HideFault.PivotLimit place) → ⊥ }
{
    if let Some(name) = first_missing_name(&contract.outputs, names) {
        return Err(not_output(alloc, name));
    }
    let count = contract.row_count();
    if count > MOST_ROWS {
        return Err(HideFault::Load { count });
    }
    hidden(alloc, contract, names, limits)
}
