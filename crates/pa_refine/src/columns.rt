// The rows of contracts over the ports of one.
ghost use Rattle.std.specs.Prelude.{◌≡◌, ◌≤◌, ◌++◌, IfOk, length};
ghost use Rattle.pa_meaning.specs.Composition.{assumptions_over as assumptions_over_names, guarantees_over as guarantees_over_names};
ghost use Rattle.pa_meaning.specs.Contracts.{ports};
ghost use Rattle.pa_contract.specs.WellFormed.{IsWellFormed};

use pa_contract::{Contract, rows_over};
use pa_row::{Row, copy_rows};
use std::alloc::{AllocError, Global};

/// Shows a proof that the contract is well formed, as its type says. Nothing is computed.
pub(crate) fn show_well_formed(contract: &Contract)
    ensures { IsWellFormed contract.now }
{
    let _inputs = &contract.inputs;
}

/// How many ports a contract has.
pub(crate) fn port_count(contract: &Contract) -> u32
    ensures value { result ≡ length (ports contract.now) }
    ensures short { result ≤ 128 }
{
    show_well_formed(contract);
    contract.inputs.len() + contract.outputs.len()
}

/// The assumptions of a contract over the ports of another one.
#[tactic(auto, using(crate::proofs::Over::assumptions_from))]
pub(crate) fn assumptions_over(
    alloc: Global,
    from: &Contract,
    into: &Contract,
) -> Result<Vec<Row>, AllocError>
    ensures { IfOk result (λ list. list.items ≡ assumptions_over_names (ports into.now) from.now) }
{
    show_well_formed(from);
    rows_over(alloc, &from.assumptions, from, &into.inputs, &into.outputs)
}

/// The guarantees of a contract over the ports of another one.
pub(crate) fn guarantees_over(
    alloc: Global,
    from: &Contract,
    into: &Contract,
) -> Result<Vec<Row>, AllocError>
    ensures { IfOk result (λ list. list.items ≡ guarantees_over_names (ports into.now) from.now) }
{
    rows_over(alloc, &from.guarantees, from, &into.inputs, &into.outputs)
}

/// The rows, and copies of the others behind them.
pub(crate) fn joined(
    alloc: Global,
    mut rows: Vec<Row>,
    others: &[Row],
) -> Result<Vec<Row>, AllocError>
    ensures { IfOk result (λ list. list.items ≡ rows.items ++ others.now) }
{
    let Ok(mut copies) = copy_rows(alloc, others) else {
        return Err(AllocError);
    };
    rows.append(&mut copies)?;
    Ok(rows)
}
