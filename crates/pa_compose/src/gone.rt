// The outputs that go, in the order in which the contract has them: their names and their columns.
ghost use Rattle.std.specs.Prelude.{◌≡◌, ◌≤◌, IfOk};
ghost use Rattle.pa_compose.specs.Hiding as spec;

use pa_contract::Contract;
use pa_names::{Name, Names};
use pa_parts::has;
use std::alloc::{AllocError, Global};

/// The names of the outputs that go.
pub(crate) fn hidden_names(
    alloc: Global,
    contract: &Contract,
    names: &Names,
) -> Result<Vec<Name>, AllocError>
    ensures { IfOk result (λ gone. gone.items ≡ spec.hidden_names contract.now names.now) }
{
    let mut gone = Vec::new(alloc);
    for place in 0..contract.outputs.len() {
        let name = contract.outputs.at(place);
        if has(names, name) {
            let Ok(name) = name.copy(alloc) else {
                return Err(AllocError);
            };
            gone.push(name)?;
        }
    }
    Ok(gone)
}

/// The columns of those of these outputs that go, where the first output has this column.
pub(crate) fn columns_of(
    alloc: Global,
    outputs: &Names,
    gone: &Names,
    first: u32,
) -> Result<Vec<u32>, AllocError>
    requires { first ≤ 4096 }
    ensures { IfOk result (λ columns. columns.items ≡ spec.columns_from gone.now first outputs.now) }
{
    let mut columns = Vec::new(alloc);
    for place in 0..outputs.len() {
        if has(gone, outputs.at(place)) {
            columns.push(first + place)?;
        }
    }
    Ok(columns)
}

/// The columns of the outputs of a contract that go: an output's column stands behind those of the inputs.
pub(crate) fn hidden_columns(
    alloc: Global,
    contract: &Contract,
    names: &Names,
) -> Result<Vec<u32>, AllocError>
    ensures { IfOk result (λ columns. columns.items ≡ spec.hidden_columns contract.now names.now) }
{
    columns_of(alloc, &contract.outputs, names, contract.inputs.len())
}
