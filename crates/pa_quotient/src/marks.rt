// Which guarantees of a contract narrow its inputs.
ghost use Rattle.std.specs.Prelude.{◌≡◌, ◌≤◌, IfOk, length, map, pos};
ghost use Rattle.std.specs.List.{list_all};
ghost use Rattle.std.specs.Ordering.{int_eq};
ghost use Rattle.pa_meaning.specs.Quotient.{narrows as narrows_of};

use pa_contract::Contract;
use pa_row::Row;
use std::alloc::{AllocError, Global};

// Whether all numbers are 0.
fn are_zero(numbers: &[i128]) -> bool
    ensures { result ≡ list_all (λ z. int_eq z (pos 0)) numbers.now }
{
    numbers.iter().all(|number| *number == 0)
}

// Whether the row has 0 in every output column of the contract.
fn narrows(contract: &Contract, row: &Row) -> bool
    requires { length contract.now.inputs ≤ length row.now.c }
    ensures { result ≡ narrows_of contract.now row.now }
{
    are_zero(&row.c[contract.inputs.len() as usize..])
}

/// A mark for each guarantee that has 0 in every output column: it asks something of the inputs that no output can bring about.
pub(crate) fn marks_of(alloc: Global, contract: &Contract) -> Result<Vec<bool>, AllocError>
    ensures { IfOk result (λ marks. marks.items ≡ map (narrows_of contract.now) contract.now.guarantees) }
{
    let mut marks = Vec::with_capacity(alloc, contract.guarantees.len())?;
    for row in &contract.guarantees {
        marks.push(narrows(contract, row))?;
    }
    Ok(marks)
}
