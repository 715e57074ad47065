// Rows of the whole and of the part over the names of the quotient.
ghost use Rattle.std.specs.Prelude.{◌≡◌, IfOk};
ghost use Rattle.pa_meaning.specs.Composition.{assumptions_over as assumptions_over_names, guarantees_over as guarantees_over_names};
ghost use Rattle.pa_meaning.specs.Quotient.{quotient_names, quotient_ports};
ghost use Rattle.pa_quotient.specs.Seen.{AreNamesOf};

use crate::names::QuotientNames;
use pa_contract::{Contract, rows_over};
use pa_row::Row;
use std::alloc::{AllocError, Global};

/// The guarantees of one of the two contracts over all names, those of the part's outputs last.
pub(crate) fn guarantees_over(
    alloc: Global,
    contract: &Contract,
    names: &QuotientNames,
    whole: &Contract,
    part: &Contract,
) -> Result<Vec<Row>, AllocError>
    requires { AreNamesOf whole.now part.now names.now }
    ensures { IfOk result (λ rows. rows.items ≡ guarantees_over_names (quotient_names whole.now part.now) contract.now) }
{
    rows_over(
        alloc,
        &contract.guarantees,
        contract,
        &names.ports,
        &part.outputs,
    )
}

/// The assumptions of one of the two contracts over the quotient's ports.
pub(crate) fn assumptions_over(
    alloc: Global,
    contract: &Contract,
    names: &QuotientNames,
    whole: &Contract,
    part: &Contract,
) -> Result<Vec<Row>, AllocError>
    requires { AreNamesOf whole.now part.now names.now }
    ensures { IfOk result (λ rows. rows.items ≡ assumptions_over_names (quotient_ports whole.now part.now) contract.now) }
{
    rows_over(
        alloc,
        &contract.assumptions,
        contract,
        &whole.inputs,
        &names.outputs,
    )
}
