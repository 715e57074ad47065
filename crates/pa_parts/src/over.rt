// The rows of parts over the names of a composition.
ghost use Rattle.std.specs.Prelude.{◌≡◌, IfOk};
ghost use Rattle.pa_meaning.specs.Composition.{assumptions_over as assumptions_over_names, guarantees_over as guarantees_over_names};
ghost use Rattle.pa_holds.specs.Composed.{all_guarantees as all_guarantees_of};
ghost use Rattle.pa_parts.specs.Composing.{ArePortsOf, names_in};

use crate::parts::Parts;
use crate::ports::Ports;
use pa_contract::{Contract, rows_over};
use pa_row::Row;
use std::alloc::{AllocError, Global};

/// The assumptions of a part over the names of the composition.
pub fn assumptions_over(
    alloc: Global,
    part: &Contract,
    ports: &Ports,
) -> Result<Vec<Row>, AllocError>
    ensures { IfOk result (λ list. list.items ≡ assumptions_over_names (names_in ports.now) part.now) }
{
    rows_over(
        alloc,
        &part.assumptions,
        part,
        &ports.external,
        &ports.outputs,
    )
}

/// The guarantees of a part over the names of the composition.
pub fn guarantees_over(
    alloc: Global,
    part: &Contract,
    ports: &Ports,
) -> Result<Vec<Row>, AllocError>
    ensures { IfOk result (λ list. list.items ≡ guarantees_over_names (names_in ports.now) part.now) }
{
    rows_over(
        alloc,
        &part.guarantees,
        part,
        &ports.external,
        &ports.outputs,
    )
}

/// The guarantees of all parts, part by part, over the names of the composition.
pub fn all_guarantees(alloc: Global, parts: &Parts, ports: &Ports) -> Result<Vec<Row>, AllocError>
    requires { ArePortsOf parts.now ports.now }
    ensures { IfOk result (λ list. list.items ≡ all_guarantees_of parts.now) }
{
    let mut all = Vec::new(alloc);
    for place in 0..parts.len() {
        let mut rows = match guarantees_over(alloc, parts.at(place), ports) {
            Ok(rows) => rows,
            Err(fault) => return Err(fault),
        };
        all.append(&mut rows)?;
    }
    Ok(all)
}
