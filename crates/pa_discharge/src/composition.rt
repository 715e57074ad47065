// What is composed.
ghost use Rattle.std.specs.Prelude.{◌≡◌, ◌<◌, IfOk, length};
ghost use Rattle.pa_meaning.specs.Composition.{part_at};
ghost use Rattle.pa_holds.specs.Composed.{all_guarantees as all_guarantees_of};
ghost use Rattle.pa_parts.specs.Composing.{ArePortsOf, names_in};
ghost use Rattle.pa_discharge.specs.Discharging as spec;

use crate::rounds::Terms;
use pa_contract::Contract;
use pa_parts::{Parts, Ports, all_guarantees, assumptions_over};
use pa_row::Row;
use std::alloc::{AllocError, Global};
use std::marker::Model;

/// What is composed: the parts with their names, and their assumptions over these, of which there are this many.
#[derive(Drop)]
pub(crate) struct Composition<'a> {
    pub(crate) parts: &'a Parts<'a>,
    pub(crate) ports: &'a Ports,
    pub(crate) terms: Terms,
    pub(crate) columns: u32,
}

impl<'a> Model for Composition<'a> {
    ghost use Rattle.pa_discharge.specs.Seen.{Composition as CompositionValue};

    ghost Value = { CompositionValue };

    ghost view = { λ c. record { parts = c.parts.now; ports = c.ports.now; terms = c.terms; columns = c.columns } };
}

impl<'a> Composition<'a> {
    /// How many parts there are.
    pub(crate) fn len(&self) -> usize
        ensures { result ≡ length self.now.parts }
    {
        self.parts.len()
    }

    /// The part at a place.
    pub(crate) fn part(&self, place: usize) -> &Contract
        requires { place < length self.now.parts }
        ensures { result.now ≡ part_at self.now.parts place }
    {
        self.parts.at(place)
    }

    /// The guarantees of all parts.
    pub(crate) fn all_guarantees(&self, alloc: Global) -> Result<Vec<Row>, AllocError>
        requires { ArePortsOf self.now.parts self.now.ports }
        ensures { IfOk result (λ rows. rows.items ≡ all_guarantees_of self.now.parts) }
    {
        all_guarantees(alloc, self.parts, self.ports)
    }

    /// The assumptions of each part.
    pub(crate) fn terms(&self) -> &Terms
        ensures { result.now ≡ self.now.terms }
    {
        &self.terms
    }

    /// How many names there are.
    pub(crate) fn columns(&self) -> u32
        ensures { result ≡ self.now.columns }
    {
        self.columns
    }

    /// The names.
    pub(crate) fn ports(&self) -> &Ports
        ensures { result.now ≡ self.now.ports }
    {
        self.ports
    }
}

// The assumptions of each part.
fn terms_of(alloc: Global, parts: &Parts, ports: &Ports) -> Result<Terms, AllocError>
    requires { ArePortsOf parts.now ports.now }
    ensures { IfOk result (λ terms. terms ≡ spec.terms_of parts.now) }
{
    let mut terms = Vec::with_capacity(alloc, parts.len())?;
    for place in 0..parts.len() {
        let rows = match assumptions_over(alloc, parts.at(place), ports) {
            Ok(rows) => rows,
            Err(fault) => return Err(fault),
        };
        terms.push(rows)?;
    }
    Ok(Terms { parts: terms })
}

/// The composition of these parts.
pub(crate) fn composition_of<'a>(
    alloc: Global,
    parts: &'a Parts<'a>,
    ports: &'a Ports,
) -> Result<Composition<'a>, AllocError>
    requires { ArePortsOf parts.now ports.now }
    ensures { IfOk result (λ c. c ≡ record { parts = parts.now; ports = ports.now; terms = spec.terms_of parts.now; columns = length (names_in ports.now) }) }
{
    let terms = terms_of(alloc, parts, ports)?;
    let columns = ports.external.len() + ports.outputs.len();
    Ok(Composition {
        parts,
        ports,
        terms,
        columns,
    })
}
