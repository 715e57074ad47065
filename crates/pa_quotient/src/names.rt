// The names of a quotient.
ghost use Rattle.std.specs.Prelude.{◌≡◌, ◌++◌, ◌⊎◌, IfOk, length};
ghost use Rattle.std.specs.List.{IsDistinct};
ghost use Rattle.std.specs.Option.{option_copied};
ghost use Rattle.std.specs.Str.{bytes_eq};
ghost use Rattle.pa_meaning.specs.Quotient.{quotient_names, quotient_outputs as quotient_outputs_of, quotient_ports as quotient_ports_of};
ghost use Rattle.pa_holds.specs.Refusals.{first_shared};
ghost use Rattle.pa_quotient.specs.Seen.{AreNamesOf};

use crate::QuotientFault;
use pa_contract::Contract;
use pa_names::{Name, Names};
use pa_parts::has;
use std::alloc::{AllocError, Global};
use std::marker::Model;

/// The names of a quotient: its outputs, and its ports, which are the inputs of the whole and then these outputs. The part's
/// outputs, which go, stand behind them.
#[derive(Drop)]
pub(crate) struct QuotientNames {
    pub(crate) outputs: Names,
    pub(crate) ports: Names,
}

impl Model for QuotientNames {
    ghost use Rattle.pa_quotient.specs.Seen.{QuotientNames as NamesValue};

    ghost Value = { NamesValue };

    ghost view = { λ n. record { outputs = n.outputs; ports = n.ports } };
}

/// The first of these names that the list has.
pub(crate) fn first_shared_name<'a>(names: &Names, asked: &'a Names) -> Option<&'a Name>
    ensures { option_copied result ≡ first_shared names.now asked.now }
{
    for place in 0..asked.len() {
        let name = asked.at(place);
        if has(names, name) {
            return Some(name);
        }
    }
    None
}

/// The refusal of an output of the part that is an input of the whole.
pub(crate) fn port_clash(alloc: Global, name: &Name) -> QuotientFault
    ensures { (result ≡ QuotientFault.PortClash name.now) ⊎ (result ≡ QuotientFault.Memory) }
{
    match name.copy(alloc) {
        Ok(name) => QuotientFault::PortClash { name },
        Err(_) => QuotientFault::Memory,
    }
}

// The names of both lists, of which no two are equal.
#[tactic(auto, using(crate::proofs::NamesOf::union_of_different))]
fn both(first: &Names, others: &Names) -> Result<Names, AllocError>
    requires { IsDistinct bytes_eq (first.now ++ others.now) }
    ensures { IfOk result (λ names. names ≡ first.now ++ others.now) }
{
    match first.union(others) {
        Ok(names) => Ok(names),
        Err(_) => Err(AllocError),
    }
}

// The outputs of the quotient: those of the whole that the part does not make, and then the part's inputs that are no ports yet.
fn outputs_of(whole: &Contract, part: &Contract) -> Result<Names, AllocError>
    requires { IsDistinct bytes_eq (quotient_ports_of whole.now part.now) }
    ensures { IfOk result (λ names. names ≡ quotient_outputs_of whole.now part.now) }
{
    let Ok(own) = whole.outputs.without(&part.outputs) else {
        return Err(AllocError);
    };
    let first = both(&whole.inputs, &own)?;
    let Ok(new) = part.inputs.without(&first) else {
        return Err(AllocError);
    };
    both(&own, &new)
}

/// The names of the quotient of the whole by the part.
pub(crate) fn names_of(whole: &Contract, part: &Contract) -> Result<QuotientNames, AllocError>
    requires { IsDistinct bytes_eq (quotient_ports_of whole.now part.now) }
    ensures { IfOk result (AreNamesOf whole.now part.now) }
{
    let outputs = outputs_of(whole, part)?;
    let ports = both(&whole.inputs, &outputs)?;
    Ok(QuotientNames { outputs, ports })
}

/// How many names there are: the ports, and the part's outputs.
pub(crate) fn name_count(whole: &Contract, part: &Contract, names: &QuotientNames) -> u32
    requires { AreNamesOf whole.now part.now names.now }
    ensures { result ≡ length (quotient_names whole.now part.now) }
{
    names.ports.len() + part.outputs.len()
}
