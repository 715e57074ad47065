// Names that lists share, and names that no port has.
ghost use Rattle.std.specs.Prelude.{◌≡◌, ◌&&◌, not};
ghost use Rattle.std.specs.List.{list_all};
ghost use Rattle.std.specs.Option.{option_copied};
ghost use Rattle.pa_meaning.specs.Composition.{is_among};
ghost use Rattle.pa_meaning.specs.Contracts.{ports};
ghost use Rattle.pa_holds.specs.Refusals.{are_same_names, first_missing};
ghost use Rattle.pa_refine.specs.Refining as spec;

use pa_contract::Contract;
use pa_names::{Name, Names};

// Whether the list lacks the name.
#[tactic(auto, using(crate::proofs::Ports::no_place))]
fn lacks(names: &Names, name: &Name) -> bool
    ensures { result ≡ not (is_among names.now name.now) }
{
    names.place(name).is_none()
}

// Whether each of the names is among the others.
fn are_among(names: &Names, others: &Names) -> bool
    ensures { result ≡ list_all (is_among others.now) names.now }
{
    for place in 0..names.len() {
        let name = names.at(place);
        if lacks(others, name) {
            return false;
        }
    }
    true
}

// Whether two lists have the same names, up to their order.
fn are_same(names: &Names, others: &Names) -> bool
    ensures { result ≡ are_same_names names.now others.now }
{
    are_among(names, others) && are_among(others, names)
}

/// Whether the contracts have the same inputs and the same outputs, up to their order.
pub(crate) fn have_same_ports(left: &Contract, right: &Contract) -> bool
    ensures { result ≡ spec.have_same_ports left.now right.now }
{
    are_same(&left.inputs, &right.inputs) && are_same(&left.outputs, &right.outputs)
}

// Whether a name is no port.
#[tactic(auto, using(crate::proofs::Ports::no_place))]
fn is_missing(contract: &Contract, name: &Name) -> bool
    ensures { result ≡ not (is_among (ports contract.now) name.now) }
{
    contract.column(name).is_none()
}

/// The first of the names that is no port of the contract.
pub fn first_missing_port<'a>(contract: &Contract, names: &'a Names) -> Option<&'a Name>
    ensures { option_copied result ≡ first_missing (ports contract.now) names.now }
{
    for place in 0..names.len() {
        let name = names.at(place);
        if is_missing(contract, name) {
            return Some(name);
        }
    }
    None
}
