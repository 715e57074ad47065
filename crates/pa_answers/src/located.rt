// Points and directions over a contract's ports, by the names of the ports.
ghost use Rattle.std.specs.Prelude.{◌≡◌, ◌<◌, ◌≤◌, ◌++◌, IfOk, get_or, length};
ghost use Rattle.pa_meaning.specs.Contracts.{ports};
ghost use Rattle.pa_refine.specs.Meant.{at_ports as located_at};
ghost use Rattle.pa_answers.specs.Answers as spec;

use pa_cert::{Heading, Located};
use pa_contract::Contract;
use pa_names::{Name, Names};
use pa_row::Point;
use std::alloc::{AllocError, Global};

// The names, and those of a list behind them.
fn with_names(alloc: Global, mut names: Vec<Name>, more: &Names) -> Result<Vec<Name>, AllocError>
    ensures { IfOk result (λ all. all.items ≡ names.items ++ more.now) }
{
    for place in 0..more.len() {
        let Ok(name) = more.at(place).copy(alloc) else {
            return Err(AllocError);
        };
        names.push(name)?;
    }
    Ok(names)
}

/// The point, by the names of the ports.
pub(crate) fn located(alloc: Global, contract: &Contract, at: Point) -> Result<Located, AllocError>
    ensures { IfOk result (λ l. l ≡ located_at contract.now at) }
{
    let names = with_names(alloc, Vec::new(alloc), &contract.inputs)?;
    let names = with_names(alloc, names, &contract.outputs)?;
    Ok(Located { names, at })
}

// The heading with one more name and its number, where that is not 0.
fn with_number(
    alloc: Global,
    mut heading: Heading,
    name: &Name,
    number: i128,
) -> Result<Heading, AllocError>
    ensures { IfOk result (λ h. h ≡ spec.with_number heading name.now number) }
{
    if number == 0 {
        return Ok(heading);
    }
    let Ok(name) = name.copy(alloc) else {
        return Err(AllocError);
    };
    heading.names.push(name)?;
    heading.numbers.push(number)?;
    Ok(heading)
}

// The number at a place.
fn number_at(numbers: &[i128], place: u32) -> i128
    requires { place < length numbers.now }
    ensures { result ≡ get_or numbers.now place result }
{
    numbers[place as usize]
}

/// The heading with the numbers of these names.
pub(crate) fn with_numbers(
    alloc: Global,
    mut heading: Heading,
    names: &Names,
    numbers: &[i128],
) -> Result<Heading, AllocError>
    requires { length names.now ≤ length numbers.now }
    ensures { IfOk result (λ h. h ≡ spec.with_numbers heading names.now numbers.now) }
{
    for place in 0..names.len() {
        let number = number_at(numbers, place);
        heading = with_number(alloc, heading, names.at(place), number)?;
    }
    Ok(heading)
}

/// The direction, by the names of the ports whose number is not 0.
#[tactic(auto, using(crate::proofs::Headings::with_both))]
pub(crate) fn headed(
    alloc: Global,
    contract: &Contract,
    numbers: &[i128],
) -> Result<Heading, AllocError>
    requires { length numbers.now ≡ length (ports contract.now) }
    ensures { IfOk result (λ h. h ≡ spec.heading_of (ports contract.now) numbers.now) }
{
    let heading = Heading {
        names: Vec::new(alloc),
        numbers: Vec::new(alloc),
    };
    let heading = with_numbers(alloc, heading, &contract.inputs, numbers)?;
    let outputs = &numbers[contract.inputs.len() as usize..];
    with_numbers(alloc, heading, &contract.outputs, outputs)
}
