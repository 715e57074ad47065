// Parts: contracts with their ports renamed.
ghost use Rattle.std.specs.Prelude.{◌≡◌, [], ◌∷◌, ◌++◌, IfOk, IfSome, Ok, length, take, drop, option_map};
ghost use Rattle.std.specs.List.{IsDistinct, list_any};
ghost use Rattle.std.specs.Str.{bytes_eq};
ghost use Rattle.serde_json.specs.View.{view, items_view, members_view};
ghost use Rattle.pa_math.specs.Answers.{IsAnswer, and_then, seen_as};
ghost use Rattle.pa_meaning.specs.Contracts.{ports};
ghost use Rattle.pa_names.specs.Names.{first_names};
ghost use Rattle.pa_contract.specs.WellFormed.{IsWellFormed};
ghost use Rattle.pa_json.specs.Diagram as spec;
ghost use Rattle.pa_json.specs.Diagrams.{names_of, AreContracts};
ghost use Rattle.pa_json.specs.Members.{collected};
ghost use Rattle.pa_json.specs.Paths.{item_path};

use crate::member::{name_of, read_name};
use crate::ports::{with_name, with_names};
use crate::{DiagramFault, Path, WireKind};
use pa_contract::{Contract, Contracts, Named};
use pa_names::{Name, NameFault, Names};
use pa_row::copy_rows;
use serde_json::{Map, Value};
use std::alloc::{AllocError, Global};

// The name that a value is.
fn name_in(alloc: Global, value: &Value) -> Result<Option<Name>, AllocError>
    ensures { IfOk result (λ found. found ≡ spec.name_in (view value.now)) }
{
    match value.as_str() {
        Some(text) => name_of(alloc, text),
        None => Ok(None),
    }
}

// Whether each member is a name.
fn all_named(alloc: Global, members: &Map<String, Value>) -> Result<bool, AllocError>
    ensures { IfOk result (λ all. all ≡ spec.all_named (members_view members.now.entries)) }
{
    for (_, value) in members.iter() {
        match name_in(alloc, value) {
            Ok(Some(_)) => {}
            Ok(None) => return Ok(false),
            Err(fault) => return Err(fault),
        }
    }
    Ok(true)
}

// The port that a key is.
fn port_in(alloc: Global, names: &Names, key: &str) -> Result<Option<Name>, AllocError>
    ensures { IfOk result (λ found. found ≡ spec.port_in names.now key.now) }
{
    let Some(name) = name_of(alloc, key)? else {
        return Ok(None);
    };
    if names.place(&name).is_none() {
        return Ok(None);
    }
    Ok(Some(name))
}

// The port of a wire, and the name that it gets.
fn wire_of(
    alloc: Global,
    names: &Names,
    key: &str,
    value: &Value,
) -> Result<Option<(Name, Name)>, AllocError>
    ensures { IfOk result (λ found. found ≡ spec.wire_of names.now key.now (view value.now)) }
{
    let Some(port) = port_in(alloc, names, key)? else {
        return Ok(None);
    };
    match name_in(alloc, value)? {
        Some(name) => Ok(Some((port, name))),
        None => Ok(None),
    }
}

// The wires of the members, where each is of a port.
fn wires_of(
    alloc: Global,
    names: &Names,
    members: &Map<String, Value>,
) -> Result<Option<Vec<(Name, Name)>>, AllocError>
    ensures value { IfOk result (λ found. option_map (λ wires. wires.items) found ≡ collected (spec.wire_of names.now) (members_view members.now.entries)) }
    ensures distinct { IfOk result (λ found. IfSome found (λ wires. IsDistinct bytes_eq (first_names wires.items))) }
{
    let mut wires = Vec::new(alloc);
    let mut ports = Names::new(alloc);
    for (key, value) in members.iter() {
        match wire_of(alloc, names, key.as_str(), value) {
            Ok(Some(wire)) => {
                // An object has each key once, so that only want of memory refuses one.
                match with_name(alloc, ports, &wire.0) {
                    Ok(more) => ports = more,
                    Err(fault) => return Err(fault),
                }
                wires.push(wire)?;
            }
            Ok(None) => return Ok(None),
            Err(fault) => return Err(fault),
        }
    }
    // A list tells that its names are distinct where it is read.
    let _count = ports.len();
    Ok(Some(wires))
}

// The names, and then all others, which are new.
#[tactic(auto, using(crate::proofs::Parts::whole))]
fn with_all(alloc: Global, names: Names, others: &Names) -> Result<Names, AllocError>
    ensures { IfOk result (λ all. all ≡ names ++ others.now) }
{
    with_names(alloc, names, others, 0, others.len())
}

// The ports of a contract, inputs before outputs.
fn ports_of(alloc: Global, contract: &Contract) -> Result<Names, AllocError>
    ensures { IfOk result (λ names. names ≡ ports contract.now) }
{
    let inputs = with_all(alloc, Names::new(alloc), &contract.inputs)?;
    with_all(alloc, inputs, &contract.outputs)
}

// The contract of these ports with the rows of another one.
fn with_ports(alloc: Global, contract: &Contract, names: &Names) -> Result<Contract, AllocError>
    requires distinct { IsDistinct bytes_eq names.now }
    requires each { length names.now ≡ length (ports contract.now) }
    ensures { IfOk result (λ c. c ≡ (record {
      inputs = take (length contract.now.inputs) names.now;
      outputs = drop (length contract.now.inputs) names.now;
      assumptions = contract.now.assumptions;
      guarantees = contract.now.guarantees;
    })) }
{
    let count = contract.inputs.len();
    let inputs = with_names(alloc, Names::new(alloc), names, 0, count)?;
    let outputs = with_names(alloc, Names::new(alloc), names, count, names.len())?;
    let Ok(assumptions) = copy_rows(alloc, &contract.assumptions) else {
        return Err(AllocError);
    };
    let Ok(guarantees) = copy_rows(alloc, &contract.guarantees) else {
        return Err(AllocError);
    };
    Ok(Contract {
        inputs,
        outputs,
        assumptions,
        guarantees,
    })
}

// The contract with its ports renamed.
fn wired_of(
    alloc: Global,
    contract: &Contract,
    names: &Names,
    wires: &Vec<(Name, Name)>,
    path: &Path,
) -> Result<Contract, DiagramFault>
    requires names { names.now ≡ ports contract.now }
    requires distinct { IsDistinct bytes_eq (first_names wires.now.items) }
    ensures { IsAnswer DiagramFault.Memory (spec.wired_of path.now contract.now wires.now.items) result }
{
    match names.rename(wires) {
        Ok(renamed) => Ok(with_ports(alloc, contract, &renamed)?),
        Err(NameFault::Taken) => Err(DiagramFault::Wire {
            path: path.copy(alloc)?,
            kind: WireKind::Twice,
        }),
        Err(_) => Err(DiagramFault::Memory),
    }
}

// The contract wired by an object's members.
fn wired_by(
    alloc: Global,
    contract: &Contract,
    members: &Map<String, Value>,
    path: &Path,
) -> Result<Contract, DiagramFault>
    ensures { IsAnswer DiagramFault.Memory (spec.wired_by path.now contract.now (members_view members.now.entries)) result }
{
    if !all_named(alloc, members)? {
        return Err(DiagramFault::Shape {
            path: path.copy(alloc)?,
        });
    }
    let names = ports_of(alloc, contract)?;
    match wires_of(alloc, &names, members)? {
        Some(wires) => wired_of(alloc, contract, &names, &wires, path),
        None => Err(DiagramFault::Wire {
            path: path.copy(alloc)?,
            kind: WireKind::NoPort,
        }),
    }
}

// The contract wired by a member, or a copy of it where there is none.
fn wired_in(
    alloc: Global,
    contract: &Contract,
    found: Option<&Value>,
    path: &Path,
) -> Result<Contract, DiagramFault>
    ensures { IsAnswer DiagramFault.Memory (spec.wired_in path.now contract.now (option_map (λ v. view v.now) found.entry)) result }
{
    let Some(value) = found else {
        return match contract.copy(alloc) {
            Ok(copy) => Ok(copy),
            Err(_) => Err(DiagramFault::Memory),
        };
    };
    match value.as_object() {
        Some(members) => wired_by(alloc, contract, members, path),
        None => Err(DiagramFault::Shape {
            path: path.copy(alloc)?,
        }),
    }
}

// The contract of a text.
fn contract_at<'a>(
    alloc: Global,
    contracts: &'a Contracts,
    text: &str,
) -> Result<Option<&'a Contract>, AllocError>
    ensures { IfOk result (λ found. option_map (λ c. c.now) found ≡ spec.contract_at contracts.now text.now) }
{
    match name_of(alloc, text)? {
        Some(name) => Ok(contracts.find(&name)),
        None => Ok(None),
    }
}

// The contract that a part is of.
fn origin_of<'a>(
    alloc: Global,
    contracts: &'a Contracts,
    tree: &Value,
    path: &Path,
) -> Result<&'a Contract, DiagramFault>
    ensures { IsAnswer DiagramFault.Memory (spec.origin_of contracts.now path.now (view tree.now)) (seen_as (λ c. c.now) result) }
{
    let path = path.member(alloc, "contract")?;
    let Some(text) = tree.get("contract").and_then(Value::as_str) else {
        return Err(DiagramFault::Shape { path });
    };
    match contract_at(alloc, contracts, text)? {
        Some(contract) => Ok(contract),
        None => Err(DiagramFault::Wire {
            path,
            kind: WireKind::NoContract,
        }),
    }
}

// Whether a contract or a part has this name.
#[tactic(auto, using(crate::proofs::Names::has_either))]
fn is_taken(contracts: &Contracts, parts: &Contracts, name: &Name) -> bool
    ensures { result ≡ list_any (bytes_eq name.now) (names_of (contracts.now ++ parts.now)) }
{
    contracts.has(name) || parts.has(name)
}

// The name of an object, which none of these contracts and parts has. The path is that of the object.
fn new_name(
    alloc: Global,
    contracts: &Contracts,
    parts: &Contracts,
    tree: &Value,
    path: &Path,
) -> Result<Name, DiagramFault>
    ensures { IsAnswer DiagramFault.Memory (spec.new_name path.now (names_of (contracts.now ++ parts.now)) (view tree.now)) result }
{
    let path = path.member(alloc, "name")?;
    let name = read_name(alloc, tree.get("name"), &path)?;
    if is_taken(contracts, parts, &name) {
        return Err(DiagramFault::Shape { path });
    }
    Ok(name)
}

// The part of an item by its name.
fn read_part(
    alloc: Global,
    contracts: &Contracts,
    earlier: &Contracts,
    tree: &Value,
    path: &Path,
) -> Result<Named, DiagramFault>
    ensures answer { IsAnswer DiagramFault.Memory (spec.part_of contracts.now earlier.now path.now (view tree.now)) result }
    ensures fit { IfOk result (λ named. IsWellFormed named.contract) }
{
    if !tree.is_object() {
        return Err(DiagramFault::Shape {
            path: path.copy(alloc)?,
        });
    }
    let name = new_name(alloc, contracts, earlier, tree, path)?;
    let origin = origin_of(alloc, contracts, tree, path)?;
    let wires = path.member(alloc, "wires")?;
    let contract = wired_in(alloc, origin, tree.get("wires"), &wires)?;
    Ok(Named { name, contract })
}

// The parts with that of one more item.
fn with_part(
    alloc: Global,
    contracts: &Contracts,
    earlier: Contracts,
    tree: &Value,
    list: &Path,
) -> Result<Contracts, DiagramFault>
    ensures answer { IsAnswer DiagramFault.Memory
        (and_then (spec.part_of contracts.now earlier (item_path list.now (length earlier)) (view tree.now)) (λ named. Ok (earlier ++ named ∷ []))) result }
    ensures fit { IfOk result (λ more. AreContracts earlier → AreContracts more) }
{
    let path = list.item(alloc, earlier.len())?;
    let named = read_part(alloc, contracts, &earlier, tree, &path)?;
    Ok(earlier.with(alloc, named)?)
}

/// The parts of the items, in order. The path is that of the list.
pub(crate) fn with_parts(
    alloc: Global,
    contracts: &Contracts,
    items: &[Value],
    list: &Path,
) -> Result<Contracts, DiagramFault>
    ensures answer { IsAnswer DiagramFault.Memory (spec.with_parts contracts.now list.now [] (items_view items.now)) result }
    ensures fit { IfOk result AreContracts }
{
    let mut parts = Contracts::new(alloc);
    for tree in items {
        match with_part(alloc, contracts, parts, tree, list) {
            Ok(more) => parts = more,
            Err(fault) => return Err(fault),
        }
    }
    Ok(parts)
}
