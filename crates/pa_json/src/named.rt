// Contracts by their names.
ghost use Rattle.std.specs.Prelude.{[], ◌∷◌, ◌++◌, Ok, IfOk, length};
ghost use Rattle.serde_json.specs.View.{view, items_view};
ghost use Rattle.pa_math.specs.Answers.{IsAnswer, and_then};
ghost use Rattle.pa_contract.specs.WellFormed.{IsWellFormed};
ghost use Rattle.pa_json.specs.Diagram as spec;
ghost use Rattle.pa_json.specs.Diagrams.{names_of, AreContracts};
ghost use Rattle.pa_json.specs.Paths.{item_path};

use crate::contract::read_contract;
use crate::layout::Layout;
use crate::member::read_name;
use crate::{DiagramFault, Path};
use pa_contract::{Contracts, Named};
use pa_names::Name;
use serde_json::Value;
use std::alloc::Global;

// The name of an object, which none of these contracts has. The path is that of the object.
fn new_name(
    alloc: Global,
    earlier: &Contracts,
    tree: &Value,
    path: &Path,
) -> Result<Name, DiagramFault>
    ensures { IsAnswer DiagramFault.Memory (spec.new_name path.now (names_of earlier.now) (view tree.now)) result }
{
    let path = path.member(alloc, "name")?;
    let name = read_name(alloc, tree.get("name"), &path)?;
    if earlier.has(&name) {
        return Err(DiagramFault::Shape { path });
    }
    Ok(name)
}

// The contract of an item by its name.
fn read_named(
    alloc: Global,
    layout: &Layout,
    earlier: &Contracts,
    tree: &Value,
    path: &Path,
) -> Result<Named, DiagramFault>
    ensures answer { IsAnswer DiagramFault.Memory (spec.named_of layout.now earlier.now path.now (view tree.now)) result }
    ensures fit { IfOk result (λ named. IsWellFormed named.contract) }
{
    if !tree.is_object() {
        return Err(DiagramFault::Shape {
            path: path.copy(alloc)?,
        });
    }
    let name = new_name(alloc, earlier, tree, path)?;
    let contract = read_contract(alloc, tree, path, layout)?;
    Ok(Named { name, contract })
}

// The contracts with that of one more item.
fn with_contract(
    alloc: Global,
    layout: &Layout,
    earlier: Contracts,
    tree: &Value,
    list: &Path,
) -> Result<Contracts, DiagramFault>
    ensures answer { IsAnswer DiagramFault.Memory
        (and_then (spec.named_of layout.now earlier (item_path list.now (length earlier)) (view tree.now)) (λ named. Ok (earlier ++ named ∷ []))) result }
    ensures fit { IfOk result (λ more. AreContracts earlier → AreContracts more) }
{
    let path = list.item(alloc, earlier.len())?;
    let named = read_named(alloc, layout, &earlier, tree, &path)?;
    Ok(earlier.with(alloc, named)?)
}

/// The contracts of the items, in order. The path is that of the list.
pub(crate) fn with_contracts(
    alloc: Global,
    layout: &Layout,
    items: &[Value],
    list: &Path,
) -> Result<Contracts, DiagramFault>
    ensures answer { IsAnswer DiagramFault.Memory (spec.with_contracts layout.now list.now [] (items_view items.now)) result }
    ensures fit { IfOk result AreContracts }
{
    let mut contracts = Contracts::new(alloc);
    for tree in items {
        match with_contract(alloc, layout, contracts, tree, list) {
            Ok(more) => contracts = more,
            Err(fault) => return Err(fault),
        }
    }
    Ok(contracts)
}
