// Diagrams.
ghost use Rattle.std.specs.Prelude.{codes, IfOk, Ok, ◌++◌};
ghost use Rattle.std.specs.List.{IsDistinct};
ghost use Rattle.std.specs.Str.{bytes_eq};
ghost use Rattle.std.specs.Result.{result_map_both};
ghost use Rattle.serde_json.specs.Find.{get};
ghost use Rattle.serde_json.specs.View.{view, items_view};
ghost use Rattle.pa_math.specs.Answers.{IsAnswer};
ghost use Rattle.pa_json.specs.Diagram as spec;
ghost use Rattle.pa_json.specs.Diagrams.{Diagram as DiagramValue, names_of, AreContracts};
ghost use Rattle.pa_json.specs.Described.{IsDescribed};
ghost use Rattle.pa_json.specs.Values.{values_of};

use crate::layout::{Layout, read_layout};
use crate::limits::{MOST_DIAGRAM_BYTES, MOST_ITEMS};
use crate::named::with_contracts;
use crate::part::with_parts;
use crate::values::read_values;
use crate::{DiagramFault, Path};
use pa_contract::{Contracts, Nominal};
use serde_json::Value;
use std::alloc::Global;
use std::marker::Model;

/// A diagram: contracts by their names, parts, which are contracts with their ports renamed, both in the
/// diagram's order, and nominal values in the byte order of their names. No two contracts and parts have one
/// name, and each is well-formed.
#[derive(Drop)]
pub struct Diagram {
    pub contracts: Contracts,
    pub parts: Contracts,
    pub nominal: Nominal,
}

impl Model for Diagram {
    ghost use Rattle.pa_json.specs.Diagrams.{Diagram as DiagramValue, IsDiagram};

    ghost Value = { DiagramValue };

    ghost view = { λ d. record { contracts = d.contracts; parts = d.parts; nominal = d.nominal } };

    ghost invariant = { λ d. IsDiagram (record { contracts = d.contracts; parts = d.parts; nominal = d.nominal }) };
}

// The items of a list at the path.
#[tactic(auto, using(crate::proofs::Steps::items_len_of))]
fn few_items<'a>(
    alloc: Global,
    found: &'a Value,
    path: &Path,
) -> Result<&'a Vec<Value>, DiagramFault>
    ensures { IsAnswer DiagramFault.Memory (spec.few_items path.now (view found.now))
        (result_map_both (λ items. items_view items.now.items) (λ fault. fault) result) }
{
    let Some(items) = found.as_array() else {
        return Err(DiagramFault::Shape {
            path: path.copy(alloc)?,
        });
    };
    if items.len() > MOST_ITEMS {
        return Err(DiagramFault::Limit {
            path: path.copy(alloc)?,
        });
    }
    Ok(items)
}

// The contracts of a tree.
fn contracts_of(alloc: Global, tree: &Value, layout: &Layout) -> Result<Contracts, DiagramFault>
    ensures answer { IsAnswer DiagramFault.Memory (spec.contracts_of layout.now (view tree.now)) result }
    ensures fit { IfOk result AreContracts }
    ensures distinct { IfOk result (λ contracts. IsDistinct bytes_eq (names_of contracts)) }
{
    let path = Path::new(alloc, "/contracts")?;
    let Some(found) = tree.get("contracts") else {
        return Err(DiagramFault::Shape { path });
    };
    let items = few_items(alloc, found, &path)?;
    with_contracts(alloc, layout, items, &path)
}

// The parts of a tree, none where the member is not there.
fn parts_of(alloc: Global, tree: &Value, contracts: &Contracts) -> Result<Contracts, DiagramFault>
    ensures answer { IsAnswer DiagramFault.Memory (spec.parts_of contracts.now (view tree.now)) result }
    ensures fit { IfOk result AreContracts }
    ensures distinct { IfOk result (λ parts. IsDistinct bytes_eq (names_of contracts.now) → IsDistinct bytes_eq (names_of (contracts.now ++ parts))) }
{
    let Some(found) = tree.get("parts") else {
        return Ok(Contracts::new(alloc));
    };
    let path = Path::new(alloc, "/parts")?;
    let items = few_items(alloc, found, &path)?;
    with_parts(alloc, contracts, items, &path)
}

// The nominal values of a tree.
fn nominal_of(alloc: Global, tree: &Value) -> Result<Nominal, DiagramFault>
    ensures { IsAnswer DiagramFault.Memory (values_of (codes "/nominal") (get (codes "nominal") (view tree.now))) result }
{
    let path = Path::new(alloc, "/nominal")?;
    read_values(alloc, tree.get("nominal"), &path)
}

// The diagram of these contracts and parts with the nominal values of a tree.
fn with_nominal(
    alloc: Global,
    tree: &Value,
    contracts: Contracts,
    parts: Contracts,
) -> Result<Diagram, DiagramFault>
    requires distinct { IsDistinct bytes_eq (names_of (contracts ++ parts)) }
    requires contracts_fit { AreContracts contracts }
    requires parts_fit { AreContracts parts }
    ensures { IsAnswer DiagramFault.Memory (spec.with_nominal (view tree.now) contracts parts) result }
{
    match nominal_of(alloc, tree) {
        Ok(nominal) => Ok(Diagram {
            contracts,
            parts,
            nominal,
        }),
        Err(fault) => Err(fault),
    }
}

// The diagram of a tree of this layout.
fn with_layout(alloc: Global, tree: &Value, layout: &Layout) -> Result<Diagram, DiagramFault>
    ensures { IsAnswer DiagramFault.Memory (spec.with_layout (view tree.now) layout.now) result }
{
    let contracts = contracts_of(alloc, tree, layout)?;
    let parts = parts_of(alloc, tree, &contracts)?;
    with_nominal(alloc, tree, contracts, parts)
}

/// The diagram of a tree.
pub(crate) fn read_tree(alloc: Global, tree: &Value) -> Result<Diagram, DiagramFault>
    ensures { IsAnswer DiagramFault.Memory (spec.diagram_in (view tree.now)) result }
{
    if !tree.is_object() {
        let path = Path::new(alloc, "/")?;
        return Err(DiagramFault::Shape { path });
    }
    let layout = read_layout(alloc, tree)?;
    with_layout(alloc, tree, &layout)
}

// The diagram of a text.
fn read_bytes(alloc: Global, bytes: &Vec<u8>) -> Result<Diagram, DiagramFault>
    ensures { IsAnswer DiagramFault.Memory (spec.diagram_of bytes.now.items) result }
{
    if bytes.len() as u64 > MOST_DIAGRAM_BYTES {
        return Err(DiagramFault::TooLong);
    }
    match Value::from_slice(alloc, bytes) {
        Ok(tree) => read_tree(alloc, &tree),
        Err(error) => {
            if error.is_memory() {
                return Err(DiagramFault::Memory);
            }
            Err(DiagramFault::Json)
        }
    }
}

/// Reads a diagram: JSON with `version` 1 or 2, `contracts`, and perhaps `parts` and `nominal`; in version 2
/// perhaps with `constants`.
///
/// Each refusal but `Memory` is the first fault of the bytes in the order of the format's tests: their
/// number, the JSON, the root, the version, the constants, then each contract's name, ports, texts and
/// number of rows, each part, and last the nominal values.
pub fn read_diagram(alloc: Global, bytes: &Vec<u8>) -> Result<Diagram, DiagramFault>
    ensures answer { IsAnswer DiagramFault.Memory (spec.diagram_of bytes.now.items) result }
    // The text describes what was read, and what it describes is the answer.
    ensures described { IfOk result (IsDescribed bytes.now.items) }
    ensures only { (diagram : DiagramValue) → IsDescribed bytes.now.items diagram → IsAnswer DiagramFault.Memory (Ok diagram) result }
{
    read_bytes(alloc, bytes)
}
