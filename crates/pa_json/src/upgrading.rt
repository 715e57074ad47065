// Diagrams of version 1 written as diagrams of version 2.
ghost use Rattle.std.specs.Prelude.{◌≡◌, ◌≤◌, ◌⊎◌, IfOk, IfErr, Ok, Err, Some, IsUtf8, length, option_map};
ghost use Rattle.serde_json.specs.Read.{read};
ghost use Rattle.serde_json.specs.Find.{get};
ghost use Rattle.serde_json.specs.View.{view, items_view, members_view};
ghost use Rattle.pa_math.specs.Answers.{IsAnswer, seen_as};
ghost use Rattle.pa_json.specs.Diagrams.{Diagram as DiagramValue};
ghost use Rattle.pa_json.specs.Diagram.{diagram_in};
ghost use Rattle.pa_json.specs.Upgrades as spec;

use crate::diagram::read_tree;
use crate::limits::{MOST_DIAGRAM_BYTES, MOST_UPGRADE_BYTES};
use crate::{DiagramFault, Path};
use serde_json::{Map, Value};
use std::alloc::{AllocError, Global};

/// What an item of a diagram's lists is.
#[derive(Clone, Copy, Debug, PartialEq, Eq)]
pub(crate) enum Item {
    Contract,
    Part,
}

// The members, with a copy of this one where it is there.
fn with_member(
    alloc: Global,
    members: Map<String, Value>,
    key: &str,
    found: Option<&Value>,
) -> Result<Map<String, Value>, AllocError>
    ensures { IfOk result (λ more. members_view more.entries
        ≡ spec.with_member key.now (option_map (λ v. view v.now) found.entry) (members_view members.entries)) }
{
    let mut members = members;
    if let Some(value) = found {
        serde_json::put(&mut members, alloc, key, value.clone()?)?;
    }
    Ok(members)
}

// The members, with a copy of the tree's member of this key where it has one.
fn with_copy(
    alloc: Global,
    members: Map<String, Value>,
    tree: &Value,
    key: &str,
) -> Result<Map<String, Value>, AllocError>
    ensures { IfOk result (λ more. members_view more.entries ≡ spec.with_member key.now (get key.now (view tree.now)) (members_view members.entries)) }
{
    with_member(alloc, members, key, tree.get(key))
}

// What the layout names in a contract.
fn contract_members(alloc: Global, tree: &Value) -> Result<Map<String, Value>, AllocError>
    ensures { IfOk result (λ members. members_view members.entries ≡ spec.picked (view tree.now) (spec.keys_of Item.Contract)) }
{
    let members = with_copy(alloc, Map::new(alloc), tree, "assumptions")?;
    let members = with_copy(alloc, members, tree, "guarantees")?;
    let members = with_copy(alloc, members, tree, "inputs")?;
    let members = with_copy(alloc, members, tree, "name")?;
    with_copy(alloc, members, tree, "outputs")
}

// What the layout names in a part.
fn part_members(alloc: Global, tree: &Value) -> Result<Map<String, Value>, AllocError>
    ensures { IfOk result (λ members. members_view members.entries ≡ spec.picked (view tree.now) (spec.keys_of Item.Part)) }
{
    let members = with_copy(alloc, Map::new(alloc), tree, "contract")?;
    let members = with_copy(alloc, members, tree, "name")?;
    with_copy(alloc, members, tree, "wires")
}

// A contract, or a part, with what the layout names alone.
fn plain(alloc: Global, of: Item, tree: &Value) -> Result<Value, AllocError>
    ensures { IfOk result (λ value. view value ≡ spec.plain of (view tree.now)) }
{
    let members = match of {
        Item::Contract => contract_members(alloc, tree)?,
        Item::Part => part_members(alloc, tree)?,
    };
    Ok(Value::Object(members))
}

// Each of these so.
#[tactic(auto, using(crate::proofs::PlainItems::plain_more))]
fn each_plain(alloc: Global, of: Item, items: &[Value]) -> Result<Vec<Value>, AllocError>
    ensures { IfOk result (λ list. items_view list.items ≡ spec.each_plain of (items_view items.now)) }
{
    let mut list = Vec::with_capacity(alloc, items.len())?;
    for tree in items {
        list.push(plain(alloc, of, tree)?)?;
    }
    Ok(list)
}

// The members, with a tree's list of contracts or parts where it has one.
fn with_list(
    alloc: Global,
    members: Map<String, Value>,
    tree: &Value,
    key: &str,
    of: Item,
) -> Result<Map<String, Value>, AllocError>
    ensures { IfOk result (λ more. members_view more.entries
        ≡ spec.with_member key.now (spec.plain_list of (get key.now (view tree.now))) (members_view members.entries)) }
{
    let Some(items) = tree.get(key).and_then(Value::as_array) else {
        return Ok(members);
    };
    let list = Value::Array(each_plain(alloc, of, items)?);
    let mut members = members;
    serde_json::put(&mut members, alloc, key, list)?;
    Ok(members)
}

// The members that are the same for each diagram of version 2.
fn second_members(alloc: Global) -> Result<Map<String, Value>, AllocError>
    ensures { IfOk result (λ members. members_view members.entries ≡ spec.second_members) }
{
    let mut members = Map::new(alloc);
    serde_json::put(&mut members, alloc, "version", Value::from(2u64))?;
    serde_json::put(
        &mut members,
        alloc,
        "constants",
        Value::Object(Map::new(alloc)),
    )?;
    Ok(members)
}

// The tree of version 2 with what the layout names of this one.
fn upgraded(alloc: Global, tree: &Value) -> Result<Value, AllocError>
    ensures { IfOk result (λ value. view value ≡ spec.upgraded (view tree.now)) }
{
    let members = second_members(alloc)?;
    let members = with_list(alloc, members, tree, "contracts", Item::Contract)?;
    let members = with_list(alloc, members, tree, "parts", Item::Part)?;
    let members = with_copy(alloc, members, tree, "nominal")?;
    Ok(Value::Object(members))
}

// The text of the tree of version 2, and a line feed.
fn upgraded_text(alloc: Global, tree: &Value) -> Result<Vec<u8>, AllocError>
    requires { (g : DiagramValue) × (diagram_in (view tree.now) ≡ Ok g) }
    ensures text { IfOk result (λ text. text.items ≡ spec.upgraded_text (view tree.now)) }
    ensures utf8 { IfOk result (λ text. IsUtf8 text.items) }
    ensures reads_back { IfOk result (λ text. read text.items ≡ Some (spec.upgraded (view tree.now))) }
{
    let tree = upgraded(alloc, tree)?;
    let mut text = tree.to_vec(alloc)?;
    text.push(b'\n')?;
    Ok(text)
}

// Whether the version is 1.
fn is_first(tree: &Value) -> bool
    ensures { result ≡ spec.is_first (view tree.now) }
{
    tree.get("version").and_then(Value::as_u64) == Some(1)
}

// Whether a tree is read as a diagram.
fn check_tree(alloc: Global, tree: &Value) -> Result<(), DiagramFault>
    ensures taken { IfOk result (λ _. (g : DiagramValue) × (diagram_in (view tree.now) ≡ Ok g)) }
    ensures refused { IfErr result (λ fault. (fault ≡ DiagramFault.Memory) ⊎ (diagram_in (view tree.now) ≡ Err fault)) }
{
    match read_tree(alloc, tree) {
        Ok(_) => Ok(()),
        Err(fault) => Err(fault),
    }
}

// The text of a tree of version 1.
fn upgrade_first(alloc: Global, tree: &Value) -> Result<Vec<u8>, DiagramFault>
    ensures answer { IsAnswer DiagramFault.Memory (spec.upgrade_first (view tree.now)) (seen_as (λ text. text.items) result) }
    ensures few { IfOk result (λ text. length text.items ≤ MOST_DIAGRAM_BYTES) }
    ensures utf8 { IfOk result (λ text. IsUtf8 text.items) }
    ensures reads_back { IfOk result (λ text. read text.items ≡ Some (spec.upgraded (view tree.now))) }
{
    check_tree(alloc, tree)?;
    let text = upgraded_text(alloc, tree)?;
    if text.len() as u64 > MOST_DIAGRAM_BYTES {
        return Err(DiagramFault::TooLong);
    }
    Ok(text)
}

// The text of a tree.
fn upgrade_tree(alloc: Global, tree: &Value) -> Result<Vec<u8>, DiagramFault>
    ensures answer { IsAnswer DiagramFault.Memory (spec.upgrade_in (view tree.now)) (seen_as (λ text. text.items) result) }
    ensures few { IfOk result (λ text. length text.items ≤ MOST_DIAGRAM_BYTES) }
    ensures utf8 { IfOk result (λ text. IsUtf8 text.items) }
    ensures reads_back { IfOk result (λ text. read text.items ≡ Some (spec.upgraded (view tree.now))) }
{
    if !tree.is_object() {
        let path = Path::new(alloc, "/")?;
        return Err(DiagramFault::Shape { path });
    }
    if !is_first(tree) {
        return Err(DiagramFault::Version);
    }
    upgrade_first(alloc, tree)
}

/// Writes a diagram of version 1 as one of version 2 that describes the same: the compact JSON of its members
/// that the layout names, with no constants, and a line feed.
///
/// The refusals are those of [`read_diagram`](crate::read_diagram), but that more than 1,048,576 bytes are
/// `TooLong`, and any version but 1 is `Version`. An answer can be read again: a text longer than a diagram
/// may be would be `TooLong` too, though compact text grows by the members of version 2 alone.
pub fn upgrade(alloc: Global, bytes: &Vec<u8>) -> Result<Vec<u8>, DiagramFault>
    ensures answer { IsAnswer DiagramFault.Memory (spec.upgrade_of bytes.now.items) (seen_as (λ text. text.items) result) }
    // Both texts describe one diagram, and reading what was written gives it.
    ensures same { IfOk result (λ text. spec.IsUpgrade bytes.now.items text.items) }
{
    if bytes.len() as u64 > MOST_UPGRADE_BYTES {
        return Err(DiagramFault::TooLong);
    }
    match Value::from_slice(alloc, bytes) {
        Ok(tree) => upgrade_tree(alloc, &tree),
        Err(error) => {
            if error.is_memory() {
                return Err(DiagramFault::Memory);
            }
            Err(DiagramFault::Json)
        }
    }
}
