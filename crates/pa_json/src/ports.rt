// Ports of a contract.
ghost use Rattle.std.specs.Prelude.{◌≡◌, ◌≤◌, [], ◌∷◌, ◌++◌, IfOk, take, drop, length, false};
ghost use Rattle.std.specs.List.{list_any};
ghost use Rattle.std.specs.Str.{bytes_eq};
ghost use Rattle.serde_json.specs.View.{view, items_view};
ghost use Rattle.pa_math.specs.Answers.{IsAnswer};
ghost use Rattle.pa_names.specs.Names.{most_ports};
ghost use Rattle.pa_json.specs.Diagram as spec;

use crate::layout::Layout;
use crate::member::{read_list, read_name};
use crate::{DiagramFault, MakeKind, Path};
use indexmap::IndexSet;
use pa_names::{Name, Names};
use serde_json::Value;
use std::alloc::{AllocError, Global};
use std::marker::Model;

/// Different names of any number, in the order in which they came.
#[derive(Drop)]
pub(crate) struct Ports {
    names: IndexSet<Name>,
}

impl Model for Ports {
    ghost use Rattle.std.specs.Prelude.{List, ℕ};

    ghost Value = { List (List ℕ) };

    ghost view = { λ p. p.names.keys };
}

impl Ports {
    fn new(alloc: Global) -> Ports
        ensures { result ≡ [] }
    {
        Ports {
            names: IndexSet::new(alloc),
        }
    }

    fn len(&self) -> usize
        ensures { result ≡ length self.now }
    {
        self.names.len()
    }

    fn has(&self, name: &Name) -> bool
        ensures { result ≡ list_any (bytes_eq name.now) self.now }
    {
        self.names.contains(name)
    }

    // With one more name, which is not there yet.
    fn with(mut self, name: Name) -> Result<Ports, AllocError>
        requires { list_any (bytes_eq name) self ≡ false }
        ensures { IfOk result (λ more. more ≡ self ++ name ∷ []) }
    {
        self.names.insert(name)?;
        Ok(self)
    }

    /// The names as a list with places, where they are no more than such a list has.
    #[tactic(auto, using(crate::proofs::Steps::pushed_next, crate::proofs::Steps::pushed_end))]
    pub(crate) fn into_names(self, alloc: Global) -> Result<Names, AllocError>
        ensures { IfOk result (λ names. names ≡ self) }
    {
        let mut names = Names::new(alloc);
        for name in self.names {
            match names.add(name) {
                Ok(_) => {}
                Err(_) => return Err(AllocError),
            }
        }
        Ok(names)
    }
}

/// The names, and then one more, which is new: only want of memory refuses it.
pub(crate) fn with_name(alloc: Global, names: Names, name: &Name) -> Result<Names, AllocError>
    ensures { IfOk result (λ more. more ≡ names ++ name.now ∷ []) }
{
    let mut names = names;
    let Ok(copy) = name.copy(alloc) else {
        return Err(AllocError);
    };
    match names.add(copy) {
        Ok(_) => Ok(names),
        Err(_) => Err(AllocError),
    }
}

/// The names, and then those of others from one place up to another, which are new.
#[tactic(auto, using(crate::proofs::Steps::next_name, crate::proofs::Steps::no_more_names))]
pub(crate) fn with_names(
    alloc: Global,
    names: Names,
    others: &Names,
    from: u32,
    to: u32,
) -> Result<Names, AllocError>
    requires order { from ≤ to }
    requires within { to ≤ length others.now }
    ensures { IfOk result (λ all. all ≡ names ++ drop from (take to others.now)) }
{
    let mut all = names;
    for place in from..to {
        match with_name(alloc, all, others.at(place)) {
            Ok(more) => all = more,
            Err(fault) => return Err(fault),
        }
    }
    Ok(all)
}

// The ports with one more.
fn with_port(
    alloc: Global,
    ports: Ports,
    constants: &Names,
    found: &Value,
    path: &Path,
) -> Result<Ports, DiagramFault>
    ensures answer { IsAnswer DiagramFault.Memory (spec.with_port path.now constants.now ports (view found.now)) result }
    ensures grows { IfOk result (λ more. length ports ≤ length more) }
{
    let name = read_name(alloc, Some(found), path)?;
    if constants.place(&name).is_some() {
        return Err(DiagramFault::Shape {
            path: path.copy(alloc)?,
        });
    }
    if ports.has(&name) {
        return Err(DiagramFault::Contract {
            path: path.copy(alloc)?,
            kind: MakeKind::PortTwice,
        });
    }
    Ok(ports.with(name)?)
}

// The ports, and then those of a list's items.
fn with_ports(
    alloc: Global,
    ports: Ports,
    constants: &Names,
    items: &[Value],
    path: &Path,
) -> Result<Ports, DiagramFault>
    ensures answer { IsAnswer DiagramFault.Memory (spec.with_ports path.now constants.now ports (items_view items.now)) result }
    ensures grows { IfOk result (λ more. length ports ≤ length more) }
{
    let mut ports = ports;
    for found in items {
        match with_port(alloc, ports, constants, found, path) {
            Ok(more) => ports = more,
            Err(fault) => return Err(fault),
        }
    }
    Ok(ports)
}

// The ports, and then those of a member.
fn ports_of(
    alloc: Global,
    ports: Ports,
    constants: &Names,
    tree: &Value,
    path: &Path,
    key: &str,
) -> Result<Ports, DiagramFault>
    ensures answer { IsAnswer DiagramFault.Memory (spec.ports_of path.now key.now constants.now ports (view tree.now)) result }
    ensures grows { IfOk result (λ more. length ports ≤ length more) }
{
    let items = read_list(alloc, tree, path, key)?;
    let path = path.member(alloc, key)?;
    with_ports(alloc, ports, constants, items, &path)
}

// How many inputs there are, and all ports.
fn all_ports(
    alloc: Global,
    tree: &Value,
    path: &Path,
    layout: &Layout,
) -> Result<(usize, Ports), DiagramFault>
    ensures answer { IsAnswer DiagramFault.Memory (spec.all_ports path.now layout.now (view tree.now)) result }
    ensures within { IfOk result (λ ports. ports.0 ≤ length ports.1) }
    ensures few { IfOk result (λ ports. length ports.1 ≤ most_ports) }
{
    let constants = &layout.constants.names;
    let inputs = ports_of(alloc, Ports::new(alloc), constants, tree, path, "inputs")?;
    let count = inputs.len();
    let ports = ports_of(alloc, inputs, constants, tree, path, "outputs")?;
    if ports.len() > layout.most_ports as usize {
        return Err(DiagramFault::Limit {
            path: path.copy(alloc)?,
        });
    }
    Ok((count, ports))
}

/// How many inputs a contract has, and all its ports, inputs before outputs.
pub(crate) fn read_ports(
    alloc: Global,
    tree: &Value,
    path: &Path,
    layout: &Layout,
) -> Result<(u32, Names), DiagramFault>
    ensures answer { IsAnswer DiagramFault.Memory (spec.all_ports path.now layout.now (view tree.now)) result }
    ensures within { IfOk result (λ ports. ports.0 ≤ length ports.1) }
    ensures few { IfOk result (λ ports. length ports.1 ≤ most_ports) }
{
    let (count, ports) = all_ports(alloc, tree, path, layout)?;
    let names = ports.into_names(alloc)?;
    Ok((count as u32, names))
}
