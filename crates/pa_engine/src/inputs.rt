// The inputs of a run: each is fetched and then read, one after the other.
ghost use Rattle.std.specs.Prelude.{◌≡◌, ◌≤◌, ◌⊎◌, Ok, IfOk, IfErr};
ghost use Rattle.pa_desk.specs.Causes.{Rose};
ghost use Rattle.pa_json.specs.Diagram.{diagram_of};
ghost use Rattle.pa_json.specs.Upgrades.{upgrade_of, IsUpgrade};
ghost use Rattle.pa_script.specs.Script.{script_of};
ghost use Rattle.pa_engine.specs.Inputs as spec;

use crate::{InputFault, Status, Which};
use pa_desk::{FetchFault, Shelf};
use pa_json::{
    Diagram, DiagramFault, MOST_DIAGRAM_BYTES, MOST_UPGRADE_BYTES, read_diagram, upgrade,
};
use pa_script::{MOST_SCRIPT, Script, ScriptFault, read_script};
use std::alloc::Global;

/// What a run works on.
#[derive(Drop)]
pub(crate) struct Inputs {
    pub diagram: Diagram,
    pub script: Script,
}

// The diagram of these bytes, or the status by which the run stops.
fn diagram_in(alloc: Global, bytes: &Vec<u8>) -> Result<Diagram, Status>
    ensures ok { IfOk result (λ diagram. diagram_of bytes.now.items ≡ Ok diagram) }
    ensures err { IfErr result (λ status. (status ≡ Status.Memory) ⊎ spec.IsBadDiagram diagram_of bytes.now.items status) }
{
    match read_diagram(alloc, bytes) {
        Ok(diagram) => Ok(diagram),
        Err(DiagramFault::Memory) => Err(Status::Memory),
        Err(fault) => Err(Status::Input(InputFault::BadDiagram(fault))),
    }
}

// The diagram at the path, or the status by which the run stops.
fn diagram_at<H: Shelf>(alloc: Global, path: &str, shelf: &mut H) -> Result<Diagram, Status>
    ensures ok { IfOk result (λ diagram. spec.ReadsAt diagram_of (H.holds shelf.old) path.now (Ok diagram)) }
    ensures err { IfErr result (λ status. (status ≡ Status.Memory)
        ⊎ spec.IsNoDiagram diagram_of (H.holds shelf.old) path.now (Rose (H.faults shelf.old) (H.faults shelf.new)) status) }
    ensures later { H.faults shelf.old ≤ H.faults shelf.new }
    ensures same { H.holds shelf.new ≡ H.holds shelf.old }
{
    match shelf.fetch(alloc, path, MOST_DIAGRAM_BYTES) {
        Ok(bytes) => diagram_in(alloc, &bytes),
        Err(FetchFault::Failed) => Err(Status::ReadFault(Which::Diagram)),
        Err(FetchFault::Memory) => Err(Status::Memory),
    }
}

// What the bytes are upgraded to, or the status by which the run stops.
fn upgraded_in(alloc: Global, bytes: &Vec<u8>) -> Result<Vec<u8>, Status>
    ensures ok { IfOk result (λ text. upgrade_of bytes.now.items ≡ Ok text.items) }
    ensures same { IfOk result (λ text. IsUpgrade bytes.now.items text.items) }
    ensures err { IfErr result (λ status. (status ≡ Status.Memory) ⊎ spec.IsBadDiagram upgrade_of bytes.now.items status) }
{
    match upgrade(alloc, bytes) {
        Ok(text) => Ok(text),
        Err(DiagramFault::Memory) => Err(Status::Memory),
        Err(fault) => Err(Status::Input(InputFault::BadDiagram(fault))),
    }
}

/// What the diagram at the path is upgraded to, or the status by which the run stops.
pub(crate) fn upgraded_at<H: Shelf>(
    alloc: Global,
    path: &str,
    shelf: &mut H,
) -> Result<Vec<u8>, Status>
    ensures ok { IfOk result (λ text. spec.IsUpgradedAt (H.holds shelf.old) path.now text.items) }
    ensures err { IfErr result (λ status. (status ≡ Status.Memory)
        ⊎ spec.IsNoDiagram upgrade_of (H.holds shelf.old) path.now (Rose (H.faults shelf.old) (H.faults shelf.new)) status) }
    ensures same { H.holds shelf.new ≡ H.holds shelf.old }
{
    match shelf.fetch(alloc, path, MOST_UPGRADE_BYTES) {
        Ok(bytes) => upgraded_in(alloc, &bytes),
        Err(FetchFault::Failed) => Err(Status::ReadFault(Which::Diagram)),
        Err(FetchFault::Memory) => Err(Status::Memory),
    }
}

// The script of these bytes, or the status by which the run stops.
fn script_in(alloc: Global, bytes: &Vec<u8>) -> Result<Script, Status>
    ensures ok { IfOk result (λ script. script_of bytes.now.items ≡ Ok script) }
    ensures err { IfErr result (λ status. (status ≡ Status.Memory) ⊎ spec.IsBadScript bytes.now.items status) }
{
    match read_script(alloc, bytes) {
        Ok(script) => Ok(script),
        Err(ScriptFault::Memory) => Err(Status::Memory),
        Err(fault) => Err(Status::Input(InputFault::BadScript(fault))),
    }
}

// The script at the path, or the status by which the run stops.
fn script_at<H: Shelf>(alloc: Global, path: &str, shelf: &mut H) -> Result<Script, Status>
    ensures ok { IfOk result (λ script. spec.ReadsAt script_of (H.holds shelf.old) path.now (Ok script)) }
    ensures err { IfErr result (λ status. (status ≡ Status.Memory)
        ⊎ spec.IsNoScript (H.holds shelf.old) path.now (Rose (H.faults shelf.old) (H.faults shelf.new)) status) }
    ensures later { H.faults shelf.old ≤ H.faults shelf.new }
    ensures same { H.holds shelf.new ≡ H.holds shelf.old }
{
    match shelf.fetch(alloc, path, MOST_SCRIPT) {
        Ok(bytes) => script_in(alloc, &bytes),
        Err(FetchFault::Failed) => Err(Status::ReadFault(Which::Script)),
        Err(FetchFault::Memory) => Err(Status::Memory),
    }
}

/// The diagram and the script at the two paths, or the status by which the run stops: the first fault.
pub(crate) fn read_inputs<H: Shelf>(
    alloc: Global,
    diagram: &str,
    script: &str,
    shelf: &mut H,
) -> Result<Inputs, Status>
    ensures ok { IfOk result (λ inputs. spec.AreRead (H.holds shelf.old) (record { diagram = diagram.now; script = script.now }) inputs.diagram inputs.script) }
    ensures err { IfErr result (λ status. (status ≡ Status.Memory)
        ⊎ spec.IsStopped (H.holds shelf.old) (record { diagram = diagram.now; script = script.now }) (Rose (H.faults shelf.old) (H.faults shelf.new)) status) }
    ensures later { H.faults shelf.old ≤ H.faults shelf.new }
    ensures same { H.holds shelf.new ≡ H.holds shelf.old }
{
    let diagram = diagram_at(alloc, diagram, shelf)?;
    match script_at(alloc, script, shelf) {
        Ok(script) => Ok(Inputs { diagram, script }),
        Err(status) => Err(status),
    }
}
