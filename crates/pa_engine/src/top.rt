// The whole program but for its edge.
ghost use Rattle.std.specs.Prelude.{◌≡◌, ◌⊎◌, ℕ, List, map, string_bytes, IfOk, Some};
ghost use Rattle.pa_desk.specs.Causes.{Rose};
ghost use Rattle.pa_desk.specs.Taken.{with_bytes};
ghost use Rattle.pa_cert.specs.AnswerText.{report_of};
ghost use Rattle.pa_witness.specs.Steps.{Two};
ghost use Rattle.pa_holds.specs.Tables.{AreTrue, HoldEach};
ghost use Rattle.pa_answers.specs.Answers.{AreFormed};
ghost use Rattle.pa_engine.specs.declared.status.Status.{Status as StatusValue};
ghost use Rattle.pa_engine.specs.Words.{Paths, paths_of, upgrade_path_of};
ghost use Rattle.pa_engine.specs.Statuses.{line_of};
ghost use Rattle.pa_engine.specs.Ends as spec;

use crate::Status;
use crate::inputs::{Inputs, read_inputs, upgraded_at};
use crate::lines::line_of_status;
use crate::report::put_report;
use crate::words::{paths_of, upgrade_path_of};
use pa_cert::Table;
use pa_desk::{PutFault, Shelf, Sink, put_all};
use pa_json::Diagram;
use std::alloc::{AllocError, Global};

// Puts a text, and ends with this status where it was taken whole.
fn put_text<O: Sink>(out: &mut O, text: &[u8], status: Status) -> Status
    ensures { spec.IsPut (Rose (O.faults out.old) (O.faults out.new)) (O.took out.old) (O.took out.new) text.now status result }
{
    match put_all(out, text) {
        Ok(()) => status,
        Err(PutFault::Memory) => Status::Memory,
        Err(PutFault::Failed) => Status::WriteFault,
    }
}

// Puts the line of a status that has one.
fn put_line<O: Sink>(alloc: Global, out: &mut O, status: Status) -> Status
    ensures { spec.IsPut (Rose (O.faults out.old) (O.faults out.new)) (O.took out.old) (O.took out.new) (line_of status) status result }
{
    let Ok(text) = line_of_status(alloc, &status) else {
        return Status::Memory;
    };
    put_text(out, &text, status)
}

// Puts the line of what stops the run. Want of memory has none.
#[tactic(auto, using(crate::proofs::Ends::put_nothing))]
fn put_stop<O: Sink>(alloc: Global, out: &mut O, status: Status) -> Status
    ensures put { spec.IsPut (Rose (O.faults out.old) (O.faults out.new)) (O.took out.old) (O.took out.new) (line_of status) status result }
    ensures memory { status ≡ Status.Memory → (result ≡ Status.Memory) × (O.took out.new ≡ O.took out.old) }
{
    match status {
        Status::Memory => Status::Memory,
        other => put_line(alloc, out, other),
    }
}

// The table that a diagram gives.
fn table_of(diagram: Diagram) -> Result<Table, AllocError>
    ensures value { IfOk result (λ table. table ≡ spec.table_of diagram) }
    ensures formed { AreFormed (spec.table_of diagram) }
{
    let Diagram {
        contracts,
        parts,
        nominal,
    } = diagram;
    let contracts = contracts.with_all(parts)?;
    Ok(Table::new(contracts, nominal))
}

// Puts the report of the answers to the script over the diagram.
fn answer_all<O: Sink>(alloc: Global, inputs: Inputs, out: &mut O) -> Status
    ensures put { spec.IsPut (Rose (O.faults out.old) (O.faults out.new)) (O.took out.old) (O.took out.new)
        (report_of (spec.answers_of inputs.diagram inputs.script)) (spec.status_of (spec.answers_of inputs.diagram inputs.script)) result }
    ensures printed { HoldEach Two (spec.table_of inputs.diagram) (spec.answers_of inputs.diagram inputs.script) }
    ensures truth { AreTrue (spec.table_of inputs.diagram) (spec.answers_of inputs.diagram inputs.script) }
{
    let Inputs { diagram, script } = inputs;
    match table_of(diagram) {
        Ok(table) => put_report(alloc, table, &script, out),
        Err(AllocError) => Status::Memory,
    }
}

// Puts what the diagram at the path is upgraded to, or the line of what stops the run.
fn put_upgraded<H: Shelf, O: Sink>(alloc: Global, path: &str, shelf: &mut H, out: &mut O) -> Status
    ensures due { ((status : StatusValue) × (text : List ℕ)
        × spec.IsUpgradeDue path.now (H.holds shelf.old) (Rose (H.faults shelf.old) (H.faults shelf.new)) status text
        × spec.IsPut (Rose (O.faults out.old) (O.faults out.new)) (O.took out.old) (O.took out.new) text status result)
        ⊎ ((result ≡ Status.Memory) × (O.took out.new ≡ O.took out.old)) }
    ensures holds { H.holds shelf.new ≡ H.holds shelf.old }
{
    match upgraded_at(alloc, path, shelf) {
        Ok(text) => put_text(out, &text, Status::Done),
        Err(status) => put_stop(alloc, out, status),
    }
}

// Reads what the words name and puts the report or the upgraded diagram, or the line of what stops the run.
fn run_to_end<H: Shelf, O: Sink>(
    alloc: Global,
    words: &[String],
    shelf: &mut H,
    out: &mut O,
) -> Status
    ensures caused { spec.IsCaused (record {
      words = map string_bytes words.now;
      told = H.holds shelf.old;
      read = Rose (H.faults shelf.old) (H.faults shelf.new);
      write = Rose (O.faults out.old) (O.faults out.new);
      old = O.took out.old;
      new = O.took out.new;
    }) result }
    ensures holds { H.holds shelf.new ≡ H.holds shelf.old }
{
    if let Some(path) = upgrade_path_of(words) {
        return put_upgraded(alloc, path, shelf, out);
    }
    let Some((diagram, script)) = paths_of(words) else {
        return put_line(alloc, out, Status::Usage);
    };
    match read_inputs(alloc, diagram, script, shelf) {
        Ok(inputs) => answer_all(alloc, inputs, out),
        Err(status) => put_stop(alloc, out, status),
    }
}

/// Does all that the program does: reads the diagram and the script at the two paths that `words` are,
/// answers each line of the script over the diagram's contracts and those of the earlier answers, and puts
/// each answer as soon as it is made. Where the words are a path and `--upgrade`, it puts what the diagram at
/// the path is upgraded to. `words` are the words after the program's name.
///
/// The first fault ends the run, in this order: the words, then for the diagram and the script the fetch and
/// the reading, then the output. A script that asks for an operation that is not answered yet is a fault of
/// the script, told where the script has no other. A fault but those of the output puts its line instead of
/// the report. After a fault of writing, and where memory ran out, the output took a front of what was to be
/// put, or nothing.
pub fn run<H: Shelf, O: Sink>(
    alloc: Global,
    words: &Vec<String>,
    shelf: &mut H,
    out: &mut O,
) -> Status
    ensures headline { (paths : Paths) → paths_of (map string_bytes words.now.items) ≡ Some paths → spec.IsAnswered result
        → spec.TookTrueReport paths (H.holds shelf.old) (O.took out.old) (O.took out.new) result }
    ensures upgrade { (path : List ℕ) → upgrade_path_of (map string_bytes words.now.items) ≡ Some path → result ≡ Status.Done
        → spec.TookUpgrade path (H.holds shelf.old) (O.took out.old) (O.took out.new) }
    ensures caused { spec.IsCaused (record {
      words = map string_bytes words.now.items;
      told = H.holds shelf.old;
      read = Rose (H.faults shelf.old) (H.faults shelf.new);
      write = Rose (O.faults out.old) (O.faults out.new);
      old = O.took out.old;
      new = O.took out.new;
    }) result }
    ensures complete { (ready : spec.IsReady (map string_bytes words.now.items) (H.holds shelf.old))
        → ¬ Rose (H.faults shelf.old) (H.faults shelf.new) → ¬ Rose (O.faults out.old) (O.faults out.new)
        → spec.IsWhole ready (O.took out.old) (O.took out.new) result ⊎ (result ≡ Status.Memory) }
    ensures complete_upgrade { (ready : spec.IsReadyUpgrade (map string_bytes words.now.items) (H.holds shelf.old))
        → ¬ Rose (H.faults shelf.old) (H.faults shelf.new) → ¬ Rose (O.faults out.old) (O.faults out.new)
        → ((result ≡ Status.Done) × (O.took out.new ≡ with_bytes (O.took out.old) ready.text)) ⊎ (result ≡ Status.Memory) }
    ensures holds { H.holds shelf.new ≡ H.holds shelf.old }
{
    run_to_end(alloc, words, shelf, out)
}
