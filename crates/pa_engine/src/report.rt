// Each answer is put as soon as it is made.
ghost use Rattle.std.specs.Prelude.{◌≡◌, ◌≤◌, IfOk, IfErr, OnOk, OnErr, IsErr, IsErrOf, All, flat_map};
ghost use Rattle.std.specs.List.{list_any};
ghost use Rattle.pa_desk.specs.Causes.{Rose, HasCause};
ghost use Rattle.pa_desk.specs.Taken.{with_bytes, TookPrefix};
ghost use Rattle.pa_script.specs.Ops.{IsWellFormedOp, IsWellFormedLine};
ghost use Rattle.pa_cert.specs.Tables.{is_refused as is_refused_answer};
ghost use Rattle.pa_cert.specs.AnswerText.{answer_text, report_of, end_line};
ghost use Rattle.pa_answers.specs.Answers.{answer_of, answered, answers_from, past};
ghost use Rattle.pa_engine.specs.Ends.{IsPut, some_refused, status_of};

use crate::Status;
use pa_answers::answer_line;
use pa_cert::{LineAnswer, Table, push_answer, push_end};
use pa_desk::{PutFault, Sink, put_all};
use pa_script::{Script, ScriptLine};
use std::alloc::{AllocError, Global};

/// Why a line is not answered to its end.
#[derive(Clone, Copy, Debug, PartialEq, Eq)]
pub enum StepFault {
    /// Memory ran out before anything was put.
    Memory,
    /// The output did not take the answer whole.
    Write(PutFault),
}

// The text of a line's answer.
fn text_of(alloc: Global, line: &ScriptLine, answer: &LineAnswer) -> Result<Vec<u8>, AllocError>
    ensures { IfOk result (λ text. text.items ≡ answer_text (record { line = line.now; answer = answer.now })) }
{
    let mut text = Vec::new(alloc);
    push_answer(&mut text, line, answer)?;
    Ok(text)
}

/// Answers a line, brings the table past the answer, and puts the answer's text. True says that the answer
/// is a refusal. The line is well formed.
///
/// After `Memory` the table is as it was and nothing was put. After `Write` the table has gone past the
/// answer, and the output took a front of its text. `Write(Failed)` comes only where the output's count of
/// faults rose in this call.
pub fn answer_next<O: Sink>(
    alloc: Global,
    table: &mut Table,
    line: &ScriptLine,
    out: &mut O,
) -> Result<bool, StepFault>
    requires well_formed { IsWellFormedOp line.now.op }
    ensures taken { OnOk result (O.took out.new ≡ with_bytes (O.took out.old) (answer_text (answered table.old line.now))) }
    ensures refused { IfOk result (λ refused. refused ≡ is_refused_answer (answer_of table.old line.now.op)) }
    ensures advanced { ¬ IsErrOf result StepFault.Memory → table.new ≡ past table.old line.now }
    ensures memory { IsErrOf result StepFault.Memory → (table.new ≡ table.old) × (O.took out.new ≡ O.took out.old) }
    ensures front { OnErr result (TookPrefix (O.took out.old) (O.took out.new) (answer_text (answered table.old line.now))) }
    ensures cause { HasCause (StepFault.Write PutFault.Failed) ⊥ (O.faults out.old) (O.faults out.new) result }
{
    let Ok(answer) = answer_line(alloc, table, line) else {
        return Err(StepFault::Memory);
    };
    let Ok(text) = text_of(alloc, line, &answer) else {
        return Err(StepFault::Memory);
    };
    let refused = answer.is_refused();
    if table.advance(alloc, line, answer).is_err() {
        return Err(StepFault::Memory);
    }
    match put_all(out, &text) {
        Ok(()) => Ok(refused),
        Err(fault) => Err(StepFault::Write(fault)),
    }
}

// Answers the lines one after the other. True says that some answer is a refusal.
fn put_answers<O: Sink>(
    alloc: Global,
    mut table: Table,
    lines: &[ScriptLine],
    out: &mut O,
) -> Result<bool, PutFault>
    requires well_formed { All IsWellFormedLine lines.now }
    ensures taken { OnOk result (O.took out.new ≡ with_bytes (O.took out.old) (flat_map answer_text (answers_from table lines.now))) }
    ensures refused { IfOk result (λ refused. refused ≡ some_refused (answers_from table lines.now)) }
    ensures front { OnErr result (TookPrefix (O.took out.old) (O.took out.new) (flat_map answer_text (answers_from table lines.now))) }
    ensures cause { HasCause PutFault.Failed ⊥ (O.faults out.old) (O.faults out.new) result }
{
    let mut refused = false;
    for line in lines {
        match answer_next(alloc, &mut table, line, out) {
            Ok(is_refusal) => refused = refused || is_refusal,
            Err(StepFault::Memory) => return Err(PutFault::Memory),
            Err(StepFault::Write(fault)) => return Err(fault),
        }
    }
    Ok(refused)
}

// Puts the last line of a report, which has the number of its answers.
fn put_end<O: Sink>(alloc: Global, count: usize, out: &mut O) -> Result<(), PutFault>
    ensures taken { OnOk result (O.took out.new ≡ with_bytes (O.took out.old) (end_line count)) }
    ensures front { OnErr result (TookPrefix (O.took out.old) (O.took out.new) (end_line count)) }
    ensures cause { HasCause PutFault.Failed ⊥ (O.faults out.old) (O.faults out.new) result }
{
    let mut text = Vec::new(alloc);
    if push_end(&mut text, count as u64).is_err() {
        return Err(PutFault::Memory);
    }
    put_all(out, &text)
}

// Puts the report of the answers to the lines. True says that some answer is a refusal.
fn put_whole<O: Sink>(
    alloc: Global,
    table: Table,
    script: &Script,
    out: &mut O,
) -> Result<bool, PutFault>
    ensures taken { OnOk result (O.took out.new ≡ with_bytes (O.took out.old) (report_of (answers_from table script.now))) }
    ensures refused { IfOk result (λ refused. refused ≡ some_refused (answers_from table script.now)) }
    ensures front { OnErr result (TookPrefix (O.took out.old) (O.took out.new) (report_of (answers_from table script.now))) }
    ensures cause { HasCause PutFault.Failed ⊥ (O.faults out.old) (O.faults out.new) result }
{
    let lines: &[ScriptLine] = &script.lines;
    put_all(out, b"pacti report 2\n")?;
    let refused = put_answers(alloc, table, lines, out)?;
    put_end(alloc, lines.len(), out)?;
    Ok(refused)
}

/// Puts the report of the answers to the lines over the table, each answer as soon as it is made, and gives
/// the status by which the run ends.
pub(crate) fn put_report<O: Sink>(
    alloc: Global,
    table: Table,
    script: &Script,
    out: &mut O,
) -> Status
    ensures { IsPut (Rose (O.faults out.old) (O.faults out.new)) (O.took out.old) (O.took out.new)
        (report_of (answers_from table script.now)) (status_of (answers_from table script.now)) result }
{
    match put_whole(alloc, table, script, out) {
        Ok(false) => Status::Done,
        Ok(true) => Status::Refused,
        Err(PutFault::Memory) => Status::Memory,
        Err(PutFault::Failed) => Status::WriteFault,
    }
}
