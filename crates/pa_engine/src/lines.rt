// The lines of the statuses that have one.
ghost use Rattle.std.specs.Prelude.{◌≡◌, ◌++◌, OnOk, IfOk, codes, decimal};
ghost use Rattle.pa_engine.specs.Statuses as spec;

use crate::{InputFault, Status, Which};
use itoa::Buffer;
use pa_grammar::TermFault;
use pa_json::{DiagramFault, MakeKind, Path, WireKind};
use pa_script::{LineKind, ScriptFault};
use std::alloc::{AllocError, Global};

// The digits of a number.
fn push_number(text: &mut Vec<u8>, number: u32) -> Result<(), AllocError>
    ensures { OnOk result (text.new.items ≡ text.old.items ++ decimal number) }
{
    let mut buffer = Buffer::new();
    text.extend_from_slice(buffer.format(number).as_bytes())
}

fn kind_word(kind: LineKind) -> &'static str
    ensures { result.now ≡ spec.kind_text kind }
{
    match kind {
        LineKind::Limit => "limit",
        LineKind::Word => "word",
        LineKind::Shape => "shape",
        LineKind::Name => "name",
        LineKind::Number => "number",
        LineKind::Repeat => "repeat",
    }
}

// What is told of a faulty line.
fn push_faulty_line(text: &mut Vec<u8>, number: u32, kind: LineKind) -> Result<(), AllocError>
    ensures { OnOk result (text.new.items ≡ text.old.items ++ spec.script_line (ScriptFault.Line number kind)) }
{
    text.extend_from_slice(b"input: script line ")?;
    push_number(text, number)?;
    text.extend_from_slice(b": ")?;
    text.extend_from_slice(kind_word(kind).as_bytes())?;
    text.extend_from_slice(b"\n")
}

// What is told of a script that is refused.
fn push_script_line(text: &mut Vec<u8>, fault: &ScriptFault) -> Result<(), AllocError>
    ensures { OnOk result (text.new.items ≡ text.old.items ++ spec.script_line fault.now) }
{
    match fault {
        ScriptFault::Memory => Ok(()),
        ScriptFault::TooLong => text.extend_from_slice(b"input: script too long\n"),
        ScriptFault::Line { number, kind } => push_faulty_line(text, *number, *kind),
    }
}

// A word and the byte at which a fault stands.
fn push_at(text: &mut Vec<u8>, word: &str, at: u32) -> Result<(), AllocError>
    ensures { OnOk result (text.new.items ≡ text.old.items ++ word.now ++ decimal at) }
{
    text.extend_from_slice(word.as_bytes())?;
    push_number(text, at)
}

fn push_unknown_name(text: &mut Vec<u8>, at: u32) -> Result<(), AllocError>
    ensures { OnOk result (text.new.items ≡ text.old.items ++ codes "unknown-name " ++ decimal at) }
{
    text.extend_from_slice(b"unknown-name ")?;
    push_number(text, at)
}

fn push_not_linear(text: &mut Vec<u8>, at: u32) -> Result<(), AllocError>
    ensures { OnOk result (text.new.items ≡ text.old.items ++ codes "not-linear " ++ decimal at) }
{
    text.extend_from_slice(b"not-linear ")?;
    push_number(text, at)
}

// A fault of a term.
fn push_term_fault(text: &mut Vec<u8>, fault: &TermFault) -> Result<(), AllocError>
    ensures { OnOk result (text.new.items ≡ text.old.items ++ spec.term_text fault.now) }
{
    match fault {
        TermFault::Memory => Ok(()),
        TermFault::Syntax { at } => push_at(text, "syntax ", *at),
        TermFault::Literal { at } => push_at(text, "literal ", *at),
        TermFault::UnknownName { at } => push_unknown_name(text, *at),
        TermFault::NotLinear { at } => push_not_linear(text, *at),
        TermFault::Wide => text.extend_from_slice(b"wide"),
    }
}

fn make_word(kind: MakeKind) -> &'static str
    ensures { result.now ≡ spec.make_text kind }
{
    match kind {
        MakeKind::PortTwice => "port-twice",
        MakeKind::AssumesOutput => "assumes-output",
    }
}

fn wire_word(kind: WireKind) -> &'static str
    ensures { result.now ≡ spec.wire_text kind }
{
    match kind {
        WireKind::NoContract => "no-contract",
        WireKind::NoPort => "no-port",
        WireKind::Twice => "twice",
    }
}

// The head of a line of the diagram, and a word.
fn push_head(text: &mut Vec<u8>, word: &str) -> Result<(), AllocError>
    ensures { OnOk result (text.new.items ≡ text.old.items ++ codes "input: diagram " ++ word.now) }
{
    text.extend_from_slice(b"input: diagram ")?;
    text.extend_from_slice(word.as_bytes())
}

// Where a fault stands.
fn push_path(text: &mut Vec<u8>, path: &Path) -> Result<(), AllocError>
    ensures { OnOk result (text.new.items ≡ text.old.items ++ codes " at " ++ path.now) }
{
    text.extend_from_slice(b" at ")?;
    text.extend_from_slice(&path.bytes)
}

// A word and the path of a fault.
fn push_place(text: &mut Vec<u8>, word: &str, path: &Path) -> Result<(), AllocError>
    ensures { OnOk result (text.new.items ≡ text.old.items ++ spec.place_text word.now path.now) }
{
    push_head(text, word)?;
    push_path(text, path)
}

// A word and the path of a fault of which nothing more is told.
fn push_bare(text: &mut Vec<u8>, word: &str, path: &Path) -> Result<(), AllocError>
    ensures { OnOk result (text.new.items ≡ text.old.items ++ spec.place_text word.now path.now ++ codes "\n") }
{
    push_place(text, word, path)?;
    text.extend_from_slice(b"\n")
}

// A word, the path of a fault, and what it is.
fn push_told(text: &mut Vec<u8>, word: &str, path: &Path, what: &str) -> Result<(), AllocError>
    ensures { OnOk result (text.new.items ≡ text.old.items ++ spec.told_text word.now path.now what.now) }
{
    push_place(text, word, path)?;
    text.extend_from_slice(b": ")?;
    text.extend_from_slice(what.as_bytes())?;
    text.extend_from_slice(b"\n")
}

// A term's path, and its fault.
fn push_term_line(text: &mut Vec<u8>, path: &Path, fault: &TermFault) -> Result<(), AllocError>
    ensures { OnOk result (text.new.items ≡ text.old.items ++ spec.told_text (codes "term") path.now (spec.term_text fault.now)) }
{
    push_place(text, "term", path)?;
    text.extend_from_slice(b": ")?;
    push_term_fault(text, fault)?;
    text.extend_from_slice(b"\n")
}

// What is told of a diagram that is refused.
fn push_diagram_line(text: &mut Vec<u8>, fault: &DiagramFault) -> Result<(), AllocError>
    ensures { OnOk result (text.new.items ≡ text.old.items ++ spec.diagram_line fault.now) }
{
    match fault {
        DiagramFault::Memory => Ok(()),
        DiagramFault::TooLong => text.extend_from_slice(b"input: diagram too long\n"),
        DiagramFault::Json => text.extend_from_slice(b"input: diagram json\n"),
        DiagramFault::Version => text.extend_from_slice(b"input: diagram version\n"),
        DiagramFault::Shape { path } => push_bare(text, "shape", path),
        DiagramFault::Limit { path } => push_bare(text, "limit", path),
        DiagramFault::Term { path, fault } => push_term_line(text, path, fault),
        DiagramFault::Contract { path, kind } => push_told(
            text,
            "contract",
            path,
            make_word(*kind),
        ),
        DiagramFault::Wire { path, kind } => push_told(text, "wire", path, wire_word(*kind)),
    }
}

/// Adds the line of a status, for those that have one.
pub(crate) fn push_status_line(text: &mut Vec<u8>, status: &Status) -> Result<(), AllocError>
    ensures { OnOk result (text.new.items ≡ text.old.items ++ spec.line_of status.now) }
{
    match status {
        Status::Input(InputFault::BadDiagram(fault)) => push_diagram_line(text, fault),
        Status::Input(InputFault::BadScript(fault)) => push_script_line(text, fault),
        Status::Usage => {
            text.extend_from_slice(b"usage: pacti DIAGRAM SCRIPT | pacti DIAGRAM --upgrade\n")
        }
        Status::ReadFault(Which::Diagram) => text.extend_from_slice(b"read fault: diagram\n"),
        Status::ReadFault(Which::Script) => text.extend_from_slice(b"read fault: script\n"),
        Status::Done | Status::Refused | Status::WriteFault | Status::Memory => Ok(()),
    }
}

/// The line of a status, for those that have one.
pub(crate) fn line_of_status(alloc: Global, status: &Status) -> Result<Vec<u8>, AllocError>
    ensures { IfOk result (λ text. text.items ≡ spec.line_of status.now) }
{
    let mut text = Vec::new(alloc);
    push_status_line(&mut text, status)?;
    Ok(text)
}
