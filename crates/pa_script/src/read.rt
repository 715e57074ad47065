// Reading a script.
ghost use Rattle.std.specs.Prelude.{◌≡◌, ◌≤◌, ◌+◌, ◌==◌, IfOk, Ok, map, length};
ghost use Rattle.std.specs.List.{slice_split};
ghost use Rattle.pa_math.specs.Answers.{IsAnswer};
ghost use Rattle.pa_script.specs.Script as spec;
ghost use Rattle.pa_script.specs.Ops.{IsWellFormedOp};

use crate::lines::read_op;
use crate::words::split_word;
use crate::{LineKind, Op, Script, ScriptFault, ScriptLine};
use std::alloc::{AllocError, Global};

/// How many bytes a script has at most.
pub const MOST_SCRIPT: u64 = 262_144;

// How many lines that are not skipped a script has at most.
const MOST_LINES: usize = 1000;

// The pieces that line feeds part.
fn pieces_of<'a>(alloc: Global, bytes: &'a [u8]) -> Result<Vec<&'a [u8]>, AllocError>
    ensures pieces { IfOk result (λ pieces. map (λ piece. piece.now) pieces.items ≡ slice_split (λ b. b == 10) bytes.now) }
    ensures few { IfOk result (λ pieces. length pieces.items ≤ length bytes.now + 1) }
{
    bytes.split(|byte| *byte == b'\n').collect(alloc)
}

// The line without the carriage return at its end.
fn without_return(line: &[u8]) -> &[u8]
    ensures { result.now ≡ spec.without_return line.now }
{
    match line {
        [line @ .., b'\r'] => line,
        _ => line,
    }
}

// A line without words, or whose first word begins with `#`.
fn is_skipped(line: &[u8]) -> bool
    ensures { result ≡ spec.is_skipped line.now }
{
    let word = split_word(line).0;
    word.is_empty() || word[0] == b'#'
}

// The line that a piece between line feeds is. The last piece has no line feed behind it.
fn line_of(piece: &[u8], is_last: bool) -> &[u8]
    ensures { result.now ≡ spec.line_of is_last piece.now }
{
    if is_last {
        piece
    } else {
        without_return(piece)
    }
}

// The lines with one more, of this number.
fn with_op(script: Script, number: u32, op: Op) -> Result<Script, ScriptFault>
    requires number { 1 ≤ number }
    requires op { IsWellFormedOp op }
    ensures { IsAnswer ScriptFault.Memory (Ok (spec.with_op script number op)) result }
{
    let Script { mut lines } = script;
    if lines.push(ScriptLine { number, op }).is_err() {
        return Err(ScriptFault::Memory);
    }
    Ok(Script { lines })
}

// The lines with one more that is not skipped.
fn with_words(
    alloc: Global,
    script: Script,
    number: u32,
    line: &[u8],
) -> Result<Script, ScriptFault>
    requires { 1 ≤ number }
    ensures { IsAnswer ScriptFault.Memory (spec.with_words script number line.now) result }
{
    if script.lines.len() >= MOST_LINES {
        return Err(ScriptFault::Line {
            number,
            kind: LineKind::Limit,
        });
    }
    let op = read_op(alloc, number, line)?;
    with_op(script, number, op)
}

// The lines with one more, where it is not skipped.
fn with_line(alloc: Global, script: Script, number: u32, line: &[u8]) -> Result<Script, ScriptFault>
    requires { 1 ≤ number }
    ensures { IsAnswer ScriptFault.Memory (spec.with_line script (number, line.now)) result }
{
    if is_skipped(line) {
        return Ok(script);
    }
    with_words(alloc, script, number, line)
}

// The lines of the pieces between line feeds.
fn with_pieces(alloc: Global, pieces: &[&[u8]]) -> Result<Script, ScriptFault>
    requires { length pieces.now ≤ spec.most_bytes + 1 }
    ensures { IsAnswer ScriptFault.Memory (spec.with_pieces (map (λ piece. piece.now) pieces.now)) result }
{
    let mut script = Script {
        lines: Vec::new(alloc),
    };
    for place in 0..pieces.len() {
        let line = line_of(pieces[place], place + 1 == pieces.len());
        match with_line(alloc, script, place as u32 + 1, line) {
            Ok(more) => script = more,
            Err(fault) => return Err(fault),
        }
    }
    Ok(script)
}

/// Reads a script: its lines that are not skipped, in order, each with its number in the text.
///
/// Each refusal but `Memory` is the first faulty line, with the first kind of its faults in the order of
/// `LineKind`; `TooLong` where there are more than 262,144 bytes.
pub fn read_script(alloc: Global, bytes: &[u8]) -> Result<Script, ScriptFault>
    ensures { IsAnswer ScriptFault.Memory (spec.script_of bytes.now) result }
{
    if bytes.len() as u64 > MOST_SCRIPT {
        return Err(ScriptFault::TooLong);
    }
    let pieces = pieces_of(alloc, bytes)?;
    with_pieces(alloc, &pieces)
}
