// The canonical texts of lines.
ghost use Rattle.std.specs.Prelude.{◌≡◌, ◌++◌, OnOk, IfOk, decimal};
ghost use Rattle.pa_script.specs.LineText as spec;

use crate::fractions::{push_goal, push_values};
use crate::{Mentions, Op, ScriptLine};
use itoa::Buffer;
use pa_grammar::Linear;
use pa_names::{Name, Names};
use pa_row::Point;
use std::alloc::{AllocError, Global};

// A word, and then digits.
fn push_limit(text: &mut Vec<u8>, word: &str, most: u32) -> Result<(), AllocError>
    ensures { OnOk result (text.new.items ≡ text.old.items ++ word.now ++ decimal most) }
{
    let mut buffer = Buffer::new();
    text.extend_from_slice(word.as_bytes())?;
    text.extend_from_slice(buffer.format(most).as_bytes())
}

// A word with a space before it.
fn push_word(text: &mut Vec<u8>, word: &[u8]) -> Result<(), AllocError>
    ensures { OnOk result (text.new.items ≡ text.old.items ++ spec.word_text word.now) }
{
    text.push(b' ')?;
    text.extend_from_slice(word)
}

/// Adds the names, with a space before each.
pub fn push_names(text: &mut Vec<u8>, names: &Names) -> Result<(), AllocError>
    ensures { OnOk result (text.new.items ≡ text.old.items ++ spec.words_text names.now) }
{
    for place in 0..names.len() {
        push_word(text, names.at(place).bytes())?;
    }
    Ok(())
}

// Names that may stand more than once, with a space before each.
fn push_mentions(text: &mut Vec<u8>, mentions: &Mentions) -> Result<(), AllocError>
    ensures { OnOk result (text.new.items ≡ text.old.items ++ spec.words_text mentions.now) }
{
    for name in &mentions.names {
        push_word(text, name.bytes())?;
    }
    Ok(())
}

// A verb, and then `R = A B`.
fn push_three(
    text: &mut Vec<u8>,
    verb: &str,
    name: &Name,
    left: &Name,
    right: &Name,
) -> Result<(), AllocError>
    ensures { OnOk result (text.new.items ≡ text.old.items ++ spec.three_text verb.now name.now left.now right.now) }
{
    text.extend_from_slice(verb.as_bytes())?;
    text.extend_from_slice(name.bytes())?;
    text.extend_from_slice(b" = ")?;
    text.extend_from_slice(left.bytes())?;
    text.extend_from_slice(b" ")?;
    text.extend_from_slice(right.bytes())
}

// `refine A B`.
fn push_refine(text: &mut Vec<u8>, left: &Name, right: &Name) -> Result<(), AllocError>
    ensures { OnOk result (text.new.items ≡ text.old.items ++ spec.refine_text left.now right.now) }
{
    text.extend_from_slice(b"refine ")?;
    text.extend_from_slice(left.bytes())?;
    text.extend_from_slice(b" ")?;
    text.extend_from_slice(right.bytes())
}

// `test C at x=V ..`.
fn push_test(text: &mut Vec<u8>, of: &Name, names: &Names, at: &Point) -> Result<(), AllocError>
    ensures { OnOk result (text.new.items ≡ text.old.items ++ spec.test_text of.now names.now at.now) }
{
    text.extend_from_slice(b"test ")?;
    text.extend_from_slice(of.bytes())?;
    text.extend_from_slice(b" at")?;
    push_values(text, names, at)
}

// `bound C max E` or `bound C min E`.
fn push_bound(text: &mut Vec<u8>, of: &Name, least: bool, goal: &Linear) -> Result<(), AllocError>
    ensures { OnOk result (text.new.items ≡ text.old.items ++ spec.bound_text of.now least goal.now) }
{
    text.extend_from_slice(b"bound ")?;
    text.extend_from_slice(of.bytes())?;
    text.extend_from_slice(if least { b" min " } else { b" max " })?;
    push_goal(text, goal)
}

// `hide R = C x ..`.
fn push_hide(text: &mut Vec<u8>, name: &Name, of: &Name, names: &Names) -> Result<(), AllocError>
    ensures { OnOk result (text.new.items ≡ text.old.items ++ spec.hide_text name.now of.now names.now) }
{
    text.extend_from_slice(b"hide ")?;
    text.extend_from_slice(name.bytes())?;
    text.extend_from_slice(b" = ")?;
    text.extend_from_slice(of.bytes())?;
    push_names(text, names)
}

// `keep x ..`, where there are any.
fn push_keep(text: &mut Vec<u8>, keep: &Names) -> Result<(), AllocError>
    ensures { OnOk result (text.new.items ≡ text.old.items ++ spec.keep_text keep.now) }
{
    if keep.len() == 0 {
        return Ok(());
    }
    text.extend_from_slice(b" keep")?;
    push_names(text, keep)
}

// `compose R = A ..`, and then the kept names.
fn push_compose(
    text: &mut Vec<u8>,
    name: &Name,
    parts: &Mentions,
    keep: &Names,
) -> Result<(), AllocError>
    ensures { OnOk result (text.new.items ≡ text.old.items ++ spec.compose_text name.now parts.now keep.now) }
{
    text.extend_from_slice(b"compose ")?;
    text.extend_from_slice(name.bytes())?;
    text.extend_from_slice(b" =")?;
    push_mentions(text, parts)?;
    push_keep(text, keep)
}

/// Adds the canonical text of an operation: its words with single spaces, each fraction in lowest terms.
pub fn push_op(text: &mut Vec<u8>, op: &Op) -> Result<(), AllocError>
    ensures { OnOk result (text.new.items ≡ text.old.items ++ spec.op_text op.now) }
{
    match op {
        Op::LimitRows { most } => push_limit(text, "limit rows ", *most),
        Op::LimitPivots { most } => push_limit(text, "limit pivots ", *most),
        Op::Merge {
            result,
            left,
            right,
        } => push_three(text, "merge ", result, left, right),
        Op::Quotient {
            result,
            whole,
            part,
        } => push_three(text, "quotient ", result, whole, part),
        Op::Refine { left, right } => push_refine(text, left, right),
        Op::Test { of, names, at } => push_test(text, of, names, at),
        Op::Bound { of, least, goal } => push_bound(text, of, *least, goal),
        Op::Hide { result, of, names } => push_hide(text, result, of, names),
        Op::Compose {
            result,
            parts,
            keep,
        } => push_compose(text, result, parts, keep),
    }
}

/// The canonical text of a line, without its number.
pub fn write_line(alloc: Global, line: &ScriptLine) -> Result<Vec<u8>, AllocError>
    ensures { IfOk result (λ text. text.items ≡ spec.line_text line.now) }
{
    let mut text = Vec::new(alloc);
    push_op(&mut text, &line.op)?;
    Ok(text)
}
