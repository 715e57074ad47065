// What a line asks for.
ghost use Rattle.std.specs.Prelude.{◌≡◌, ◌≤◌, ◌+◌, Ok, IfOk, map, take, drop, length};
ghost use Rattle.pa_math.specs.Answers.{IsAnswer};
ghost use Rattle.pa_grammar.specs.Lexer.{most_text};
ghost use Rattle.pa_script.specs.Words.{AreShort};
ghost use Rattle.pa_row.specs.Steps.{IsLimit};
ghost use Rattle.pa_script.specs.Ops.{IsWellFormedOp};
ghost use Rattle.pa_script.specs.Lines as spec;

use crate::names::{different, read_name, read_names};
use crate::points::{all_have_equals, name_parts, read_point};
use crate::values::limit_in;
use crate::words::{split_word, words_of};
use crate::{LineKind, Linear, Op, ScriptFault};
use pa_grammar::{TermFault, read_plain};
use pa_names::Name;
use std::alloc::Global;

// How many bytes a line, and how many parts a composition, has at most.
const MOST_LINE: usize = 4096;

const MOST_PARTS: usize = 32;

// The number that a limit line sets.
fn read_limit(number: u32, word: &[u8]) -> Result<u32, ScriptFault>
    ensures answer { IsAnswer ScriptFault.Memory (spec.limit_at number word.now) result }
    ensures within { IfOk result IsLimit }
{
    match limit_in(word) {
        Some(most) => Ok(most),
        None => Err(ScriptFault::Line {
            number,
            kind: LineKind::Number,
        }),
    }
}

// `rows N` or `pivots N`.
fn limit_op(number: u32, text: &[u8]) -> Result<Op, ScriptFault>
    ensures answer { IsAnswer ScriptFault.Memory (spec.limit_op number text.now) result }
    ensures well_formed { IfOk result IsWellFormedOp }
{
    let shape = ScriptFault::Line {
        number,
        kind: LineKind::Shape,
    };
    let (of, rest) = split_word(text);
    let (word, rest) = split_word(rest);
    if word.is_empty() || !split_word(rest).0.is_empty() {
        return Err(shape);
    }
    if of == b"rows".as_slice() {
        let most = read_limit(number, word)?;
        return Ok(Op::LimitRows { most });
    }
    if of == b"pivots".as_slice() {
        let most = read_limit(number, word)?;
        return Ok(Op::LimitPivots { most });
    }
    Err(shape)
}

// Two words that are names.
fn two_names(
    alloc: Global,
    number: u32,
    left: &[u8],
    right: &[u8],
) -> Result<(Name, Name), ScriptFault>
    ensures { IsAnswer ScriptFault.Memory (spec.two_names number left.now right.now) result }
{
    let left = read_name(alloc, number, left)?;
    let right = read_name(alloc, number, right)?;
    Ok((left, right))
}

// Three words that are names.
fn names_of(
    alloc: Global,
    number: u32,
    name: &[u8],
    left: &[u8],
    right: &[u8],
) -> Result<(Name, Name, Name), ScriptFault>
    ensures { IsAnswer ScriptFault.Memory (spec.names_of number name.now left.now right.now) result }
{
    let name = read_name(alloc, number, name)?;
    let left = read_name(alloc, number, left)?;
    let right = read_name(alloc, number, right)?;
    Ok((name, left, right))
}

// Whether a text is two words.
fn is_pair(text: &[u8]) -> bool
    ensures { result ≡ spec.is_pair text.now }
{
    let (right, rest) = split_word(split_word(text).1);
    !right.is_empty() && split_word(rest).0.is_empty()
}

// `A B` behind `R =`, of three names.
#[tactic(auto, using(crate::proofs::Turns::tested))]
fn pair_named(
    alloc: Global,
    number: u32,
    name: &[u8],
    text: &[u8],
) -> Result<(Name, Name, Name), ScriptFault>
    ensures { IsAnswer ScriptFault.Memory (spec.pair_named number name.now text.now) result }
{
    if !is_pair(text) {
        return Err(ScriptFault::Line {
            number,
            kind: LineKind::Shape,
        });
    }
    let (left, rest) = split_word(text);
    let right = split_word(rest).0;
    names_of(alloc, number, name, left, right)
}

// `R = A B`, of three names.
fn three_names(alloc: Global, number: u32, text: &[u8]) -> Result<(Name, Name, Name), ScriptFault>
    ensures { IsAnswer ScriptFault.Memory (spec.three_names number text.now) result }
{
    let (name, rest) = split_word(text);
    let (equals, rest) = split_word(rest);
    if equals != b"=".as_slice() {
        return Err(ScriptFault::Line {
            number,
            kind: LineKind::Shape,
        });
    }
    pair_named(alloc, number, name, rest)
}

// `A B`.
fn refine_op(alloc: Global, number: u32, text: &[u8]) -> Result<Op, ScriptFault>
    ensures answer { IsAnswer ScriptFault.Memory (spec.refine_op number text.now) result }
    ensures well_formed { IfOk result IsWellFormedOp }
{
    let (left, rest) = split_word(text);
    let (right, rest) = split_word(rest);
    if right.is_empty() || !split_word(rest).0.is_empty() {
        return Err(ScriptFault::Line {
            number,
            kind: LineKind::Shape,
        });
    }
    let (left, right) = two_names(alloc, number, left, right)?;
    Ok(Op::Refine { left, right })
}

// `x=V ..` behind `C at`.
fn test_words(alloc: Global, number: u32, of: &[u8], words: &[&[u8]]) -> Result<Op, ScriptFault>
    requires { AreShort (map (λ word. word.now) words.now) }
    ensures answer { IsAnswer ScriptFault.Memory (spec.test_words number of.now (map (λ word. word.now) words.now)) result }
    ensures well_formed { IfOk result IsWellFormedOp }
{
    if !all_have_equals(words) {
        return Err(ScriptFault::Line {
            number,
            kind: LineKind::Shape,
        });
    }
    let of = read_name(alloc, number, of)?;
    let parts = name_parts(alloc, words)?;
    let names = read_names(alloc, number, &parts)?;
    let at = read_point(alloc, number, words)?;
    let names = different(alloc, number, names)?;
    Ok(Op::Test { of, names, at })
}

// `C at x=V ..`.
fn test_op(alloc: Global, number: u32, text: &[u8]) -> Result<Op, ScriptFault>
    requires { length text.now ≤ most_text }
    ensures answer { IsAnswer ScriptFault.Memory (spec.test_op number text.now) result }
    ensures well_formed { IfOk result IsWellFormedOp }
{
    let (of, rest) = split_word(text);
    let (at, rest) = split_word(rest);
    if at != b"at".as_slice() {
        return Err(ScriptFault::Line {
            number,
            kind: LineKind::Shape,
        });
    }
    let words = words_of(alloc, rest)?;
    test_words(alloc, number, of, &words)
}

// The goal that a text is.
fn read_goal(alloc: Global, number: u32, text: &[u8]) -> Result<Linear, ScriptFault>
    requires { length text.now ≤ most_text }
    ensures { IsAnswer ScriptFault.Memory (spec.goal_at number text.now) result }
{
    match read_plain(alloc, text) {
        Ok(goal) => Ok(goal),
        Err(TermFault::Memory) => Err(ScriptFault::Memory),
        Err(_) => Err(ScriptFault::Line {
            number,
            kind: LineKind::Number,
        }),
    }
}

// The bound of a goal over the contract of a name.
fn goal_of(
    alloc: Global,
    number: u32,
    of: &[u8],
    least: bool,
    text: &[u8],
) -> Result<Op, ScriptFault>
    requires { length text.now ≤ most_text }
    ensures answer { IsAnswer ScriptFault.Memory (spec.goal_of number of.now least text.now) result }
    ensures well_formed { IfOk result IsWellFormedOp }
{
    let of = read_name(alloc, number, of)?;
    let goal = read_goal(alloc, number, text)?;
    // A list tells that its names are distinct where it is read.
    let _count = goal.names.len();
    Ok(Op::Bound { of, least, goal })
}

// `E` behind `C max` or `C min`.
fn bound_of(
    alloc: Global,
    number: u32,
    of: &[u8],
    least: bool,
    text: &[u8],
) -> Result<Op, ScriptFault>
    requires { length text.now ≤ most_text }
    ensures answer { IsAnswer ScriptFault.Memory (spec.bound_of number of.now least text.now) result }
    ensures well_formed { IfOk result IsWellFormedOp }
{
    if split_word(text).0.is_empty() {
        return Err(ScriptFault::Line {
            number,
            kind: LineKind::Shape,
        });
    }
    goal_of(alloc, number, of, least, text)
}

// `C max E` or `C min E`.
fn bound_op(alloc: Global, number: u32, text: &[u8]) -> Result<Op, ScriptFault>
    requires { length text.now ≤ most_text }
    ensures answer { IsAnswer ScriptFault.Memory (spec.bound_op number text.now) result }
    ensures well_formed { IfOk result IsWellFormedOp }
{
    let (of, rest) = split_word(text);
    let (way, rest) = split_word(rest);
    if way == b"max".as_slice() {
        return bound_of(alloc, number, of, false, rest);
    }
    if way == b"min".as_slice() {
        return bound_of(alloc, number, of, true, rest);
    }
    Err(ScriptFault::Line {
        number,
        kind: LineKind::Shape,
    })
}

// `x ..` behind `R = C`.
fn hide_words(
    alloc: Global,
    number: u32,
    name: &[u8],
    of: &[u8],
    words: &[&[u8]],
) -> Result<Op, ScriptFault>
    ensures answer { IsAnswer ScriptFault.Memory (spec.hide_words number name.now of.now (map (λ word. word.now) words.now)) result }
    ensures well_formed { IfOk result IsWellFormedOp }
{
    if words.is_empty() {
        return Err(ScriptFault::Line {
            number,
            kind: LineKind::Shape,
        });
    }
    let result = read_name(alloc, number, name)?;
    let of = read_name(alloc, number, of)?;
    let names = read_names(alloc, number, words)?;
    let names = different(alloc, number, names)?;
    Ok(Op::Hide { result, of, names })
}

// `R = C x ..`.
fn hide_op(alloc: Global, number: u32, text: &[u8]) -> Result<Op, ScriptFault>
    requires { length text.now ≤ most_text }
    ensures answer { IsAnswer ScriptFault.Memory (spec.hide_op number text.now) result }
    ensures well_formed { IfOk result IsWellFormedOp }
{
    let (name, rest) = split_word(text);
    let (equals, rest) = split_word(rest);
    if equals != b"=".as_slice() {
        return Err(ScriptFault::Line {
            number,
            kind: LineKind::Shape,
        });
    }
    let (of, rest) = split_word(rest);
    let words = words_of(alloc, rest)?;
    hide_words(alloc, number, name, of, &words)
}

// How many words stand before the first `keep`.
fn parts_count(words: &[&[u8]]) -> usize
    ensures value { result ≡ spec.parts_count (map (λ word. word.now) words.now) }
    ensures bound { result ≤ length words.now }
{
    words
        .iter()
        .take_while(|word| **word != b"keep".as_slice())
        .count()
}

// The words behind the first `keep`.
fn kept_words<'a, 'b>(words: &'b [&'a [u8]], count: usize) -> &'b [&'a [u8]]
    requires { count ≤ length words.now }
    ensures { map (λ word. word.now) result.now ≡ drop (count + 1) (map (λ word. word.now) words.now) }
{
    if count == words.len() {
        return &words[count..];
    }
    &words[count + 1..]
}

// The composition of parts, where some outputs are kept.
fn composed(
    alloc: Global,
    number: u32,
    name: &[u8],
    parts: &[&[u8]],
    keep: &[&[u8]],
) -> Result<Op, ScriptFault>
    requires some { 1 ≤ length parts.now }
    requires few { length parts.now ≤ MOST_PARTS }
    ensures answer { IsAnswer ScriptFault.Memory
        (spec.composed number name.now (map (λ word. word.now) parts.now) (map (λ word. word.now) keep.now)) result }
    ensures well_formed { IfOk result IsWellFormedOp }
{
    let result = read_name(alloc, number, name)?;
    let parts = read_names(alloc, number, parts)?;
    let keep = read_names(alloc, number, keep)?;
    let keep = different(alloc, number, keep)?;
    Ok(Op::Compose {
        result,
        parts,
        keep,
    })
}

// The first words.
#[tactic(auto, using(crate::proofs::Mapped::front_mapped))]
fn part_words<'a, 'b>(words: &'b [&'a [u8]], count: usize) -> &'b [&'a [u8]]
    requires { count ≤ length words.now }
    ensures words { map (λ word. word.now) result.now ≡ take count (map (λ word. word.now) words.now) }
    ensures count { length result.now ≡ count }
{
    &words[..count]
}

// `A ..` and then `keep x ..`, behind `R =`.
fn compose_words(
    alloc: Global,
    number: u32,
    name: &[u8],
    words: &[&[u8]],
) -> Result<Op, ScriptFault>
    ensures answer { IsAnswer ScriptFault.Memory (spec.compose_words number name.now (map (λ word. word.now) words.now)) result }
    ensures well_formed { IfOk result IsWellFormedOp }
{
    let count = parts_count(words);
    if count > MOST_PARTS {
        return Err(ScriptFault::Line {
            number,
            kind: LineKind::Limit,
        });
    }
    if count == 0 || words.len() == count + 1 {
        return Err(ScriptFault::Line {
            number,
            kind: LineKind::Shape,
        });
    }
    let parts = part_words(words, count);
    let keep = kept_words(words, count);
    composed(alloc, number, name, parts, keep)
}

// `R = A .. keep x ..`.
fn compose_op(alloc: Global, number: u32, text: &[u8]) -> Result<Op, ScriptFault>
    requires { length text.now ≤ most_text }
    ensures answer { IsAnswer ScriptFault.Memory (spec.compose_op number text.now) result }
    ensures well_formed { IfOk result IsWellFormedOp }
{
    let (name, rest) = split_word(text);
    let (equals, rest) = split_word(rest);
    if equals != b"=".as_slice() {
        return Err(ScriptFault::Line {
            number,
            kind: LineKind::Shape,
        });
    }
    let words = words_of(alloc, rest)?;
    compose_words(alloc, number, name, &words)
}

fn merge_op(alloc: Global, number: u32, text: &[u8]) -> Result<Op, ScriptFault>
    ensures answer { IsAnswer ScriptFault.Memory (spec.merge_op number text.now) result }
    ensures well_formed { IfOk result IsWellFormedOp }
{
    let (name, left, right) = three_names(alloc, number, text)?;
    Ok(Op::Merge {
        result: name,
        left,
        right,
    })
}

fn quotient_op(alloc: Global, number: u32, text: &[u8]) -> Result<Op, ScriptFault>
    ensures answer { IsAnswer ScriptFault.Memory (spec.quotient_op number text.now) result }
    ensures well_formed { IfOk result IsWellFormedOp }
{
    let (name, whole, part) = three_names(alloc, number, text)?;
    Ok(Op::Quotient {
        result: name,
        whole,
        part,
    })
}

// The operation of a verb, with the rest of its line.
fn op_named(alloc: Global, number: u32, verb: &[u8], text: &[u8]) -> Result<Op, ScriptFault>
    requires { length text.now ≤ most_text }
    ensures answer { IsAnswer ScriptFault.Memory (spec.op_named number verb.now text.now) result }
    ensures well_formed { IfOk result IsWellFormedOp }
{
    if verb == b"limit".as_slice() {
        return limit_op(number, text);
    }
    if verb == b"merge".as_slice() {
        return merge_op(alloc, number, text);
    }
    if verb == b"test".as_slice() {
        return test_op(alloc, number, text);
    }
    if verb == b"refine".as_slice() {
        return refine_op(alloc, number, text);
    }
    later_op(alloc, number, verb, text)
}

// The operation of one of the other verbs.
fn later_op(alloc: Global, number: u32, verb: &[u8], text: &[u8]) -> Result<Op, ScriptFault>
    requires { length text.now ≤ most_text }
    ensures answer { IsAnswer ScriptFault.Memory (spec.later_op number verb.now text.now) result }
    ensures well_formed { IfOk result IsWellFormedOp }
{
    if verb == b"bound".as_slice() {
        return bound_op(alloc, number, text);
    }
    if verb == b"hide".as_slice() {
        return hide_op(alloc, number, text);
    }
    if verb == b"compose".as_slice() {
        return compose_op(alloc, number, text);
    }
    if verb == b"quotient".as_slice() {
        return quotient_op(alloc, number, text);
    }
    Err(ScriptFault::Line {
        number,
        kind: LineKind::Word,
    })
}

/// The operation that a line asks for.
pub(crate) fn read_op(alloc: Global, number: u32, line: &[u8]) -> Result<Op, ScriptFault>
    ensures answer { IsAnswer ScriptFault.Memory (spec.op_of number line.now) result }
    ensures well_formed { IfOk result IsWellFormedOp }
{
    if line.len() > MOST_LINE {
        return Err(ScriptFault::Line {
            number,
            kind: LineKind::Limit,
        });
    }
    let (verb, text) = split_word(line);
    op_named(alloc, number, verb, text)
}
