// The points of tests.
ghost use Rattle.std.specs.Prelude.{◌≡◌, ◌≤◌, ◌+◌, IfOk, Ok, map, length, drop, pos, ◌<ℤ◌};
ghost use Rattle.std.specs.List.{list_all, prefix_len};
ghost use Rattle.pa_math.specs.Answers.{IsAnswer};
ghost use Rattle.pa_grammar.specs.Lexer.{most_text};
ghost use Rattle.pa_row.specs.Fractions.{IsFraction};
ghost use Rattle.pa_script.specs.Words.{AreShort};
ghost use Rattle.pa_script.specs.Points as spec;

use crate::{LineKind, ScriptFault};
use pa_grammar::{TermFault, read_value};
use pa_row::{Point, RowFault, point_of};
use std::alloc::{AllocError, Global};
use std::marker::Model;

// How many bytes stand before the first `=`.
fn name_len(word: &[u8]) -> usize
    ensures value { result ≡ prefix_len spec.is_before_equals word.now }
    ensures bound { result ≤ length word.now }
{
    word.iter().take_while(|byte| **byte != b'=').count()
}

fn has_equals(word: &[u8]) -> bool
    ensures { result ≡ spec.has_equals word.now }
{
    name_len(word) < word.len()
}

fn name_part(word: &[u8]) -> &[u8]
    ensures { result.now ≡ spec.name_part word.now }
{
    &word[..name_len(word)]
}

// What follows the first byte.
fn behind_first(text: &[u8]) -> &[u8]
    ensures { result.now ≡ drop 1 text.now }
{
    match text {
        [_, rest @ ..] => rest,
        [] => text,
    }
}

// What stands behind the first `=`.
fn value_part(word: &[u8]) -> &[u8]
    ensures value { result.now ≡ spec.value_part word.now }
    ensures shorter { length result.now ≤ length word.now }
{
    behind_first(&word[name_len(word)..])
}

/// Whether each word has an `=` in it.
pub(crate) fn all_have_equals(words: &[&[u8]]) -> bool
    ensures { result ≡ list_all spec.has_equals (map (λ word. word.now) words.now) }
{
    words.iter().all(|word| has_equals(word))
}

/// The parts before the first `=` of each word.
pub(crate) fn name_parts<'a>(alloc: Global, words: &[&'a [u8]]) -> Result<Vec<&'a [u8]>, AllocError>
    ensures parts { IfOk result (λ names. map (λ name. name.now) names.items ≡ map spec.name_part (map (λ word. word.now) words.now)) }
    ensures count { IfOk result (λ names. length names.items ≡ length words.now) }
{
    words.iter().map(|word| name_part(word)).collect(alloc)
}

// The fractions of values, in lowest terms and within 126 bits.
#[derive(Drop)]
struct Fractions {
    parts: Vec<(i128, i128)>,
}

impl Model for Fractions {
    ghost use Rattle.std.specs.Prelude.{List, ℤ, All};
    ghost use Rattle.pa_row.specs.Fractions.{IsFraction};

    ghost Value = { List (ℤ × ℤ) };

    ghost view = { λ f. f.parts.items };

    ghost invariant = { λ f. All IsFraction f.parts.items };
}

// The fraction of the value behind the `=` of a word.
fn read_fraction(alloc: Global, number: u32, word: &[u8]) -> Result<(i128, i128), ScriptFault>
    requires { length word.now ≤ most_text }
    ensures answer { IsAnswer ScriptFault.Memory (spec.fraction_at number word.now) result }
    ensures within { IfOk result IsFraction }
{
    match read_value(alloc, value_part(word)) {
        Ok(fraction) => Ok(fraction),
        Err(TermFault::Memory) => Err(ScriptFault::Memory),
        Err(_) => Err(ScriptFault::Line {
            number,
            kind: LineKind::Number,
        }),
    }
}

// The fractions with that of one more word.
fn with_fraction(
    alloc: Global,
    number: u32,
    fractions: Fractions,
    word: &[u8],
) -> Result<Fractions, ScriptFault>
    requires { length word.now ≤ most_text }
    ensures answer { IsAnswer ScriptFault.Memory (spec.with_fraction number fractions word.now) result }
    ensures count { IfOk result (λ more. length more ≡ length fractions + 1) }
{
    let Fractions { mut parts } = fractions;
    let part = read_fraction(alloc, number, word)?;
    if parts.push(part).is_err() {
        return Err(ScriptFault::Memory);
    }
    Ok(Fractions { parts })
}

// The fractions of the values of the words.
fn read_fractions(alloc: Global, number: u32, words: &[&[u8]]) -> Result<Fractions, ScriptFault>
    requires { AreShort (map (λ word. word.now) words.now) }
    ensures answer { IsAnswer ScriptFault.Memory (spec.fractions_at number (map (λ word. word.now) words.now)) result }
    ensures count { IfOk result (λ fractions. length fractions ≡ length words.now) }
{
    let mut fractions = Fractions {
        parts: Vec::new(alloc),
    };
    for word in words {
        match with_fraction(alloc, number, fractions, word) {
            Ok(more) => fractions = more,
            Err(fault) => return Err(fault),
        }
    }
    Ok(fractions)
}

// The point of fractions, over their least common denominator.
fn common_point(alloc: Global, number: u32, fractions: Fractions) -> Result<Point, ScriptFault>
    ensures answer { IsAnswer ScriptFault.Memory (spec.common_point number fractions) result }
    ensures columns { IfOk result (λ at. length at.p ≡ length fractions) }
    ensures positive { IfOk result (λ at. pos 0 <ℤ at.q) }
{
    match point_of(alloc, &fractions.parts) {
        Ok(point) => Ok(point),
        Err(RowFault::Memory) => Err(ScriptFault::Memory),
        Err(RowFault::Wide) => Err(ScriptFault::Line {
            number,
            kind: LineKind::Number,
        }),
    }
}

/// The point of the values of the words.
pub(crate) fn read_point(alloc: Global, number: u32, words: &[&[u8]]) -> Result<Point, ScriptFault>
    requires { AreShort (map (λ word. word.now) words.now) }
    ensures answer { IsAnswer ScriptFault.Memory (spec.point_at number (map (λ word. word.now) words.now)) result }
    ensures columns { IfOk result (λ at. length at.p ≡ length words.now) }
    ensures positive { IfOk result (λ at. pos 0 <ℤ at.q) }
{
    let fractions = read_fractions(alloc, number, words)?;
    common_point(alloc, number, fractions)
}
