// The first bar pair whose weight makes a comparison not linear, and the rows where there is none.
ghost use Rattle.std.specs.Prelude.{◌≡◌, true, Some, slice_get};
ghost use Rattle.pa_math.specs.Answers.{IsAnswer, seen_as};
ghost use Rattle.pa_grammar.specs.Chosen.{relation_in};
ghost use Rattle.pa_grammar.specs.Faults as spec;
ghost use Rattle.pa_grammar.specs.Faults.{openings, first_true, piece_faults};
ghost use Rattle.pa_grammar.specs.Parsed.{IsTermWith, tokens_in};
ghost use Rattle.pa_grammar.specs.Limits.{AllHaveValues};
ghost use Rattle.pa_grammar.specs.Seen.{fraction};
ghost use Rattle.pa_grammar.specs.Texts.{rows_answer};
ghost use Rattle.pa_grammar.specs.Values.{is_below as is_below_at};

use crate::fault::TermFault;
use crate::machine::Piece;
use crate::rows::rows_in_pieces;
use crate::token::{Placed, Relation, Token};
use crate::values::{scale_of, signed};
use pa_frac::{Fraction, Wide126};
use pa_row::{Row, RowFault};
use std::alloc::Global;

// The relation of a term's pieces.
pub(crate) fn relation_of(pieces: &[Piece]) -> Relation
    ensures { result ≡ relation_in pieces.now }
{
    for piece in pieces {
        if let Piece::Relating(relation) = piece {
            return *relation;
        }
    }
    Relation::AtMost
}

// Whether a relation comes.
fn has_relation(pieces: &[Piece]) -> bool
    ensures { result ≡ spec.has_relation pieces.now }
{
    for piece in pieces {
        if let Piece::Relating(_) = piece {
            return true;
        }
    }
    false
}

// Whether a weight is negative.
fn is_below(weight: Wide126) -> bool
    ensures { result ≡ is_below_at (fraction weight) }
{
    weight.num() < 0
}

// Whether a bar pair of this weight is faulty, with a comparison before its side or behind it.
fn pair_fault(relation: Relation, before: bool, behind: bool, weight: Wide126) -> bool
    ensures { result ≡ spec.pair_fault relation before behind (fraction weight) }
{
    let below = is_below(weight);
    let above = is_below(weight.neg());
    match relation {
        Relation::AtMost => behind && below || before && above,
        Relation::AtLeast => before && below || behind && above,
        Relation::Equal => true,
    }
}

// Which bar pair is the first faulty one.
fn first_fault(pieces: &[Piece]) -> Option<usize>
    requires { AllHaveValues pieces.now }
    ensures { result ≡ first_true (piece_faults pieces.now) }
{
    let relation = relation_of(pieces);
    let mut before = false;
    let mut pair = 0;
    for i in 0..pieces.len() {
        match pieces[i] {
            Piece::Relating(_) => before = true,
            Piece::OpeningBar(sign, factor) => {
                let behind = has_relation(&pieces[i..]);
                if pair_fault(relation, before, behind, signed(sign, scale_of(factor))) {
                    return Some(pair);
                }
                pair += 1;
            }
            _ => {}
        }
    }
    None
}

fn is_bar(token: Token) -> bool
    ensures { result ≡ spec.is_bar token }
{
    matches!(token, Token::Bar)
}

// The byte of an opening bar, counted from 0. Bars open and close in turn.
fn pair_place(tokens: &[Placed], pair: usize) -> Option<u32>
    ensures { result ≡ slice_get (openings true tokens.now) pair }
{
    let mut opens = true;
    let mut left = pair;
    for placed in tokens {
        if is_bar(placed.token) {
            if opens {
                if left == 0 {
                    return Some(placed.at);
                }
                left -= 1;
            }
            opens = !opens;
        }
    }
    None
}

// The byte where a faulty bar pair opens.
fn fault_place(tokens: &[Placed], pieces: &[Piece], pair: usize) -> u32
    requires term { IsTermWith (tokens_in tokens.now) pieces.now }
    requires first { first_true (piece_faults pieces.now) ≡ Some pair }
    ensures { slice_get (openings true tokens.now) pair ≡ Some result }
{
    let Some(at) = pair_place(tokens, pair) else {
        unreachable!();
    };
    at
}

// The rows of a term's pieces over so many names, or where its first faulty bar pair opens.
pub(crate) fn checked_rows(
    alloc: Global,
    names: u32,
    tokens: &[Placed],
    pieces: &[Piece],
) -> Result<Vec<Row>, TermFault>
    requires values { AllHaveValues pieces.now }
    requires term { IsTermWith (tokens_in tokens.now) pieces.now }
    ensures { IsAnswer TermFault.Memory (rows_answer names tokens.now pieces.now) (seen_as (λ v. v.items) result) }
{
    if let Some(pair) = first_fault(pieces) {
        let at = fault_place(tokens, pieces, pair);
        return Err(TermFault::NotLinear { at });
    }
    match rows_in_pieces(alloc, names, pieces) {
        Ok(rows) => Ok(rows),
        Err(RowFault::Memory) => Err(TermFault::Memory),
        Err(RowFault::Wide) => Err(TermFault::Wide),
    }
}
