// The sides of a term, from its pieces.
ghost use Rattle.std.specs.Prelude.{◌≡◌, ◌∷◌, map, Ok};
ghost use Rattle.pa_math.specs.Answers.{IsAnswer, and_then, seen_as, told_as};
ghost use Rattle.pa_row.specs.Answers.{as_fault};
ghost use Rattle.pa_grammar.specs.Seen.{fraction, seen_side, seen_sum};
ghost use Rattle.pa_grammar.specs.Limits.{HasValue, AllHaveValues};
ghost use Rattle.pa_grammar.specs.Pieces as spec;
ghost use Rattle.pa_grammar.specs.Values.{changed_at, combined, with_vector};

use crate::columns::{change_at, combine_scaled};
use crate::machine::Piece;
use crate::token::Sign;
use crate::values::{factor_of, scale_of, signed, zero};
use pa_frac::Wide126;
use pa_row::RowFault;
use std::alloc::{AllocError, Global};

/// A bar pair: its signed factor, and the vector between its bars.
#[derive(Drop)]
pub struct Pair {
    pub weight: Wide126,
    pub inner: Vec<Wide126>,
}

/// A side of a comparison: its vector, which has a fraction for each name and the constant last, and
/// its bar pairs in order.
#[derive(Drop)]
pub struct Side {
    pub vector: Vec<Wide126>,
    pub pairs: Vec<Pair>,
}

// A side that waits for a bracket or a bar pair to close, and what of it is added then.
#[derive(Drop)]
struct Frame {
    side: Side,
    sign: Sign,
    scale: Wide126,
}

// The side in hand, those that wait, the innermost last, and those that are whole.
#[derive(Drop)]
struct Sum {
    side: Side,
    frames: Vec<Frame>,
    sides: Vec<Side>,
}

// A bracket or a bar pair opens: the side in hand waits.
fn opened(sum: Sum, inner: Side, sign: Sign, scale: Wide126) -> Result<Sum, RowFault>
    ensures { IsAnswer RowFault.Memory (Ok (spec.sum_with (seen_side inner) (record { side = seen_side sum.side; sign = sign; scale = fraction scale } ∷ (seen_sum sum).frames) (seen_sum sum).sides)) (seen_as seen_sum result) }
{
    let Sum {
        side,
        mut frames,
        sides,
    } = sum;
    let Ok(()) = frames.push(Frame { side, sign, scale }) else {
        return Err(RowFault::Memory);
    };
    Ok(Sum {
        side: inner,
        frames,
        sides,
    })
}

// A bracket closes.
fn closed(sum: Sum) -> Result<Sum, RowFault>
    ensures { IsAnswer RowFault.Memory (told_as as_fault (spec.closed_in (seen_side sum.side) (seen_sum sum).frames (seen_sum sum).sides)) (seen_as seen_sum result) }
{
    let Sum {
        side,
        mut frames,
        sides,
    } = sum;
    let Some(frame) = frames.pop() else {
        return Ok(Sum {
            side,
            frames,
            sides,
        });
    };
    let mut outer = frame.side;
    let Ok(()) = combine_scaled(&mut outer.vector, frame.sign, frame.scale, &side.vector) else {
        return Err(RowFault::Wide);
    };
    Ok(Sum {
        side: outer,
        frames,
        sides,
    })
}

// A bar pair closes: it is kept aside.
fn bar_closed(sum: Sum) -> Result<Sum, RowFault>
    ensures { IsAnswer RowFault.Memory (told_as as_fault (spec.bar_closed_in (seen_side sum.side) (seen_sum sum).frames (seen_sum sum).sides)) (seen_as seen_sum result) }
{
    let Sum {
        side,
        mut frames,
        sides,
    } = sum;
    let Some(frame) = frames.pop() else {
        return Ok(Sum {
            side,
            frames,
            sides,
        });
    };
    let mut outer = frame.side;
    let pair = Pair {
        weight: signed(frame.sign, frame.scale),
        inner: side.vector,
    };
    let Ok(()) = outer.pairs.push(pair) else {
        return Err(RowFault::Memory);
    };
    Ok(Sum {
        side: outer,
        frames,
        sides,
    })
}

// A relation: the side in hand is whole.
fn related(sum: Sum, next: Side) -> Result<Sum, RowFault>
    ensures { IsAnswer RowFault.Memory (Ok (spec.sum_with (seen_side next) (seen_sum sum).frames (spec.all_sides (seen_sum sum)))) (seen_as seen_sum result) }
{
    let Sum {
        side,
        frames,
        mut sides,
    } = sum;
    let Ok(()) = sides.push(side) else {
        return Err(RowFault::Memory);
    };
    Ok(Sum {
        side: next,
        frames,
        sides,
    })
}

// A side without items, over so many names.
fn empty_side(alloc: Global, names: u32) -> Result<Side, RowFault>
    ensures { IsAnswer RowFault.Memory (Ok (spec.empty_side names)) (seen_as seen_side result) }
{
    match Vec::from_elem(alloc, zero(), names as usize + 1) {
        Ok(vector) => Ok(Side {
            vector,
            pairs: Vec::new(alloc),
        }),
        Err(AllocError) => Err(RowFault::Memory),
    }
}

// An item without a bracket changes one column of the side in hand.
fn changed(sum: Sum, place: usize, sign: Sign, amount: Wide126) -> Result<Sum, RowFault>
    ensures { IsAnswer RowFault.Memory
        (told_as as_fault (and_then (changed_at place (λ q. combined sign q (fraction amount)) (seen_side sum.side).vector)
        (λ v. Ok (spec.sum_with (with_vector (seen_side sum.side) v) (seen_sum sum).frames (seen_sum sum).sides))))
        (seen_as seen_sum result) }
{
    let mut sum = sum;
    let Ok(()) = change_at(&mut sum.side.vector, place, sign, amount) else {
        return Err(RowFault::Wide);
    };
    Ok(sum)
}

// The next piece is taken in.
fn piece_in(alloc: Global, names: u32, sum: Sum, piece: Piece) -> Result<Sum, RowFault>
    requires { HasValue piece }
    ensures { IsAnswer RowFault.Memory (told_as as_fault (spec.piece_in names piece (seen_side sum.side) (seen_sum sum).frames (seen_sum sum).sides)) (seen_as seen_sum result) }
{
    match piece {
        Piece::Constant(sign, factor) => changed(sum, names as usize, sign, factor_of(factor)),
        Piece::Variable(sign, factor, place) => match place {
            Some(place) => changed(sum, place as usize, sign, scale_of(factor)),
            None => Ok(sum),
        },
        Piece::Opening(sign, factor) | Piece::OpeningBar(sign, factor) => {
            opened(sum, empty_side(alloc, names)?, sign, scale_of(factor))
        }
        Piece::Closing => closed(sum),
        Piece::ClosingBar => bar_closed(sum),
        Piece::Relating(_) => related(sum, empty_side(alloc, names)?),
    }
}

// Nothing is read yet.
fn nothing(alloc: Global, names: u32) -> Result<Sum, RowFault>
    ensures { IsAnswer RowFault.Memory (Ok (spec.nothing names)) (seen_as seen_sum result) }
{
    Ok(Sum {
        side: empty_side(alloc, names)?,
        frames: Vec::new(alloc),
        sides: Vec::new(alloc),
    })
}

// The sum of pieces.
fn summed(alloc: Global, names: u32, pieces: &[Piece]) -> Result<Sum, RowFault>
    requires { AllHaveValues pieces.now }
    ensures { IsAnswer RowFault.Memory (told_as as_fault (spec.summed names pieces.now (spec.nothing names))) (seen_as seen_sum result) }
{
    let mut sum = nothing(alloc, names)?;
    for piece in pieces {
        sum = piece_in(alloc, names, sum, *piece)?;
    }
    Ok(sum)
}

// The vector of a plain, from its pieces.
pub(crate) fn vector_of(
    alloc: Global,
    names: u32,
    pieces: &[Piece],
) -> Result<Vec<Wide126>, RowFault>
    requires { AllHaveValues pieces.now }
    ensures { IsAnswer RowFault.Memory (told_as as_fault (spec.vector_in names pieces.now)) (seen_as (λ v. map fraction v.items) result) }
{
    let sum = summed(alloc, names, pieces)?;
    Ok(sum.side.vector)
}

/// The sides of a term, from its pieces. Each side's vector has one more column than there are names.
///
/// `Wide` says that a number passes 126 bits.
pub fn sides_of(alloc: Global, names: u32, pieces: &[Piece]) -> Result<Vec<Side>, RowFault>
    requires { AllHaveValues pieces.now }
    ensures { IsAnswer RowFault.Memory (told_as as_fault (spec.sides_in names pieces.now)) (seen_as (λ v. map seen_side v.items) result) }
{
    let sum = summed(alloc, names, pieces)?;
    let mut sides = sum.sides;
    match sides.push(sum.side) {
        Ok(()) => Ok(sides),
        Err(_) => Err(RowFault::Memory),
    }
}
