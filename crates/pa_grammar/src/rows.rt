// The rows of a term, from its sides.
ghost use Rattle.std.specs.Prelude.{◌≡◌, ◌++◌, [], map, pos, All, IfOk, IfSome};
ghost use Rattle.pa_math.specs.Answers.{IsAnswer, seen_as, told_as};
ghost use Rattle.pa_meaning.specs.Rows.{primitive};
ghost use Rattle.pa_row.specs.Answers.{as_fault};
ghost use Rattle.pa_row.specs.Width.{Fits};
ghost use Rattle.pa_grammar.specs.Chosen.{added_to, chosen as chosen_in, chosen_rows, chain_of, compared, gives, related_rows, rows_in};
ghost use Rattle.pa_grammar.specs.Limits.{AllHaveValues};
ghost use Rattle.pa_grammar.specs.Seen.{fraction as fraction_of, seen_pair, seen_side};
ghost use Rattle.pa_grammar.specs.Values as spec;

use crate::columns::{combine_all, combine_scaled};
use crate::linear::relation_of;
use crate::machine::Piece;
use crate::sums::{Pair, Side, sides_of};
use crate::token::{Relation, Sign};
use pa_frac::{Fraction, Wide126};
use pa_row::{Row, RowFault, point_of};
use std::alloc::{AllocError, Global};

// A fraction's numerator and denominator.
pub(crate) fn parts_in(fraction: Wide126) -> (i128, i128)
    ensures { result ≡ spec.parts_of (fraction_of fraction) }
{
    (fraction.num(), fraction.den())
}

// The numerators and denominators of fractions.
pub(crate) fn parts_of(alloc: Global, vector: &[Wide126]) -> Result<Vec<(i128, i128)>, AllocError>
    ensures { IfOk result (λ v. v.items ≡ map spec.parts_of (map fraction_of vector.now)) }
{
    let mut parts = Vec::with_capacity(alloc, vector.len())?;
    for fraction in vector {
        parts.push(parts_in(*fraction))?;
    }
    Ok(parts)
}

// The row of a vector's numbers, the constant last, made primitive.
fn row_with(numbers: Vec<i128>) -> Row
    requires { All Fits numbers.items }
    ensures { result ≡ primitive (spec.row_with numbers.items) }
{
    let mut c = numbers;
    let Some(constant) = c.pop() else {
        return Row { c, b: 0 };
    };
    let mut row = Row { c, b: -constant };
    row.primitive();
    row
}

// The numerators of whole numbers. `None` where a fraction has another denominator.
fn whole_numbers(alloc: Global, vector: &[Wide126]) -> Result<Option<Vec<i128>>, AllocError>
    ensures { IfOk result (λ numbers. IfSome numbers (λ list. map spec.parts_of (map fraction_of vector.now) ≡ map (λ n. (n, pos 1)) list.items)) }
{
    let mut numbers = Vec::with_capacity(alloc, vector.len())?;
    for fraction in vector {
        let (num, den) = parts_in(*fraction);
        if den != 1 {
            return Ok(None);
        }
        numbers.push(num)?;
    }
    Ok(Some(numbers))
}

// The row of a vector over the least common multiple of the denominators.
fn row_over(alloc: Global, vector: &[Wide126]) -> Result<Row, RowFault>
    ensures { IsAnswer RowFault.Memory (told_as as_fault (spec.row_of (map fraction_of vector.now))) result }
{
    let Ok(parts) = parts_of(alloc, vector) else {
        return Err(RowFault::Memory);
    };
    let point = point_of(alloc, &parts)?;
    Ok(row_with(point.p))
}

// The row that says that a vector is at most 0. Most vectors are whole numbers, which are the row's own.
fn row_of(alloc: Global, vector: &[Wide126]) -> Result<Row, RowFault>
    ensures { IsAnswer RowFault.Memory (told_as as_fault (spec.row_of (map fraction_of vector.now))) result }
{
    match whole_numbers(alloc, vector) {
        Ok(Some(numbers)) => Ok(row_with(numbers)),
        Ok(None) => row_over(alloc, vector),
        Err(AllocError) => Err(RowFault::Memory),
    }
}

// The vector plus or minus a bar pair.
fn chosen(
    alloc: Global,
    vector: &[Wide126],
    sign: Sign,
    weight: Wide126,
    inner: &[Wide126],
) -> Result<Vec<Wide126>, RowFault>
    ensures { IsAnswer RowFault.Memory (told_as as_fault (chosen_in sign (fraction_of weight) (map fraction_of inner.now) (map fraction_of vector.now))) (seen_as (λ v. map fraction_of v.items) result) }
{
    let Ok(mut sum) = Vec::from_slice(alloc, vector) else {
        return Err(RowFault::Memory);
    };
    match combine_scaled(&mut sum, sign, weight, inner) {
        Ok(()) => Ok(sum),
        Err(_) => Err(RowFault::Wide),
    }
}

// Puts the vector's row behind the others.
fn push_row(alloc: Global, rows: &mut Vec<Row>, vector: &[Wide126]) -> Result<(), RowFault>
    ensures { IsAnswer RowFault.Memory (told_as as_fault (added_to rows.old.items (chosen_rows [] (map fraction_of vector.now)))) (gives rows.new.items result) }
{
    let row = row_of(alloc, vector)?;
    match rows.push(row) {
        Ok(()) => Ok(()),
        Err(_) => Err(RowFault::Memory),
    }
}

// The rows for each choice of signs of bar pairs with the opposite of their weights. Plus comes before
// minus, and the first pair changes slowest.
fn push_turned(
    alloc: Global,
    rows: &mut Vec<Row>,
    vector: &[Wide126],
    pairs: &[Pair],
) -> Result<(), RowFault>
    ensures { IsAnswer RowFault.Memory (told_as as_fault (added_to rows.old.items (chosen_rows (map spec.turned (map seen_pair pairs.now)) (map fraction_of vector.now)))) (gives rows.new.items result) }
{
    let [pair, rest @ ..] = pairs else {
        return push_row(alloc, rows, vector);
    };
    let weight = pair.weight.neg();
    let above = chosen(alloc, vector, Sign::Plus, weight, &pair.inner)?;
    push_turned(alloc, rows, &above, rest)?;
    let below = chosen(alloc, vector, Sign::Minus, weight, &pair.inner)?;
    push_turned(alloc, rows, &below, rest)
}

// The rows for each choice of signs of the bar pairs of two sides, those of the right with the opposite
// of their weights.
fn push_choices(
    alloc: Global,
    rows: &mut Vec<Row>,
    vector: &[Wide126],
    left: &[Pair],
    right: &[Pair],
) -> Result<(), RowFault>
    ensures { IsAnswer RowFault.Memory (told_as as_fault (added_to rows.old.items (chosen_rows (map seen_pair left.now ++ map spec.turned (map seen_pair right.now)) (map fraction_of vector.now)))) (gives rows.new.items result) }
{
    let [pair, rest @ ..] = left else {
        return push_turned(alloc, rows, vector, right);
    };
    let above = chosen(alloc, vector, Sign::Plus, pair.weight, &pair.inner)?;
    push_choices(alloc, rows, &above, rest, right)?;
    let below = chosen(alloc, vector, Sign::Minus, pair.weight, &pair.inner)?;
    push_choices(alloc, rows, &below, rest, right)
}

// The columns of one side less those of the other.
fn difference(alloc: Global, left: &[Wide126], right: &[Wide126]) -> Result<Vec<Wide126>, RowFault>
    ensures { IsAnswer RowFault.Memory (told_as as_fault (spec.combined_all Sign.Minus (map fraction_of left.now) (map fraction_of right.now))) (seen_as (λ v. map fraction_of v.items) result) }
{
    let Ok(mut vector) = Vec::from_slice(alloc, left) else {
        return Err(RowFault::Memory);
    };
    match combine_all(&mut vector, Sign::Minus, right) {
        Ok(()) => Ok(vector),
        Err(_) => Err(RowFault::Wide),
    }
}

// The rows of `left <= right`.
fn push_comparison(
    alloc: Global,
    rows: &mut Vec<Row>,
    left: &Side,
    right: &Side,
) -> Result<(), RowFault>
    ensures { IsAnswer RowFault.Memory (told_as as_fault (added_to rows.old.items (compared (seen_side left.now) (seen_side right.now)))) (gives rows.new.items result) }
{
    let vector = difference(alloc, &left.vector, &right.vector)?;
    push_choices(alloc, rows, &vector, &left.pairs, &right.pairs)
}

// The rows of a comparison. An equation is two of them.
fn push_relation(
    alloc: Global,
    rows: &mut Vec<Row>,
    relation: Relation,
    left: &Side,
    right: &Side,
) -> Result<(), RowFault>
    ensures { IsAnswer RowFault.Memory (told_as as_fault (added_to rows.old.items (related_rows relation (seen_side left.now) (seen_side right.now)))) (gives rows.new.items result) }
{
    match relation {
        Relation::AtMost => push_comparison(alloc, rows, left, right),
        Relation::AtLeast => push_comparison(alloc, rows, right, left),
        Relation::Equal => {
            push_comparison(alloc, rows, left, right)?;
            push_comparison(alloc, rows, right, left)
        }
    }
}

// The rows of each side against the next one.
fn chain_rows(alloc: Global, relation: Relation, sides: &[Side]) -> Result<Vec<Row>, RowFault>
    ensures { IsAnswer RowFault.Memory (told_as as_fault (chain_of relation (map seen_side sides.now))) (seen_as (λ v. v.items) result) }
{
    let mut rows = Vec::new(alloc);
    let [first, others @ ..] = sides else {
        return Ok(rows);
    };
    let mut side = first;
    for next in others {
        push_relation(alloc, &mut rows, relation, side, next)?;
        side = next;
    }
    Ok(rows)
}

// The rows of a term's pieces over so many names: those of each comparison from left to right. Where bar
// pairs stand in a comparison, there is one row for each choice of signs. An equation gives the rows of both
// comparisons.
pub(crate) fn rows_in_pieces(
    alloc: Global,
    names: u32,
    pieces: &[Piece],
) -> Result<Vec<Row>, RowFault>
    requires { AllHaveValues pieces.now }
    ensures { IsAnswer RowFault.Memory (told_as as_fault (rows_in names pieces.now)) (seen_as (λ v. v.items) result) }
{
    let sides = sides_of(alloc, names, pieces)?;
    chain_rows(alloc, relation_of(pieces), &sides)
}
