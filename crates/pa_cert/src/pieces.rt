// Numbers, weights, points and directions as they stand in lines.
ghost use Rattle.std.specs.Prelude.{◌≡◌, ◌++◌, OnOk, decimal};
ghost use Rattle.std.specs.Fmt.{signed_decimal};
ghost use Rattle.pa_cert.specs.AnswerText as spec;

use crate::{Heading, Located};
use itoa::Buffer;
use pa_names::Name;
use pa_row::Weights;
use std::alloc::AllocError;

// The digits of a count.
pub(crate) fn push_number(text: &mut Vec<u8>, number: u64) -> Result<(), AllocError>
    ensures { OnOk result (text.new.items ≡ text.old.items ++ decimal number) }
{
    let mut buffer = Buffer::new();
    text.extend_from_slice(buffer.format(number).as_bytes())
}

// The digits of a whole number, behind its sign.
pub(crate) fn push_signed(text: &mut Vec<u8>, number: i128) -> Result<(), AllocError>
    ensures { OnOk result (text.new.items ≡ text.old.items ++ signed_decimal number) }
{
    let mut buffer = Buffer::new();
    text.extend_from_slice(buffer.format(number).as_bytes())
}

// A weight at its place.
fn push_part(text: &mut Vec<u8>, place: u32, numerator: i128) -> Result<(), AllocError>
    ensures { OnOk result (text.new.items ≡ text.old.items ++ spec.part_text (place, numerator)) }
{
    text.push(b' ')?;
    push_number(text, u64::from(place))?;
    text.push(b':')?;
    push_signed(text, numerator)
}

// The weights at their places.
fn push_parts(text: &mut Vec<u8>, parts: &[(u32, i128)]) -> Result<(), AllocError>
    ensures { OnOk result (text.new.items ≡ text.old.items ++ spec.parts_text parts.now) }
{
    for part in parts {
        push_part(text, part.0, part.1)?;
    }
    Ok(())
}

// The denominator, and the weights at their places.
pub(crate) fn push_weights(text: &mut Vec<u8>, weights: &Weights) -> Result<(), AllocError>
    ensures { OnOk result (text.new.items ≡ text.old.items ++ spec.weights_text weights.now) }
{
    push_signed(text, weights.den)?;
    push_parts(text, &weights.parts)
}

// A word, and then weights.
pub(crate) fn push_weights_line(
    text: &mut Vec<u8>,
    word: &str,
    weights: &Weights,
) -> Result<(), AllocError>
    ensures { OnOk result (text.new.items ≡ text.old.items ++ spec.weights_line word.now weights.now) }
{
    text.extend_from_slice(word.as_bytes())?;
    push_weights(text, weights)?;
    text.extend_from_slice(b"\n")
}

// A name with its number.
fn push_pair(text: &mut Vec<u8>, name: &Name, number: i128) -> Result<(), AllocError>
    ensures { OnOk result (text.new.items ≡ text.old.items ++ spec.pair_text name.now number) }
{
    text.push(b' ')?;
    text.extend_from_slice(name.bytes())?;
    text.push(b'=')?;
    push_signed(text, number)
}

// Names with their numbers, as far as both go.
fn push_pairs(text: &mut Vec<u8>, names: &[Name], numbers: &[i128]) -> Result<(), AllocError>
    ensures { OnOk result (text.new.items ≡ text.old.items ++ spec.pairs_text names.now numbers.now) }
{
    for place in 0..names.len().min(numbers.len()) {
        push_pair(text, &names[place], numbers[place])?;
    }
    Ok(())
}

// A point by its names.
pub(crate) fn push_point(text: &mut Vec<u8>, at: &Located) -> Result<(), AllocError>
    ensures { OnOk result (text.new.items ≡ text.old.items ++ spec.point_line at.now) }
{
    text.extend_from_slice(b"point ")?;
    push_signed(text, at.at.q)?;
    push_pairs(text, &at.names, &at.at.p)?;
    text.extend_from_slice(b"\n")
}

// A direction by its names.
pub(crate) fn push_direction(text: &mut Vec<u8>, direction: &Heading) -> Result<(), AllocError>
    ensures { OnOk result (text.new.items ≡ text.old.items ++ spec.direction_line direction.now) }
{
    text.extend_from_slice(b"direction")?;
    push_pairs(text, &direction.names, &direction.numbers)?;
    text.extend_from_slice(b"\n")
}

// A word, and then a name.
pub(crate) fn push_name_line(text: &mut Vec<u8>, word: &str, name: &Name) -> Result<(), AllocError>
    ensures { OnOk result (text.new.items ≡ text.old.items ++ spec.name_line word.now name.now) }
{
    text.extend_from_slice(word.as_bytes())?;
    text.extend_from_slice(name.bytes())?;
    text.extend_from_slice(b"\n")
}

// A word, and then a count.
pub(crate) fn push_count_line(text: &mut Vec<u8>, word: &str, count: u64) -> Result<(), AllocError>
    ensures { OnOk result (text.new.items ≡ text.old.items ++ spec.count_line word.now count) }
{
    text.extend_from_slice(word.as_bytes())?;
    push_number(text, count)?;
    text.extend_from_slice(b"\n")
}
