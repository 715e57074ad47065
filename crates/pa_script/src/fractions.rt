// Texts of fractions, of the values of points and of expressions.
ghost use Rattle.std.specs.Prelude.{◌≡◌, ◌++◌, ◌<◌, ◌≤◌, ◌==◌, ◌&&◌, ℤ, OnOk, IfOk, length, true, unsigned_abs};
ghost use Rattle.pa_math.specs.Divisors.{gcd_of};
ghost use Rattle.pa_ring.specs.Sums.{number_at as number_in};
ghost use Rattle.pa_script.specs.LineText as spec;

use itoa::Buffer;
use pa_frac::gcd;
use pa_grammar::Linear;
use pa_names::Names;
use pa_row::Point;
use std::alloc::AllocError;

// The number at a place; behind the last one it is 0.
#[tactic(auto, using(pa_grammar::proofs::Mentions::number_is, pa_grammar::proofs::Mentions::past_numbers))]
fn number_at(numbers: &[i128], place: usize) -> i128
    ensures { result ≡ number_in numbers.now place }
{
    if place < numbers.len() {
        return numbers[place];
    }
    0
}

// A fraction of two numbers without a common divisor.
fn push_lowest(text: &mut Vec<u8>, n: u128, d: u128) -> Result<(), AllocError>
    ensures { OnOk result (text.new.items ≡ text.old.items ++ spec.lowest_text n d) }
{
    let mut buffer = Buffer::new();
    text.extend_from_slice(buffer.format(n).as_bytes())?;
    if d == 1 {
        return Ok(());
    }
    text.push(b'/')?;
    text.extend_from_slice(buffer.format(d).as_bytes())
}

/// Adds a fraction of two numbers without a common divisor, as `-3/2`; a denominator of 1 is left out.
pub fn push_fraction(text: &mut Vec<u8>, n: i128, d: i128) -> Result<(), AllocError>
    ensures { OnOk result (text.new.items ≡ text.old.items ++ spec.fraction_text n d) }
{
    push_minus(text, n)?;
    push_lowest(text, n.unsigned_abs(), d.unsigned_abs())
}

// A fraction in lowest terms.
#[tactic(auto, using(pa_math::specs::LowestTerms::gcd_of_positive))]
fn push_ratio(text: &mut Vec<u8>, n: u128, d: u128) -> Result<(), AllocError>
    requires { 0 < d }
    ensures { OnOk result (text.new.items ≡ text.old.items ++ spec.ratio_text n d) }
{
    let shared = gcd(n, d);
    push_lowest(text, n / shared, d / shared)
}

// `-` before a number below 0.
fn push_minus(text: &mut Vec<u8>, n: i128) -> Result<(), AllocError>
    ensures { OnOk result (text.new.items ≡ text.old.items ++ spec.minus_text n) }
{
    if n < 0 {
        text.push(b'-')?;
    }
    Ok(())
}

// One value of a point.
fn push_value(text: &mut Vec<u8>, name: &[u8], p: i128, q: i128) -> Result<(), AllocError>
    requires { 0 < unsigned_abs q }
    ensures { OnOk result (text.new.items ≡ text.old.items ++ spec.value_text name.now p q) }
{
    text.push(b' ')?;
    text.extend_from_slice(name)?;
    text.push(b'=')?;
    push_minus(text, p)?;
    push_ratio(text, p.unsigned_abs(), q.unsigned_abs())
}

// The value of a name that has its number at a place.
fn push_value_at(
    text: &mut Vec<u8>,
    name: &[u8],
    at: &Point,
    place: usize,
) -> Result<(), AllocError>
    ensures { OnOk result (text.new.items ≡ text.old.items ++ spec.value_text name.now (number_in at.now.p place) at.now.q) }
{
    push_value(text, name, number_at(&at.p, place), at.q)
}

/// Adds the values of the names at a point, as ` x=-3/2 y=2`.
pub(crate) fn push_values(text: &mut Vec<u8>, names: &Names, at: &Point) -> Result<(), AllocError>
    ensures { OnOk result (text.new.items ≡ text.old.items ++ spec.values_text 0 names.now at.now) }
{
    for place in 0..names.len() {
        push_value_at(text, names.at(place).bytes(), at, place as usize)?;
    }
    Ok(())
}

// What stands before a term.
fn push_sign(text: &mut Vec<u8>, first: bool, c: i128) -> Result<(), AllocError>
    ensures { OnOk result (text.new.items ≡ text.old.items ++ spec.sign_text first c) }
{
    if first {
        return push_minus(text, c);
    }
    text.extend_from_slice(if c < 0 { b" - " } else { b" + " })
}

// A magnitude other than 1.
fn push_magnitude(text: &mut Vec<u8>, n: u128, d: u128) -> Result<(), AllocError>
    requires { 0 < d }
    ensures { OnOk result (text.new.items ≡ text.old.items ++ spec.magnitude_text n d) }
{
    if n == d {
        return Ok(());
    }
    push_ratio(text, n, d)?;
    text.push(b' ')?;
    Ok(())
}

// A term with a coefficient other than 0. Says whether no term stands yet.
fn push_term(
    text: &mut Vec<u8>,
    first: bool,
    name: &[u8],
    c: i128,
    q: i128,
) -> Result<bool, AllocError>
    requires { 0 < unsigned_abs q }
    ensures text { OnOk result (text.new.items ≡ text.old.items ++ spec.term_text first name.now c q) }
    ensures first { IfOk result (λ still. still ≡ first && (unsigned_abs c == 0)) }
{
    if c == 0 {
        return Ok(first);
    }
    push_sign(text, first, c)?;
    push_magnitude(text, c.unsigned_abs(), q.unsigned_abs())?;
    text.extend_from_slice(name)?;
    Ok(false)
}

// The term of a name that has its coefficient at a place. Says whether no term stands yet.
fn push_term_at(
    text: &mut Vec<u8>,
    first: bool,
    name: &[u8],
    goal: &Linear,
    place: usize,
) -> Result<bool, AllocError>
    ensures text { OnOk result (text.new.items ≡ text.old.items ++ spec.term_text first name.now (number_in goal.now.c place) goal.now.q) }
    ensures first { IfOk result (λ still. still ≡ first && (unsigned_abs (number_in goal.now.c place) == 0)) }
{
    push_term(text, first, name, number_at(&goal.c, place), goal.q)
}

// The constant of an expression.
fn push_constant(text: &mut Vec<u8>, first: bool, b: i128, q: i128) -> Result<(), AllocError>
    requires { 0 < unsigned_abs q }
    ensures { OnOk result (text.new.items ≡ text.old.items ++ spec.constant_text first b q) }
{
    if b == 0 {
        if first {
            text.push(b'0')?;
        }
        return Ok(());
    }
    push_sign(text, first, b)?;
    push_ratio(text, b.unsigned_abs(), q.unsigned_abs())
}

// The constant behind the terms.
fn push_rest(text: &mut Vec<u8>, first: bool, goal: &Linear) -> Result<(), AllocError>
    ensures { OnOk result (text.new.items ≡ text.old.items ++ spec.constant_text first goal.now.b goal.now.q) }
{
    push_constant(text, first, goal.b, goal.q)
}

// The terms of the names, and the constant of an expression over these names.
fn push_sum(text: &mut Vec<u8>, names: &Names, goal: &Linear) -> Result<(), AllocError>
    ensures { OnOk result (text.new.items ≡ text.old.items ++ spec.terms_text true 0 names.now goal.now) }
{
    let mut first = true;
    for place in 0..names.len() {
        first = push_term_at(text, first, names.at(place).bytes(), goal, place as usize)?;
    }
    push_rest(text, first, goal)
}

/// Adds an expression, as `2 x - 1/2 y + 3`.
pub(crate) fn push_goal(text: &mut Vec<u8>, goal: &Linear) -> Result<(), AllocError>
    ensures { OnOk result (text.new.items ≡ text.old.items ++ spec.goal_text goal.now) }
{
    push_sum(text, &goal.names, goal)
}
