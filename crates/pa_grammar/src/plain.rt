// Texts of plains.
ghost use Rattle.std.specs.Prelude.{◌≡◌, ◌≤◌, ◌<◌, ℕ, length, map, OnOk, IfOk, IsErrOf, Ok};
ghost use Rattle.std.specs.Str.{bytes_eq};
ghost use Rattle.pa_math.specs.Answers.{IsAnswer, seen_as, told_as};
ghost use Rattle.pa_math.specs.Lists.{with_new};
ghost use Rattle.pa_names.specs.Names.{most_names};
ghost use Rattle.pa_ring.specs.Sums.{number_at as number_in};
ghost use Rattle.pa_row.specs.Answers.{as_fault};
ghost use Rattle.pa_grammar.specs.Lexer.{most_text};
ghost use Rattle.pa_grammar.specs.Limits.{AllHaveValues};
ghost use Rattle.pa_grammar.specs.Parsed.{tokens_in, IsRefused};
ghost use Rattle.pa_grammar.specs.Plains as spec;
ghost use Rattle.pa_grammar.specs.Plains.{Linear as LinearValue};
ghost use Rattle.pa_grammar.specs.Seen.{fraction};
ghost use Rattle.pa_grammar.specs.Sized.{AreSized};

use crate::fault::TermFault;
use crate::lexer::{Constants, text_from, tokens, word_len};
use crate::machine::Piece;
use crate::parse::{ParseFault, parse_plain};
use crate::read::bare_tokens;
use crate::refused::first_bad_literal;
use crate::rows::parts_of;
use crate::sums::vector_of;
use crate::token::{Placed, Token};
use pa_frac::Wide126;
use pa_names::{Name, NameFault, Names};
use pa_row::{RowFault, point_of};
use std::alloc::{AllocError, Global};
use std::marker::Model;

/// The sum `(c[0] x[0] + c[1] x[1] + .. + b) / q`, with a number for each name. The denominator `q` is at
/// least 1, and each number is below `2^126` in absolute value.
#[derive(Drop)]
pub struct Linear {
    /// The names, in order.
    pub names: Names,
    /// A number for each name.
    pub c: Vec<i128>,
    /// The constant.
    pub b: i128,
    /// The denominator.
    pub q: i128,
}

impl Model for Linear {
    ghost use Rattle.pa_grammar.specs.Plains.{Linear as LinearValue, IsNarrowLinear};

    ghost Value = { LinearValue };

    ghost view = { λ l. record { names = l.names; c = l.c.items; b = l.b; q = l.q } };

    ghost invariant = { λ l. IsNarrowLinear (record { names = l.names; c = l.c.items; b = l.b; q = l.q }) };
}

fn is_named(token: Token) -> bool
    ensures { result ≡ spec.is_named token }
{
    matches!(token, Token::Named(_))
}

// The word that begins at a byte.
fn word_at(text: &[u8], at: usize) -> &[u8]
    ensures { result.now ≡ spec.word_at text.now at }
{
    let rest = text_from(text, at.min(text.len()));
    &rest[..word_len(rest)]
}

// Adds a name where the list has it not yet.
fn add_new(names: &mut Names, name: Name) -> Result<(), AllocError>
    requires { length names.old < most_names }
    ensures { OnOk result (names.new ≡ with_new bytes_eq names.old name) }
{
    match names.add(name) {
        Ok(_) => Ok(()),
        Err(NameFault::Taken) => Ok(()),
        Err(NameFault::Memory) => Err(AllocError),
        Err(NameFault::Bad) => unreachable!(),
        Err(NameFault::Limit) => unreachable!(),
    }
}

// Adds the name that a token is, where the list has it not yet.
fn add_token(
    alloc: Global,
    names: &mut Names,
    text: &[u8],
    placed: Placed,
) -> Result<(), AllocError>
    requires { length names.old < most_names }
    ensures { OnOk result (names.new ≡ spec.with_name text.now names.old placed) }
{
    if !is_named(placed.token) {
        return Ok(());
    }
    match Name::read(alloc, word_at(text, placed.at as usize)) {
        Ok(name) => add_new(names, name),
        Err(NameFault::Memory) => Err(AllocError),
        Err(_) => Ok(()),
    }
}

// The names that a text mentions, in the order of first mention.
fn mentioned(alloc: Global, text: &[u8]) -> Result<Names, AllocError>
    requires { length text.now ≤ most_text }
    ensures { IfOk result (λ names. names ≡ spec.mentioned text.now) }
{
    let placed = bare_tokens(alloc, text)?;
    let mut names = Names::new(alloc);
    for token in &placed {
        add_token(alloc, &mut names, text, *token)?;
    }
    Ok(names)
}

// The pieces of a plain's tokens. `end` is the length of the text. `Syntax` where the tokens are no plain's,
// then `Literal` at their first bad number.
fn checked_plain(alloc: Global, placed: &[Placed], end: u32) -> Result<Vec<Piece>, TermFault>
    ensures answer { IsAnswer TermFault.Memory (spec.plain_pieces_answer end placed.now) (seen_as (λ v. v.items) result) }
    // Each factor has a value that 126 bits hold, where the numbers are such.
    ensures values { AreSized (tokens_in placed.now) → IfOk result (λ pieces. AllHaveValues pieces.items) }
{
    let pieces = match parse_plain(alloc, placed, end) {
        Ok(pieces) => pieces,
        Err(ParseFault::Memory) => return Err(TermFault::Memory),
        Err(ParseFault::Syntax { at }) => return Err(TermFault::Syntax { at }),
    };
    if let Some(at) = first_bad_literal(placed) {
        return Err(TermFault::Literal { at });
    }
    Ok(pieces)
}

// The number of a column; behind the last one it is 0.
#[tactic(auto, using(crate::proofs::Mentions::number_is, crate::proofs::Mentions::past_numbers))]
fn number_at(numbers: &[i128], place: usize) -> i128
    ensures { result ≡ number_in numbers.now place }
{
    if place < numbers.len() {
        return numbers[place];
    }
    0
}

// Keeps a name and its number, where the number is not 0.
fn keep(
    alloc: Global,
    names: &mut Names,
    numbers: &mut Vec<i128>,
    name: &Name,
    number: i128,
) -> Result<(), AllocError>
    requires { length names.old < most_names }
    ensures names { OnOk result (names.new ≡ spec.with_kept names.old name.now number) }
    ensures numbers { OnOk result (numbers.new.items ≡ spec.with_number numbers.old.items number) }
{
    if number == 0 {
        return Ok(());
    }
    let Ok(name) = name.copy(alloc) else {
        return Err(AllocError);
    };
    add_new(names, name)?;
    numbers.push(number)?;
    Ok(())
}

// The names whose number is not 0, and these numbers.
fn kept_of(alloc: Global, names: &Names, numbers: &[i128]) -> Result<(Names, Vec<i128>), AllocError>
    ensures names { IfOk result (λ kept. kept.0 ≡ spec.kept_names names.now numbers.now) }
    ensures numbers { IfOk result (λ kept. kept.1.items ≡ spec.kept_numbers names.now numbers.now) }
{
    let mut kept = Names::new(alloc);
    let mut c = Vec::new(alloc);
    for place in 0..names.len() {
        let number = number_at(numbers, place as usize);
        keep(alloc, &mut kept, &mut c, names.at(place), number)?;
    }
    Ok((kept, c))
}

// The sum with the fractions of a vector, over the least common multiple of their denominators.
fn linear_of(alloc: Global, names: &Names, vector: &[Wide126]) -> Result<Linear, RowFault>
    ensures { IsAnswer RowFault.Memory (told_as as_fault (spec.linear_of names.now (map fraction vector.now))) result }
{
    let Ok(parts) = parts_of(alloc, vector) else {
        return Err(RowFault::Memory);
    };
    let point = point_of(alloc, &parts)?;
    let Ok((kept, c)) = kept_of(alloc, names, &point.p) else {
        return Err(RowFault::Memory);
    };
    let b = number_at(&point.p, names.len() as usize);
    Ok(Linear {
        names: kept,
        c,
        b,
        q: point.q,
    })
}

// The sum of a plain's pieces.
fn pieces_linear(alloc: Global, names: &Names, pieces: &[Piece]) -> Result<Linear, RowFault>
    requires { AllHaveValues pieces.now }
    ensures { IsAnswer RowFault.Memory (told_as as_fault (spec.pieces_linear names.now pieces.now)) result }
{
    let vector = vector_of(alloc, names.len(), pieces)?;
    linear_of(alloc, names, &vector)
}

// The sum of a text.
fn text_linear(alloc: Global, text: &[u8]) -> Result<Linear, TermFault>
    requires { length text.now ≤ most_text }
    ensures { IsAnswer TermFault.Memory (spec.plain_answer text.now) result }
{
    let Ok(names) = mentioned(alloc, text) else {
        return Err(TermFault::Memory);
    };
    let Ok(placed) = tokens(alloc, text, &names, &Constants::none(alloc)) else {
        return Err(TermFault::Memory);
    };
    let pieces = checked_plain(alloc, &placed, text.len() as u32)?;
    match pieces_linear(alloc, &names, &pieces) {
        Ok(linear) => Ok(linear),
        Err(RowFault::Memory) => Err(TermFault::Memory),
        Err(RowFault::Wide) => Err(TermFault::Wide),
    }
}

/// Reads a plain, a sum of multiples of names, brackets and numbers, into its [`Linear`]: the names whose
/// coefficient is not 0 in the order of first mention, over the least common multiple of the denominators
/// of all coefficients and the constant. The condition is at most 4,096 bytes.
///
/// # Errors
///
/// Of several faults the first one of these is given. `Syntax` at the first token with which no plain goes
/// on, or at the end of a text that ends too early. `Literal` at the first number with too many digits or
/// an exponent out of range, or that is a denominator of value 0. `Wide` where a number passes 126 bits.
/// Each comes exactly there; `Memory` may come anywhere.
pub fn read_plain(alloc: Global, text: &[u8]) -> Result<Linear, TermFault>
    requires { length text.now ≤ most_text }
    ensures answer { IsAnswer TermFault.Memory (spec.plain_answer text.now) result }
    // The sum is that of a plain that the text is, and of a text that is a plain without a fault it is the answer.
    ensures linear { IfOk result (spec.IsLinearOf text.now) }
    ensures only { (l : LinearValue) → spec.IsLinearOf text.now l → IsAnswer TermFault.Memory (Ok l) result }
    // Each refusal says what is the case, and comes where it is the case.
    ensures syntax { (at : ℕ) → IsErrOf result (TermFault.Syntax at) → spec.IsSyntaxPlain text.now at }
    ensures syntax_due { (at : ℕ) → spec.IsSyntaxPlain text.now at → IsRefused TermFault.Memory result (TermFault.Syntax at) }
    ensures literal { (at : ℕ) → IsErrOf result (TermFault.Literal at) → spec.IsLiteralPlain text.now at }
    ensures literal_due { (at : ℕ) → spec.IsLiteralPlain text.now at → IsRefused TermFault.Memory result (TermFault.Literal at) }
    ensures wide { IsErrOf result TermFault.Wide → spec.IsWidePlain text.now }
    ensures wide_due { spec.IsWidePlain text.now → IsRefused TermFault.Memory result TermFault.Wide }
    // There is no other refusal.
    ensures known { (at : ℕ) → ¬ IsErrOf result (TermFault.UnknownName at) }
    ensures bars { (at : ℕ) → ¬ IsErrOf result (TermFault.NotLinear at) }
{
    text_linear(alloc, text)
}
