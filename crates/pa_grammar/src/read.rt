// Texts of values, and the pieces of terms.
ghost use Rattle.std.specs.Prelude.{◌≡◌, ◌≤◌, ℕ, length, IfOk, IsErrOf, Ok};
ghost use Rattle.pa_math.specs.Answers.{IsAnswer, seen_as};
ghost use Rattle.pa_row.specs.Fractions.{IsFraction};
ghost use Rattle.pa_grammar.specs.Lexer.{most_text};
ghost use Rattle.pa_grammar.specs.Limits.{AllHaveValues, HasFactorValue};
ghost use Rattle.pa_grammar.specs.Parsed.{tokens_in, IsRefused, IsSyntaxFault, IsTermWith};
ghost use Rattle.pa_grammar.specs.Read as spec;
ghost use Rattle.pa_grammar.specs.Refused.{IsLiteralFault};
ghost use Rattle.pa_grammar.specs.Seen.{fraction};
ghost use Rattle.pa_grammar.specs.Sized.{AreSized};
ghost use Rattle.pa_grammar.specs.Texts.{pieces_answer};
ghost use Rattle.pa_grammar.specs.Value.{IsValue, ValueTokens, value_tokens, value_of};

use crate::fault::TermFault;
use crate::lexer::{Constants, tokens};
use crate::machine::Piece;
use crate::moves::sign_of;
use crate::parse::{ParseFault, parse_term};
use crate::refused::{first_bad_literal, first_unknown};
use crate::rows::parts_in;
use crate::token::Placed;
use crate::value::{Value, parse_value};
use crate::values::{factor_of, signed};
use pa_frac::Wide126;
use pa_names::Names;
use std::alloc::{AllocError, Global};

// The tokens of a text without names and constants.
pub(crate) fn bare_tokens(alloc: Global, text: &[u8]) -> Result<Vec<Placed>, AllocError>
    requires { length text.now ≤ most_text }
    ensures { IfOk result (λ tokens. tokens.items ≡ spec.bare_tokens text.now) }
{
    tokens(alloc, text, &Names::new(alloc), &Constants::none(alloc))
}

// The pieces of a term's tokens. `end` is the length of the text. `Syntax` where the tokens are no term's,
// then `Literal` at their first bad number, then `UnknownName` at their first name that is not among the
// names.
pub(crate) fn checked_pieces(
    alloc: Global,
    placed: &[Placed],
    end: u32,
) -> Result<Vec<Piece>, TermFault>
    ensures answer { IsAnswer TermFault.Memory (pieces_answer end placed.now) (seen_as (λ v. v.items) result) }
    ensures term { IfOk result (λ pieces. IsTermWith (tokens_in placed.now) pieces.items) }
    // Each factor has a value that 126 bits hold, where the numbers and constants are such.
    ensures values { AreSized (tokens_in placed.now) → IfOk result (λ pieces. AllHaveValues pieces.items) }
{
    let pieces = match parse_term(alloc, placed, end) {
        Ok(pieces) => pieces,
        Err(ParseFault::Memory) => return Err(TermFault::Memory),
        Err(ParseFault::Syntax { at }) => return Err(TermFault::Syntax { at }),
    };
    if let Some(at) = first_bad_literal(placed) {
        return Err(TermFault::Literal { at });
    }
    if let Some(at) = first_unknown(placed) {
        return Err(TermFault::UnknownName { at });
    }
    Ok(pieces)
}

// The fraction that a value is.
fn fraction_of(value: Value) -> Wide126
    requires { HasFactorValue value.factor }
    ensures { fraction result ≡ value_of value }
{
    signed(sign_of(value.sign), factor_of(value.factor))
}

fn value_in(alloc: Global, text: &[u8]) -> Result<(i128, i128), TermFault>
    requires { length text.now ≤ most_text }
    ensures answer { IsAnswer TermFault.Memory (spec.value_answer text.now) result }
    ensures within { IfOk result IsFraction }
{
    let Ok(placed) = bare_tokens(alloc, text) else {
        return Err(TermFault::Memory);
    };
    let value = match parse_value(&placed, text.len() as u32) {
        Ok(value) => value,
        Err(ParseFault::Memory) => return Err(TermFault::Memory),
        Err(ParseFault::Syntax { at }) => return Err(TermFault::Syntax { at }),
    };
    if let Some(at) = first_bad_literal(&placed) {
        return Err(TermFault::Literal { at });
    }
    let fraction = fraction_of(value);
    Ok(parts_in(fraction))
}

/// Reads a value, `[+|-] NUMBER` or `[+|-] DIGITS / DIGITS`, into its exact fraction in lowest terms: a
/// numerator and a denominator of at least 1. The condition is at most 4,096 bytes.
///
/// `Syntax` exactly where the text is no value, and then `Literal` exactly where a number has too many
/// digits or an exponent out of range, or is a denominator of value 0. The only other refusal is `Memory`.
pub fn read_value(alloc: Global, text: &[u8]) -> Result<(i128, i128), TermFault>
    requires { length text.now ≤ most_text }
    ensures answer { IsAnswer TermFault.Memory (spec.value_answer text.now) result }
    // The answer is the fraction of a value that the text is.
    ensures value { IfOk result (spec.IsValueOf text.now) }
    // Both numbers are below `2^126` in absolute value.
    ensures within { IfOk result IsFraction }
    // Every reading of the text as a value gives that fraction.
    ensures only { (v : Value) → IsValue v → value_tokens v ≡ tokens_in (spec.bare_tokens text.now) → spec.AreLiterals (spec.bare_tokens text.now)
        → IsAnswer TermFault.Memory (Ok (spec.parts (value_of v))) result }
    // It is refused exactly where it is no value, and then exactly where a number of it is refused.
    ensures syntax { (at : ℕ) → IsErrOf result (TermFault.Syntax at) → IsSyntaxFault ValueTokens (spec.bare_tokens text.now) (length text.now) at }
    ensures syntax_due { (at : ℕ) → IsSyntaxFault ValueTokens (spec.bare_tokens text.now) (length text.now) at → IsRefused TermFault.Memory result (TermFault.Syntax at) }
    ensures literal { (at : ℕ) → IsErrOf result (TermFault.Literal at)
        → ValueTokens (tokens_in (spec.bare_tokens text.now)) × IsLiteralFault (spec.bare_tokens text.now) at }
    ensures literal_due { (at : ℕ) → ValueTokens (tokens_in (spec.bare_tokens text.now)) → IsLiteralFault (spec.bare_tokens text.now) at
        → IsRefused TermFault.Memory result (TermFault.Literal at) }
{
    value_in(alloc, text)
}
