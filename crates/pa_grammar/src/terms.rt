// Texts of terms.
ghost use Rattle.std.specs.Prelude.{◌≡◌, ◌≤◌, ℕ, List, length, All, IfOk, IsErrOf, Ok};
ghost use Rattle.pa_math.specs.Answers.{IsAnswer, seen_as};
ghost use Rattle.pa_meaning.specs.Rows.{Row as RowValue};
ghost use Rattle.pa_grammar.specs.Lexer.{most_text, plain_scope};
ghost use Rattle.pa_grammar.specs.Parsed.{IsRefused};
ghost use Rattle.pa_grammar.specs.Scopes.{scope_with};
ghost use Rattle.pa_grammar.specs.Sized.{AreFixed};
ghost use Rattle.pa_grammar.specs.Texts as spec;
ghost use Rattle.pa_row.specs.Fractions.{IsFraction};

use crate::fault::TermFault;
use crate::lexer::{Constants, tokens};
use crate::linear::checked_rows;
use crate::read::checked_pieces;
use pa_names::Names;
use pa_row::Row;
use std::alloc::Global;

// The rows of a text over names and constants.
fn rows_with(
    alloc: Global,
    text: &[u8],
    names: &Names,
    constants: &Constants,
) -> Result<Vec<Row>, TermFault>
    requires short { length text.now ≤ most_text }
    requires fixed { AreFixed constants.now.values.items }
    ensures { IsAnswer TermFault.Memory (spec.term_answer (scope_with names.now constants.now) text.now) (seen_as (λ v. v.items) result) }
{
    let Ok(placed) = tokens(alloc, text, names, constants) else {
        return Err(TermFault::Memory);
    };
    let pieces = checked_pieces(alloc, &placed, text.len() as u32)?;
    checked_rows(alloc, names.len(), &placed, &pieces)
}

/// Reads a term over names and constants into its primitive rows, a column for each name: those of each
/// comparison from left to right, one for each choice of signs of its bar pairs, plus before minus, where
/// the first pair changes slowest; two comparisons for an equation.
///
/// The conditions: at most 4,096 bytes, and each constant's value is in lowest terms, with a numerator and
/// a denominator below `2^126` in size. A name that is a constant's is no variable.
///
/// # Errors
///
/// Of several faults the first one of these is given. `Syntax` at the first token with which no term goes
/// on, or at the end of a text that ends too early. `Literal` at the first number with too many digits or
/// an exponent out of range, or that is a denominator of value 0. `UnknownName` at the first name that is
/// not among the names. `NotLinear` at the first bar pair with a negative weight in a comparison, or in an
/// equation. `Wide` where a number passes 126 bits. Each comes exactly there; `Memory` may come anywhere.
pub fn read_term_with(
    alloc: Global,
    text: &[u8],
    names: &Names,
    constants: &Constants,
) -> Result<Vec<Row>, TermFault>
    requires short { length text.now ≤ most_text }
    requires constants { All IsFraction constants.now.values.items }
    ensures answer { IsAnswer TermFault.Memory (spec.term_answer (scope_with names.now constants.now) text.now) (seen_as (λ v. v.items) result) }
    // The rows are those of a term that the text is, and of a text that is a term without a fault they are the answer.
    ensures rows { IfOk result (λ rows. spec.AreRowsOf (scope_with names.now constants.now) text.now rows.items) }
    ensures only { (rows : List RowValue) → spec.AreRowsOf (scope_with names.now constants.now) text.now rows
        → IsAnswer TermFault.Memory (Ok rows) (seen_as (λ v. v.items) result) }
    ensures columns { IfOk result (λ rows. All (λ row. length row.c ≡ length names.now) rows.items) }
    // A point meets the rows exactly where it meets the text.
    ensures meaning { IfOk result (λ rows. spec.SayTheText (scope_with names.now constants.now) text.now rows.items) }
    // Each refusal says what is the case, and comes where it is the case.
    ensures syntax { (at : ℕ) → IsErrOf result (TermFault.Syntax at) → spec.IsSyntaxText (scope_with names.now constants.now) text.now at }
    ensures syntax_due { (at : ℕ) → spec.IsSyntaxText (scope_with names.now constants.now) text.now at
        → IsRefused TermFault.Memory result (TermFault.Syntax at) }
    ensures literal { (at : ℕ) → IsErrOf result (TermFault.Literal at) → spec.IsLiteralText (scope_with names.now constants.now) text.now at }
    ensures literal_due { (at : ℕ) → spec.IsLiteralText (scope_with names.now constants.now) text.now at
        → IsRefused TermFault.Memory result (TermFault.Literal at) }
    ensures unknown { (at : ℕ) → IsErrOf result (TermFault.UnknownName at) → spec.IsUnknownText (scope_with names.now constants.now) text.now at }
    ensures unknown_due { (at : ℕ) → spec.IsUnknownText (scope_with names.now constants.now) text.now at
        → IsRefused TermFault.Memory result (TermFault.UnknownName at) }
    ensures not_linear { (at : ℕ) → IsErrOf result (TermFault.NotLinear at) → spec.IsNotLinearText (scope_with names.now constants.now) text.now at }
    ensures not_linear_due { (at : ℕ) → spec.IsNotLinearText (scope_with names.now constants.now) text.now at
        → IsRefused TermFault.Memory result (TermFault.NotLinear at) }
    ensures wide { IsErrOf result TermFault.Wide → spec.IsWideText (scope_with names.now constants.now) text.now }
    ensures wide_due { spec.IsWideText (scope_with names.now constants.now) text.now → IsRefused TermFault.Memory result TermFault.Wide }
{
    rows_with(alloc, text, names, constants)
}

// The rows of a text over names.
fn rows_without(alloc: Global, text: &[u8], names: &Names) -> Result<Vec<Row>, TermFault>
    requires { length text.now ≤ most_text }
    ensures { IsAnswer TermFault.Memory (spec.term_answer (plain_scope names.now) text.now) (seen_as (λ v. v.items) result) }
{
    rows_with(alloc, text, names, &Constants::none(alloc))
}

/// Reads a term over names into its primitive rows: [`read_term_with`] without constants. The condition is
/// at most 4,096 bytes.
///
/// # Errors
///
/// Those of [`read_term_with`].
pub fn read_term(alloc: Global, text: &[u8], names: &Names) -> Result<Vec<Row>, TermFault>
    requires { length text.now ≤ most_text }
    ensures answer { IsAnswer TermFault.Memory (spec.term_answer (plain_scope names.now) text.now) (seen_as (λ v. v.items) result) }
    // The rows are those of a term that the text is, and of a text that is a term without a fault they are the answer.
    ensures rows { IfOk result (λ rows. spec.AreRowsOf (plain_scope names.now) text.now rows.items) }
    ensures only { (rows : List RowValue) → spec.AreRowsOf (plain_scope names.now) text.now rows
        → IsAnswer TermFault.Memory (Ok rows) (seen_as (λ v. v.items) result) }
    ensures columns { IfOk result (λ rows. All (λ row. length row.c ≡ length names.now) rows.items) }
    // A point meets the rows exactly where it meets the text.
    ensures meaning { IfOk result (λ rows. spec.SayTheText (plain_scope names.now) text.now rows.items) }
    // Each refusal says what is the case, and comes where it is the case.
    ensures syntax { (at : ℕ) → IsErrOf result (TermFault.Syntax at) → spec.IsSyntaxText (plain_scope names.now) text.now at }
    ensures syntax_due { (at : ℕ) → spec.IsSyntaxText (plain_scope names.now) text.now at → IsRefused TermFault.Memory result (TermFault.Syntax at) }
    ensures literal { (at : ℕ) → IsErrOf result (TermFault.Literal at) → spec.IsLiteralText (plain_scope names.now) text.now at }
    ensures literal_due { (at : ℕ) → spec.IsLiteralText (plain_scope names.now) text.now at → IsRefused TermFault.Memory result (TermFault.Literal at) }
    ensures unknown { (at : ℕ) → IsErrOf result (TermFault.UnknownName at) → spec.IsUnknownText (plain_scope names.now) text.now at }
    ensures unknown_due { (at : ℕ) → spec.IsUnknownText (plain_scope names.now) text.now at
        → IsRefused TermFault.Memory result (TermFault.UnknownName at) }
    ensures not_linear { (at : ℕ) → IsErrOf result (TermFault.NotLinear at) → spec.IsNotLinearText (plain_scope names.now) text.now at }
    ensures not_linear_due { (at : ℕ) → spec.IsNotLinearText (plain_scope names.now) text.now at
        → IsRefused TermFault.Memory result (TermFault.NotLinear at) }
    ensures wide { IsErrOf result TermFault.Wide → spec.IsWideText (plain_scope names.now) text.now }
    ensures wide_due { spec.IsWideText (plain_scope names.now) text.now → IsRefused TermFault.Memory result TermFault.Wide }
{
    rows_without(alloc, text, names)
}
