//! The grammar of term texts, as `2 (x - y) <= 1/2` or `|x| + |y| <= 3`: how a text is read into primitive
//! rows, a plain into a sum over one denominator, and a value into a fraction.
//!
//! What it promises: a text is read exactly where the grammar derives it, a point meets the rows exactly
//! where it meets the text, and each refusal comes exactly where it is due, at the byte where it is. Want of
//! memory alone is free.
//!
//! Read first: `specs/Grammar.antt` for the trees that are terms and their tokens, `specs/Meaning.antt` for
//! what they say of a point, `specs/Texts.antt` and `specs/Plains.antt` for what the readers answer, and then
//! [`read_term_with`], [`read_plain`] and [`read_value`]. The rest is how that is done: `lexer` and `numbers`
//! give tokens, `moves` and `parse` a flat list of pieces by a machine without recursion, `sums` and `rows`
//! fractions and rows, `linear` and `refused` the refusals.
#![tactic(auto)]

mod columns;
mod fault;
mod laws;
mod lexer;
mod linear;
mod machine;
mod moves;
mod numbers;
mod parse;
mod plain;
mod read;
mod refused;
mod rows;
mod sums;
mod terms;
mod token;
mod value;
mod values;

pub use fault::TermFault;
pub use laws::{rows_say_the_text, tokens_are_longest};
pub use lexer::{Constants, Lexeme, MOST_TEXT, tokens};
pub use machine::{Chain, Context, Factor, Mode, Piece, State};
pub use moves::{MOST_OPEN, MOST_PAIRS, Move, step};
pub use numbers::numeral_at;
pub use parse::{ParseFault, parse_plain, parse_term};
pub use plain::{Linear, read_plain};
pub use read::read_value;
pub use refused::{first_bad_literal, first_unknown};
pub use sums::{Pair, Side, sides_of};
pub use terms::{read_term, read_term_with};
pub use token::{Decimal, Fixed, Numeral, Placed, Relation, Sign, Token};
pub use value::{Value, parse_value};
