//! Scripts: what their lines ask for, how they are read, and their canonical texts.
//!
//! A script is lines of operations on contracts, as `merge M = A B` or `bound C max 2 x - y`. [`read_script`]
//! gives an [`Op`] for each line that is not blank and no comment, or the first faulty line with the first
//! kind of its faults. [`write_line`] gives the canonical text of a line. Read `Op` first, then
//! `specs/Lines.antt`, which says line by line what is asked for and what is refused, and
//! `specs/LineText.antt`, which has the texts.
#![tactic(auto)]

mod fault;
mod fractions;
mod laws;
mod lines;
mod names;
mod op;
mod points;
mod read;
mod values;
mod words;
mod write;

pub use fault::{LineKind, ScriptFault};
pub use fractions::push_fraction;
pub use laws::texts_are_read_back;
pub use op::{Mentions, Op, Script, ScriptLine};
pub use pa_grammar::Linear;
pub use read::{MOST_SCRIPT, read_script};
pub use write::{push_names, push_op, write_line};

#[cfg(test)]
mod tests;
