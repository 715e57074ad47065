//! The canonical texts of rows.
#![tactic(auto)]

#[cfg(test)]
mod grammar_tests;
#[cfg(test)]
mod tests;
mod write;

pub use write::{push_row, write_row};
