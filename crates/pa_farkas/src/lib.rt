//! Whether a list of rows implies a row, whether any point meets it, and which of its rows the others imply: each
//! answer with weights or with a point that shows it (J. Farkas, Theorie der einfachen Ungleichungen, 1902).
//!
//! Read [`implied`] first. What the answers say stands in `specs/Alternatives`, which answer it is and where a fault
//! stands in `specs/Answered`.
#![tactic(auto)]

mod away;
mod base;
mod checked;
mod cover;
mod fault;
mod implication;
mod problem;
mod read;
mod sieve;

pub use base::{Feasibility, feasible, feasible_in};
pub use cover::{covered, covered_in};
pub use fault::{read_halt, wide_in};
pub use implication::{Verdict, implied, implied_in};
pub use problem::solved;
pub use sieve::{Thinned, thin, thin_in};

#[cfg(test)]
mod tests;
