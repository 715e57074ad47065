//! A row brought to some of its columns: less weighted rows that are given, so that nothing of it is left in the others,
//! and a point that meets them and what is left meets the row. The weights are those of the least cost at a nominal point,
//! so that there nothing is asked in vain. Where no weights do it, a direction shows that (J. Farkas, Theorie der einfachen
//! Ungleichungen, 1902).
//!
//! Read [`shift_in`] first. What the answers say stands in `specs/Meant`, which answer it is and where a fault stands in
//! `specs/Shifting`.
#![tactic(auto)]

mod along;
mod cost;
mod premises;
mod shifting;

pub use premises::Premises;
pub use shifting::{Shifted, shift, shift_in};

#[cfg(test)]
mod tests;
