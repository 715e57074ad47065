//! Rows that are brought to other columns one after another, up to the first for which that is not possible, and the nominal
//! point at which what is left of them is exact.
//!
//! Read [`tried`] first. Which trial it is exactly, and where a fault stands, is in `specs/Trying`, what it says in
//! `specs/Meant`.
#![tactic(auto)]

mod nominal;
mod trial;

pub use nominal::{nominal_point, show_nominal};
pub use trial::{Lefts, Trial, Turn, tried};
