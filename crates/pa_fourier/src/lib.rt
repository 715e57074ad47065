//! One step of Fourier-Motzkin elimination (Fourier 1827, Motzkin 1936) and the clean of a list of rows,
//! by whole-number sums alone.
//!
//! A list of rows is a list of inequalities over the same columns. [`clean`] leaves out the rows that are
//! needless at sight, and the same points meet what stays. [`step_rows`] takes one column out of a list:
//! a point meets the new rows exactly where some value of that column makes it meet the given ones. Its
//! two versions differ in what they do with an equality of the column, which [`equality_of`] finds.
//! [`step_count`] tells how many rows a step makes before it makes one. Each call answers the list that
//! its definition gives, or `Wide` exactly where a number of the sums reaches `2^126`, with the place.
//!
//! Read `clean` first, then `step_rows`. The definitions stand in `specs/Cleaning` here and in `specs/Steps` of `pa_witness`.
#![tactic(auto)]

mod bound;
mod chain;
mod cleaning;
mod equality;
mod fault;
mod groups;
mod number;
mod step;
mod version;

pub use cleaning::clean;
pub use equality::equality_of;
pub use fault::{CleanFault, StepFault};
pub use step::{step_count, step_rows};
pub use version::Version;

#[cfg(test)]
mod tests;
