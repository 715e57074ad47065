//! Columns of a list of rows eliminated one after another, exactly: a point over the columns that are left meets the
//! result where, and only where, some values of the others make it meet the given rows (Fourier-Motzkin elimination;
//! Fourier 1827, Motzkin 1936). Each list on the way is thinned, so that it stays short, and each row that is dropped has
//! weights that show it needless.
//!
//! Read [`eliminate`] first. What its answer says stands in `specs/Meant`, which answer it is and where a fault stands in
//! `specs/Projecting`, and when a limit of pivots is never met in `specs/FewBases`.
#![tactic(auto)]

mod fault;
mod projecting;
mod step;
mod turns;

pub use fault::ElimFault;
pub use projecting::{Projected, eliminate};

#[cfg(test)]
mod tests;
