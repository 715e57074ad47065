//! Whether a contract may stand in the place of another one, and how great or small a linear goal is at a contract's
//! behaviours: each answer with the weights or the points that show it.
//!
//! Read [`refine`] and [`bound`] first. What their answers say stands in `specs/Meant`, which answer it is and where a
//! fault stands in `specs/Refining` and `specs/Bounding`.
#![tactic(auto)]

mod answer;
mod best;
mod bounding;
mod columns;
mod covering;
mod fault;
mod goal;
mod lists;
mod names;
mod refining;
mod value;

pub use answer::{Bounded, Refined};
pub use bounding::bound;
pub use fault::{BoundFault, RefineFault};
pub use names::first_missing_port;
pub use refining::refine;

#[cfg(test)]
mod tests;
