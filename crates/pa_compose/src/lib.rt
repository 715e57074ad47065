//! A contract without some of its outputs: what outsiders may see of it.
//!
//! [`compose`] puts parts together: what the system assumes and guarantees, from its parts, or which of them cannot be
//! served. Which answer it is and where a fault stands is in `specs/Composing`, over the names of `pa_parts` and the rounds of
//! `pa_discharge`.
//!
//! Read [`hide`] first. Which answer it gives, and where a fault stands, is in `specs/Hiding`; what holds of the answer as it
//! is printed is in `pa_holds`, `specs/Composed`.
#![tactic(auto)]

mod compose_fault;
mod composing;
mod fault;
mod gone;
mod hiding;
mod steps;

pub use compose_fault::ComposeFault;
pub use composing::compose;
pub use fault::HideFault;
pub use hiding::hide;

#[cfg(test)]
mod compose_tests;
#[cfg(test)]
mod tests;
