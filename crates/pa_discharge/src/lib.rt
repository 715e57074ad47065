//! The parts of a composition, discharged round by round: each part's assumptions are brought to the external inputs by weights
//! over the guarantees of the parts that were discharged before it, or a direction shows which assumption nothing serves, or which
//! parts wait for one another.
//!
//! Read [`discharge`] first. Which rounds these are and where a fault stands is in `specs/Discharging`, what they say in
//! `specs/Meant`.
#![tactic(auto)]

mod composition;
mod discharged;
mod discharging;
mod fault;
mod rounds;

pub use discharged::{Discharged, discharge};
pub use fault::{DischargeFault, StuckParts};

#[cfg(test)]
mod tests;
