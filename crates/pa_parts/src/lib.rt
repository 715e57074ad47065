//! The parts of a composition, its names, and the parts' rows over these names. No solver: what reads a composite again stands
//! on this crate too.
//!
//! Read [`ports_of`] first: its names are those of `pa_meaning`, `specs/Composition`, and which refusal is the first stands in
//! `specs/Composing`.
#![tactic(auto)]

mod fault;
mod names;
mod over;
mod parts;
mod ports;

pub use fault::PortsFault;
pub use names::{first_missing_name, has};
pub use over::{all_guarantees, assumptions_over, guarantees_over};
pub use parts::Parts;
pub use ports::{Ports, ports_of};
