//! Reads a diagram, which is JSON, into contracts by their names, parts and nominal values.
//!
//! What it promises: each diagram is read exactly as the format says, and of any other text the first fault
//! is told, in the order of the format's tests, with the path of its place. An upgraded diagram describes what
//! it described before. Read first: `specs/Described.antt` for the diagram that a text describes, then
//! [`read_diagram`] and [`upgrade`], and `specs/Diagram.antt` for the order of the tests.
#![tactic(auto)]

mod contract;
mod diagram;
mod fault;
mod keeping;
mod layout;
mod limits;
mod member;
mod named;
mod part;
mod path;
mod ports;
mod rows;
mod upgrading;
mod values;

pub use diagram::{Diagram, read_diagram};
pub use fault::{DiagramFault, MakeKind, WireKind};
pub use limits::{MOST_DIAGRAM_BYTES, MOST_UPGRADE_BYTES};
pub use path::Path;
pub use upgrading::upgrade;

#[cfg(test)]
mod tests;
#[cfg(test)]
mod upgrade_tests;
