//! Names of variables and contracts, and lists of distinct names in which each has a place.
//!
//! A [`Name`] is text of one form, and a [`Names`] repeats no name: both are facts of the type, so
//! that no caller tests them again. The columns of rows and points are the places of such a list.
//! Each call gives the exact list or names its refusal; read [`Names::add`] first. How many ports a
//! contract and how many variables an operation may have stands here too, since all of them use it.
#![tactic(auto)]

mod fault;
mod limits;
mod name;
mod names;
mod renaming;
#[cfg(test)]
mod tests;

pub use fault::NameFault;
pub use limits::{MOST_PORTS, are_too_many};
pub use name::Name;
pub use names::Names;
