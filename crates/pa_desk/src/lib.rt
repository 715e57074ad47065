//! Where the inputs come from and where the output goes.
//!
//! A [`Shelf`] gives files by their paths and a [`Sink`] takes bytes. Each counts its faults, so that
//! a caller can be shown to answer a fault only where there was one. [`MemShelf`] and [`MemSink`]
//! stand in memory and fail at the calls that they are told to; [`FileShelf`] and [`OutSink`] reach
//! the files and an output of the system.
#![tactic(auto)]

mod memory;
mod shelf;
mod sink;
mod system;

pub use memory::{MemFile, MemShelf, MemSink};
pub use shelf::{FetchFault, MOST_FETCHED, Shelf};
pub use sink::{PutFault, Sink, SinkFault, put_all};
pub use system::{FileShelf, OutSink};

#[cfg(test)]
mod tests;
