//! Answers to the lines of a script: what they say, how they are printed, and the table of contracts that
//! they advance.
//!
//! An answer carries its certificates, so that a stranger can redo it by sums alone. When it is true is no
//! matter of this crate: what stands here is what an answer is. Read [`LineAnswer`] and [`Answer`] first.
#![tactic(auto)]

mod answer;
mod contracts;
mod evidence;
mod limits;
mod lists;
mod pieces;
mod places;
mod refusal;
mod refused;
mod table;
mod write;

pub use answer::{Answer, Composed, Divided, Hidden, LineAnswer};
pub use limits::{FIRST_PIVOTS, FIRST_ROWS};
pub use lists::{
    Discharges, Drops, Heading, Located, Marks, NamedStep, Proofs, Steps, StuckRow, StuckRows,
};
pub use refusal::NameRefusal;
pub use table::Table;
pub use write::{push_answer, push_end, push_first_line};
