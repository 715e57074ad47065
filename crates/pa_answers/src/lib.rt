//! The answer to a script line over a table of contracts, and that it holds as it is printed.
//!
//! Each answer of [`answer_line`] is the one that `specs/Answers` defines, a refusal by names first; it holds as it is printed,
//! by the definitions of `pa_holds` alone, so it is true, and the table can go past it. [`answers_hold`] and
//! [`answers_are_true`] say the same of all lines of a script, each over the table that the earlier answers leave. Read
//! `specs/Answers` first.
#![tactic(auto)]

mod answer;
mod bounding;
mod composing;
mod dividing;
mod hiding;
mod laws;
mod located;
mod point;
mod refining;
mod told;

pub use answer::answer_line;
pub use laws::{answers_are_true, answers_hold};
