//! The whole program but for its edge: words, files and an output in, a status out.
//!
//! [`run`] reads a diagram and a script, answers each line of the script over the contracts of the diagram
//! and of the earlier answers, and puts each answer as soon as it is made. Read `specs/Ends` first: it says
//! what a run may be trusted for (`TookTrueReport`, which names no procedure), and how each run ends.
#![tactic(auto)]

mod inputs;
mod lines;
mod report;
mod status;
mod top;
mod words;

pub use report::{StepFault, answer_next};
pub use status::{InputFault, Status, Which, status_number};
pub use top::run;

#[cfg(test)]
mod tests;
