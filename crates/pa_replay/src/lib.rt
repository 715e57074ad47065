//! The simplex method in two phases, with Bland's rule, as definitions and theorems: the problem, its run over an
//! arithmetic that may refuse an operation, what is read at the ends, and that no basis comes twice.
//!
//! Nothing runs here but for the names of the ends. `pa_bland` has the calls, whose clauses cite these definitions, and
//! an edit of them leaves this crate's lemmas as they are. Read `specs/Problem` first, then `specs/Replay` and
//! `specs/Readings`.
#![tactic(auto)]

mod end;
mod next;

pub use end::{End, SolveFault};
pub use next::Next;
