//! When an answer holds as it is printed, by sums alone, and that it then is true. Definitions and theorems alone: the
//! functions of `laws` are empty, and each has a theorem as its clause.
//!
//! A reader of a report believes `pa_meaning`, and of this crate what `IsTrueAnswer` of `specs/Answers` says. What holds as
//! printed is what a checker tests. Operations, answers and tables are the code's own types, of `pa_script` and `pa_cert`.
//! Read `specs/Answers` first, then `specs/Tables`.
#![tactic(auto)]

mod laws;

pub use laws::{line_is_true, printed_is_true, printed_is_well_formed, report_is_true};
