//! What certificates say, and why they show what they are printed for: rows that are dropped, steps of an elimination,
//! shifts of terms, discharges of parts. Definitions and theorems alone: the functions of `laws` are empty, and each has a
//! theorem as its clause.
//!
//! A reader who believes `pa_meaning` need not believe this crate: what is defined here is how an answer is shown, never
//! what it means, and each theorem leads from the one to the other. Read `specs/Thinning` first, then `specs/Projection`.
#![tactic(auto)]

mod laws;

pub use laws::{
    circles_stay, columns_exact, discharged_parts_are_met, discharges_are_in_time,
    left_terms_are_enough, left_terms_are_exact_at_nominal, no_weights_where_stuck,
    points_are_behaviours, projection_exact, proved_rows_are_met, rows_keep_their_meaning,
    step_exact, stuck_guarantees_are_broken, stuck_rows_are_broken, thinning_exact,
};
