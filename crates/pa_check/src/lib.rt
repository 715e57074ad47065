//! The tests of a printed answer: whether weights, points, directions, drops and shifts hold as they are printed.
//! Each test forms its sums in one order, exact or `Wide`, and stops at the first that fails.
#![tactic(auto)]

mod direction;
mod drop;
mod goal;
mod located;
mod nothing;
mod point;
mod proving;
mod shift;
mod stuck;

pub use direction::{improves, sticks};
pub use drop::drops_hold;
pub use goal::{Value, point_has_value, weights_bound};
pub use located::is_at;
pub use nothing::shows_nothing;
pub use point::{breaks, meets_all};
pub use proving::{prove_each, proves};
pub use shift::shifts;
pub use stuck::are_stuck;
