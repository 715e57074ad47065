// What is answered.

use pa_bland::Direction;
use pa_cert::Proofs;
use pa_row::{Broken, Point, Weights};

/// Whether a contract refines another one. Rows and points are over the first contract's ports.
#[derive(Drop)]
pub enum Refined {
    /// It does. There are weights for each of its assumptions over the other's assumptions, and for each guarantee of the
    /// other over the other's assumptions, followed by its own guarantees.
    Yes {
        assumptions: Proofs,
        guarantees: Proofs,
    },
    /// It does not: the point breaks an assumption of the first contract or a guarantee of the other. It meets the other's
    /// assumptions, and where it breaks a guarantee, the first contract's guarantees too.
    No {
        of: Broken,
        at: Point,
    },
}

/// The best value of a goal at the behaviours of a contract. Points and directions are over the contract's ports, weights
/// over its assumptions, followed by its guarantees.
#[derive(Drop)]
pub enum Bounded {
    /// The value `num / den`, which the weights bound and the point has.
    Value {
        num: i128,
        den: i128,
        weights: Weights,
        at: Point,
    },
    /// There is no best value: from the point on, the goal gets better for ever along the direction.
    Unbounded {
        at: Point,
        direction: Direction,
    },
    /// The contract has no behaviour: the weights prove `0 <= -1`.
    Nothing {
        weights: Weights,
    },
}
