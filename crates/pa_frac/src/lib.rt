//! Fractions of whole numbers with a width in bits: each operation is exact, or says that a number
//! passes the width.
//!
//! Read `Fraction` first: its clauses name the exact value of each operation, and the numbers for
//! which it is `Wide`. `Wide126` and `Narrow62` are its types. `gcd`, `mul_whole` and `add_whole` are
//! the sums of whole numbers that it stands on. No call takes memory.
#![tactic(auto)]

mod arithmetic;
mod divisor;
mod fraction;
mod narrow62;
mod shared;
mod whole;
mod wide;
mod wide126;

pub use arithmetic::LowestTerms;
pub use divisor::gcd;
pub use fraction::Fraction;
pub use narrow62::Narrow62;
pub use shared::{common_divisor, divided};
pub use whole::{MOST_BITS, add_whole, bounded, mul_whole};
pub use wide::Wide;
pub use wide126::Wide126;

#[cfg(test)]
mod small20;
#[cfg(test)]
mod tests;
