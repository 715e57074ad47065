//! What is left to ask of the other parts of a system: the quotient of a contract by a part of it (Benveniste et al.,
//! Contracts for System Design).
//!
//! Read [`quotient`] first. Which answer it gives, and where a fault stands, is in `specs/Dividing`, what its refusals and
//! shifts say in `specs/Meant`; what holds of the answer as it is printed is in `pa_holds`, `specs/Divided`.
#![tactic(auto)]

mod dividing;
mod fault;
mod marks;
mod names;
mod over;

pub use dividing::quotient;
pub use fault::QuotientFault;

#[cfg(test)]
mod tests;
