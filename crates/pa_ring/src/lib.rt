//! The laws of whole numbers and of commutative rings, and the tactics that close polynomial
//! facts. Proofs alone: nothing here runs.
#![tactic(auto)]
