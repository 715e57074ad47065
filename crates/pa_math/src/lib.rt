//! Words for answers and lists, divisors and fractions of any size. Definitions and proofs alone:
//! nothing here runs, and nothing here speaks of contracts.
#![tactic(auto)]
