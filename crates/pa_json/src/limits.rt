// How much a diagram may have.

/// How many bytes a diagram has at most.
pub const MOST_DIAGRAM_BYTES: u64 = 2_097_152;

/// How many bytes a diagram that is upgraded has at most.
pub const MOST_UPGRADE_BYTES: u64 = 1_048_576;

/// How many contracts, and how many parts, a diagram has at most.
pub(crate) const MOST_ITEMS: usize = 200;

/// How many ports a contract of a diagram of version 1 has at most.
pub(crate) const MOST_PORTS_FIRST: u32 = 64;

/// How many ports a contract of a diagram of version 2 has at most.
pub(crate) const MOST_PORTS_SECOND: u32 = 128;

/// How many rows a contract has at most, both lists together, equal rows of a list left out.
pub(crate) const MOST_CONTRACT_ROWS: usize = 256;
