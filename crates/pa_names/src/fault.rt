// Why a call on names refuses.

use thiserror::Error;

/// Why a call on names refuses.
#[derive(Clone, Copy, Debug, PartialEq, Eq, Error)]
pub enum NameFault {
    /// Memory ran out.
    #[error("out of memory")]
    Memory,
    /// The bytes are no name.
    #[error("not a name")]
    Bad,
    /// The name is in the list already.
    #[error("the name is taken")]
    Taken,
    /// The list is as long as a list of names may be.
    #[error("too many names")]
    Limit,
}
