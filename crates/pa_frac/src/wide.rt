// The answer of an operation whose numbers pass the width.

use thiserror::Error;

/// A named number of the operation reached `2 ^ WIDTH` in absolute value.
#[derive(Clone, Copy, Debug, PartialEq, Eq, Error)]
#[error("a number passes the width")]
pub struct Wide;
