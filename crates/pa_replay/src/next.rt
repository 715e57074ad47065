// What comes next in a phase of the simplex method.

/// What a phase does next.
#[derive(Clone, Copy, Debug, PartialEq, Eq)]
pub enum Next {
    /// Nothing: no column lowers the cost.
    Settled,
    /// The column lowers the cost without end.
    Falls(u32),
    /// A pivot on the column.
    Enters(u32),
}
