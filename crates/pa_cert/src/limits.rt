// The limits where no line sets them.

/// How many rows a step of an elimination has at most where no line says otherwise.
pub const FIRST_ROWS: u32 = 1024;

/// How many pivots a problem takes at most where no line says otherwise.
pub const FIRST_PIVOTS: u32 = 4096;
