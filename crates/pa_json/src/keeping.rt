// Rows as they are read.
ghost use Rattle.std.specs.Prelude.{◌≡◌, [], IfOk, length};
ghost use Rattle.pa_json.specs.Kept.{kept_with, kept_all};

use crate::limits::MOST_CONTRACT_ROWS;
use indexmap::IndexSet;
use pa_row::Row;
use std::alloc::{AllocError, Global};
use std::marker::Model;

/// Different rows in the order in which they first came. At most one more is kept than a contract
/// may have, so that a long list of rows over many ports takes little memory.
#[derive(Drop)]
pub(crate) struct Kept {
    rows: IndexSet<Row>,
}

impl Model for Kept {
    ghost use Rattle.std.specs.Prelude.{List};
    ghost use Rattle.pa_meaning.specs.Rows.{Row as RowValue};

    ghost Value = { List RowValue };

    ghost view = { λ k. k.rows.keys };
}

impl Kept {
    pub(crate) fn new(alloc: Global) -> Kept
        ensures { result ≡ [] }
    {
        Kept {
            rows: IndexSet::new(alloc),
        }
    }

    /// How many rows are kept.
    pub(crate) fn len(&self) -> usize
        ensures { result ≡ length self.now }
    {
        self.rows.len()
    }

    // With one more row, where it is new and there are not too many already.
    fn with(mut self, row: Row) -> Result<Kept, AllocError>
        ensures { IfOk result (λ more. more ≡ kept_with self row) }
    {
        if self.rows.len() <= MOST_CONTRACT_ROWS {
            self.rows.insert(row)?;
        }
        Ok(self)
    }

    /// With these rows.
    pub(crate) fn with_all(self, rows: Vec<Row>) -> Result<Kept, AllocError>
        ensures { IfOk result (λ more. more ≡ kept_all self rows.items) }
    {
        let mut kept = self;
        for row in rows {
            match kept.with(row) {
                Ok(more) => kept = more,
                Err(fault) => return Err(fault),
            }
        }
        Ok(kept)
    }

    /// The rows as a vector.
    pub(crate) fn into_rows(self, alloc: Global) -> Result<Vec<Row>, AllocError>
        ensures { IfOk result (λ rows. rows.items ≡ self) }
    {
        self.rows.into_iter().collect(alloc)
    }
}
