// Parallel rows by numbers.
ghost use Rattle.std.specs.Prelude.{◌≡◌, ◌<◌, ◌≤◌, ◌+◌, ℕ, IfOk, OnOk, Some, get_or, length};
ghost use Rattle.pa_meaning.specs.Rows as rows;
ghost use Rattle.pa_row.specs.Same.{same_row};
ghost use Rattle.pa_witness.specs.Equalities.{place_from};
ghost use Rattle.pa_fourier.specs.Groups as spec;

use indexmap::IndexSet;
use pa_row::Row;
use std::alloc::{AllocError, Global};

// The row's direction, as a row with bound 0.
fn direction(alloc: Global, row: &Row) -> Result<Row, AllocError>
    ensures { IfOk result (λ found. found ≡ spec.direction row.now) }
{
    let c = Vec::from_slice(alloc, &row.c)?;
    let mut found = Row { c, b: 0 };
    found.primitive();
    Ok(found)
}

// The place of the direction among those that are there, where it is added if it is new. The others
// keep their places.
fn group_of(directions: &mut IndexSet<Row>, direction: Row) -> Result<u32, AllocError>
    requires { length directions.old.keys < 4294967295 }
    ensures group { IfOk result (λ group. place_from (same_row direction) 0 directions.new.keys ≡ Some group) }
    ensures others { OnOk result ((d : rows.Row) (group : ℕ) → place_from (same_row d) 0 directions.old.keys ≡ Some group → place_from (same_row d) 0 directions.new.keys ≡ Some group) }
    ensures few { OnOk result (length directions.new.keys ≤ length directions.old.keys + 1) }
{
    let (group, _) = directions.insert_full(direction)?;
    Ok(group as u32)
}

/// A number for each row, the same for parallel rows.
pub(crate) fn groups_of(alloc: Global, rows: &[Row]) -> Result<Vec<u32>, AllocError>
    requires { length rows.now < 4294967295 }
    ensures groups { IfOk result (λ groups. spec.AreGroups rows.now groups.items) }
    ensures below { IfOk result (λ groups. (j : ℕ) → j < length groups.items → get_or groups.items j 0 < length groups.items) }
{
    let mut directions = IndexSet::new(alloc);
    let mut groups = Vec::with_capacity(alloc, rows.len())?;
    for row in rows {
        let direction = direction(alloc, row)?;
        let group = group_of(&mut directions, direction)?;
        groups.push_reserved(group);
    }
    Ok(groups)
}
