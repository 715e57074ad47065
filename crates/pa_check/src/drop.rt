// Whether the drops of a thinning hold.
ghost use Rattle.std.specs.Prelude.{◌≡◌, ◌<◌, ◌≤◌, All, Decides, IfOk, length, take};
ghost use Rattle.pa_check.specs.Drops.{DropsStand, drop_in, drops_in, is_above, is_dropped, is_named_well, names_none};

use crate::proving::are_placed;
use pa_frac::Wide;
use pa_row::{Dropped, Row, covers, show_canonical_drops};

// Whether the place is above those of all these drops.
fn is_above_all(done: &[Dropped], place: u32) -> bool
    ensures { result ≡ is_above done.now place }
{
    done.iter().all(|e| e.row < place)
}

// Whether one of these drops has the place.
fn has_place(done: &[Dropped], place: u32) -> bool
    ensures { result ≡ is_dropped done.now place }
{
    done.iter().any(|e| place == e.row)
}

// Whether no weight names this place or that of one of these drops.
#[tactic(auto, using(crate::proofs::Turns::named_turn))]
fn is_named_by_none(done: &[Dropped], place: u32, parts: &[(u32, i128)]) -> bool
    ensures { result ≡ names_none done.now place parts.now }
{
    for (named, _) in parts {
        if *named == place || has_place(done, *named) {
            return false;
        }
    }
    true
}

// Whether the drop is in range and after these, and its weights name rows that are there.
fn is_well_named(rows: &[Row], own: usize, done: &[Dropped], drop: &Dropped) -> bool
    ensures { result ≡ is_named_well rows.now own done.now drop.now }
{
    (drop.row as usize) < own
        && is_above_all(done, drop.row)
        && are_placed(&drop.weights.parts, rows.len())
        && is_named_by_none(done, drop.row, &drop.weights.parts)
}

// Whether the drop holds after these.
#[tactic(auto, using(crate::proofs::Drops::in_range, crate::proofs::Drops::weights_placed, crate::proofs::Drops::same_as_row, crate::proofs::Drops::drop_answer))]
fn drop_holds(
    rows: &[Row],
    own: usize,
    done: &[Dropped],
    drop: &Dropped,
    columns: u32,
) -> Result<bool, Wide>
    requires columns { All (λ r. length r.c ≡ columns) rows.now }
    requires own { own ≤ length rows.now }
    ensures { result ≡ drop_in rows.now own done.now drop.now }
{
    if !is_well_named(rows, own, done, drop) {
        return Ok(false);
    }
    covers(rows, &rows[drop.row as usize], &drop.weights)
}

// Whether each drop holds after those before it.
#[tactic(auto, using(crate::proofs::Turns::drop_turn))]
fn all_drops_hold(rows: &[Row], own: usize, drops: &[Dropped], columns: u32) -> Result<bool, Wide>
    requires columns { All (λ r. length r.c ≡ columns) rows.now }
    requires own { own ≤ length rows.now }
    ensures { result ≡ drops_in rows.now own drops.now }
{
    for place in 0..drops.len() {
        if !drop_holds(rows, own, &drops[..place], &drops[place], columns)? {
            return Ok(false);
        }
    }
    Ok(true)
}

/// Whether rows may be dropped from a list: `rows` are the list's own rows, as many as `own`, and then
/// rows that stay. The drops ascend, each is a row of the list's own, and its weights prove it over the
/// rows and name neither it nor a row that was dropped before. The drops are tested in order; of each
/// first the place, then the places of its weights, then which rows these name, then the sums. `Wide`
/// exactly where a sum passes 126 bits before a test fails. All rows have this many columns.
pub fn drops_hold(rows: &[Row], own: usize, drops: &[Dropped], columns: u32) -> Result<bool, Wide>
    requires columns { All (λ r. length r.c ≡ columns) rows.now }
    requires own { own ≤ length rows.now }
    ensures answer { result ≡ drops_in rows.now own drops.now }
    ensures truth { IfOk result (λ passed. Decides passed (DropsStand rows.now own drops.now)) }
{
    show_canonical_drops(drops);
    all_drops_hold(rows, own, drops, columns)
}
