// The places of columns that go, each in the list that is left when its turn comes.
ghost use Rattle.std.specs.Prelude.{◌≡◌, IfOk};
ghost use Rattle.pa_elim.specs.Projecting as spec;

use std::alloc::{AllocError, Global};

// Where a column stands once another one is out.
fn moved_up(gone: u32, column: u32) -> u32
    ensures { result ≡ spec.moved_up gone column }
{
    if gone < column { column - 1 } else { column }
}

// Where a column stands once these are out, one after another.
fn place_after(gone: &[u32], column: u32) -> u32
    ensures { result ≡ spec.place_after gone.now column }
{
    let mut place = column;
    for other in gone {
        place = moved_up(*other, place);
    }
    place
}

/// The place of each column in the list that is left when its turn comes.
pub(crate) fn places_in_turn(alloc: Global, gone: &[u32]) -> Result<Vec<u32>, AllocError>
    ensures { IfOk result (λ places. places.items ≡ spec.in_turn gone.now) }
{
    let mut places = Vec::with_capacity(alloc, gone.len())?;
    for i in 0..gone.len() {
        let place = place_after(&places, gone[i]);
        places.push_reserved(place);
    }
    Ok(places)
}
