// Names that lists have, and names that they lack.
ghost use Rattle.std.specs.Prelude.{◌≡◌, not};
ghost use Rattle.std.specs.Option.{option_copied};
ghost use Rattle.pa_meaning.specs.Composition.{is_among};
ghost use Rattle.pa_holds.specs.Refusals.{first_missing};

use pa_names::{Name, Names};

/// Whether the list has the name.
#[tactic(auto, using(crate::proofs::Places::some_place))]
pub fn has(names: &Names, name: &Name) -> bool
    ensures { result ≡ is_among names.now name.now }
{
    names.place(name).is_some()
}

// Whether the list lacks the name.
fn lacks(names: &Names, name: &Name) -> bool
    ensures { result ≡ not (is_among names.now name.now) }
{
    !has(names, name)
}

/// The first of these names that the list lacks.
pub fn first_missing_name<'a>(names: &Names, asked: &'a Names) -> Option<&'a Name>
    ensures { option_copied result ≡ first_missing names.now asked.now }
{
    for place in 0..asked.len() {
        let name = asked.at(place);
        if lacks(names, name) {
            return Some(name);
        }
    }
    None
}
