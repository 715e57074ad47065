// Nominal values.
ghost use Rattle.std.specs.Prelude.{◌≡◌};
ghost use Rattle.pa_row.specs.Fractions.{IsFraction};
ghost use Rattle.pa_contract.specs.Nominal as spec;

use pa_names::{Name, Names};
use std::marker::Model;

/// Nominal values of names: one fraction for each, by its numerator and its denominator, in lowest
/// terms, with a denominator of at least 1 and both numbers below `2^126` in absolute value.
#[derive(Drop)]
pub struct Nominal {
    /// The names.
    pub names: Names,
    /// The value of each name, in the same order.
    pub values: Vec<(i128, i128)>,
}

impl Model for Nominal {
    ghost use Rattle.pa_contract.specs.Nominal.{Nominal as NominalValue, IsNominal};

    ghost Value = { NominalValue };

    ghost view = { λ n. record { names = n.names; values = n.values.items } };

    ghost invariant = { λ n. IsNominal (record { names = n.names; values = n.values.items }) };
}

impl Nominal {
    /// The value of a name, by its numerator and its denominator. A name that is not there has 0.
    pub fn value_of(&self, name: &Name) -> (i128, i128)
        ensures numerator { result.0 ≡ (spec.value_of self.now name.now).0 }
        ensures denominator { result.1 ≡ (spec.value_of self.now name.now).1 }
    {
        match self.names.place(name) {
            Some(place) => self.values[place as usize],
            None => (0, 1),
        }
    }
}
