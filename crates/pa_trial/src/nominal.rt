// Nominal values of names, and the point that they are.
ghost use Rattle.std.specs.Prelude.{◌≡◌, IfOk, map};
ghost use Rattle.pa_math.specs.Answers.{IsAnswer};
ghost use Rattle.pa_contract.specs.Nominal.{IsNominal, value_of};
ghost use Rattle.pa_row.specs.declared.place.Halt.TheVariants as Halt;
ghost use Rattle.pa_trial.specs.Trying as spec;

use pa_contract::Nominal;
use pa_farkas::wide_in;
use pa_names::Names;
use pa_row::{Halt, Point, RowFault, Spot, Sub, Task, point_of};
use std::alloc::{AllocError, Global};

/// Shows a proof that the nominal values are fractions, one for each name, as their type says. Nothing is computed.
pub fn show_nominal(nominal: &Nominal)
    ensures { IsNominal nominal.now }
{
    let _names = &nominal.names;
}

// The nominal values of these names.
fn nominal_values(
    alloc: Global,
    nominal: &Nominal,
    names: &Names,
) -> Result<Vec<(i128, i128)>, AllocError>
    ensures { IfOk result (λ values. values.items ≡ map (value_of nominal.now) names.now) }
{
    let mut values = Vec::new(alloc);
    for place in 0..names.len() {
        values.push(nominal.value_of(names.at(place)))?;
    }
    Ok(values)
}

/// The nominal values of these names as a point, in their order. A name without a nominal value has 0.
///
/// `Wide` exactly where the common denominator, which grows from left to right by least common multiples, or then a numerator
/// over it passes 126 bits; its place is the nominal point. `Memory` comes where memory runs out.
pub fn nominal_point(alloc: Global, nominal: &Nominal, names: &Names) -> Result<Point, Halt>
    ensures { IsAnswer Halt.Memory (spec.nominal_in nominal.now names.now) result }
{
    show_nominal(nominal);
    let Ok(values) = nominal_values(alloc, nominal, names) else {
        return Err(Halt::Memory);
    };
    match point_of(alloc, &values) {
        Ok(point) => Ok(point),
        Err(RowFault::Memory) => Err(Halt::Memory),
        Err(RowFault::Wide) => Err(wide_in(Task::Nominal, Sub::Main, Spot::Check)),
    }
}
