// Parts that are discharged, and what is left of their assumptions.
ghost use Rattle.std.specs.Prelude.{◌≡◌, ◌≤◌, Err, IfErr, IfOk, length, sum_by};
ghost use Rattle.std.specs.List.{IsDistinct};
ghost use Rattle.std.specs.Str.{bytes_eq};
ghost use Rattle.pa_math.specs.Answers.{IsAnswer};
ghost use Rattle.pa_tableau.specs.Work.{HasRoom};
ghost use Rattle.pa_bland.specs.Seen.{KeepsRoom};
ghost use Rattle.pa_farkas.specs.FewBases.{HasFewBases};
ghost use Rattle.pa_row.specs.declared.place.Place.{Place};
ghost use Rattle.pa_meaning.specs.Composition.{all_outputs, names_of};
ghost use Rattle.pa_contract.specs.Merge.{row_count};
ghost use Rattle.pa_holds.specs.Composed.{all_guarantees};
ghost use Rattle.pa_parts.specs.Composing.{ArePortsOf};
ghost use Rattle.pa_discharge.specs.Discharging as spec;
ghost use Rattle.pa_discharge.specs.Meant.{AreDischargedAt, IsTrueRefusal};
ghost use Rattle.pa_discharge.specs.Seen.{with_part as with_part_of};

use crate::composition::composition_of;
use crate::discharging::{Discharging, all_discharged};
use crate::fault::{DischargeFault, halted};
use crate::rounds::{Brought, Standing};
use pa_contract::Nominal;
use pa_frac::Wide126;
use pa_parts::{Parts, Ports};
use pa_row::{Discharge, Row};
use pa_tableau::Work;
use pa_trial::{Lefts, nominal_point, show_nominal};
use std::alloc::{AllocError, Global};
use std::marker::Model;

/// The round and the weights of each part, and what is left of the parts' assumptions over the external inputs, part by part.
#[derive(Drop)]
pub struct Discharged {
    pub discharges: Vec<Discharge>,
    pub assumptions: Vec<Row>,
}

impl Model for Discharged {
    ghost use Rattle.pa_discharge.specs.Rounds.{Discharged as DischargedValue};

    ghost Value = { DischargedValue };

    ghost view = { λ d. record { discharges = d.discharges.items; assumptions = d.assumptions.items } };
}

// What the parts so far leave, and one part more.
fn with_part(mut left: Discharged, part: Option<Brought>) -> Result<Discharged, AllocError>
    ensures { IfOk result (λ more. more ≡ with_part_of left part) }
{
    let Some(brought) = part else {
        return Ok(left);
    };
    let Brought { round, lefts } = brought;
    let Lefts { mut rows, weights } = lefts;
    left.discharges.push(Discharge {
        round,
        shifts: weights,
    })?;
    left.assumptions.append(&mut rows)?;
    Ok(left)
}

// What all parts leave.
fn discharged_by(alloc: Global, parts: Vec<Option<Brought>>) -> Result<Discharged, AllocError>
    ensures { IfOk result (λ left. left ≡ spec.discharged_by parts.items) }
{
    let mut left = Discharged {
        discharges: Vec::new(alloc),
        assumptions: Vec::new(alloc),
    };
    for part in parts {
        left = match with_part(left, part) {
            Ok(more) => more,
            Err(fault) => return Err(fault),
        };
    }
    Ok(left)
}

// The same, without what is true of it.
fn discharged_parts(
    alloc: Global,
    work: &mut Work<Wide126>,
    parts: &Parts,
    ports: &Ports,
    nominal: &Nominal,
    most: u32,
) -> Result<Discharged, DischargeFault>
    requires names { ArePortsOf parts.now ports.now }
    requires count { length parts.now ≤ 32 }
    requires few { sum_by row_count parts.now ≤ 4096 }
    requires short { length (names_of parts.now) ≤ 128 }
    requires room { HasRoom (length (names_of parts.now)) (length (all_guarantees parts.now)) work.old }
    requires most { most ≤ 4096 }
    ensures room { KeepsRoom work.old work.new }
    ensures exact { IsAnswer DischargeFault.Memory (spec.discharged_of parts.now nominal.now most) result }
{
    let point = match nominal_point(alloc, nominal, &ports.external) {
        Ok(point) => point,
        Err(halt) => return Err(halted(halt)),
    };
    let Ok(composition) = composition_of(alloc, parts, ports) else {
        return Err(DischargeFault::Memory);
    };
    let Discharging { standing, .. } = all_discharged(alloc, work, &composition, point, most)?;
    let Standing { parts: brought } = standing;
    match discharged_by(alloc, brought) {
        Ok(left) => Ok(left),
        Err(_) => Err(DischargeFault::Memory),
    }
}

/// The parts of a composition, discharged in rounds (the composition of Benveniste et al., Contracts for System Design). In each
/// round each part that is not discharged yet is tried over the guarantees of the parts that were discharged in the rounds
/// before it, and is discharged where weights over them bring each of its assumptions to the external inputs
/// ([`pa_shift::shift_in`]; Farkas 1902). So no part's guarantees are used before its own assumptions are met. The weights are
/// those of the least cost at the nominal values, at which nothing is asked in vain; a name without a nominal value has 0.
///
/// The names are those of [`pa_parts::ports_of`], and the work has room for them and for all parts' guarantees. `Wide` comes at
/// the nominal point; `PivotLimit` and `Wide` at the shifts by round, part and row. Where a round discharges no part,
/// `NoMultipliers` comes exactly where no weights over all parts' guarantees bring an assumption to the external inputs, with the
/// first one by part and row, and else `Circle` with the parts that wait for one another, each with its first assumption that the
/// discharged parts can't serve; both with directions over the outputs that show it. `Memory` comes where memory runs out.
/// `PivotLimit` never comes where a problem of all guarantees, with a column for each output, has no more bases than the limit.
pub fn discharge(
    alloc: Global,
    work: &mut Work<Wide126>,
    parts: &Parts,
    ports: &Ports,
    nominal: &Nominal,
    most: u32,
) -> Result<Discharged, DischargeFault>
    requires names { ArePortsOf parts.now ports.now }
    requires apart { IsDistinct bytes_eq (all_outputs parts.now) }
    requires count { length parts.now ≤ 32 }
    requires few { sum_by row_count parts.now ≤ 4096 }
    requires short { length (names_of parts.now) ≤ 128 }
    requires room { HasRoom (length (names_of parts.now)) (length (all_guarantees parts.now)) work.old }
    requires most { most ≤ 4096 }
    ensures room { KeepsRoom work.old work.new }
    ensures answer { IsAnswer DischargeFault.Memory (spec.discharged_of parts.now nominal.now most) result }
    ensures truth { IfOk result (AreDischargedAt parts.now nominal.now) }
    ensures refusals { IfErr result (IsTrueRefusal parts.now) }
    ensures unlimited { HasFewBases (length (all_guarantees parts.now)) (length (all_outputs parts.now)) most
        → (place : Place) → result ≡ Err (DischargeFault.PivotLimit place) → ⊥ }
{
    parts.show_formed();
    show_nominal(nominal);
    discharged_parts(alloc, work, parts, ports, nominal, most)
}
