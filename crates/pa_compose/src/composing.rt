// The composite of parts.
ghost use Rattle.std.specs.Prelude.{◌≡◌, ◌≤◌, ◌+◌, [], All, Err, IfErr, IfOk, None, length, sum_by};
ghost use Rattle.pa_math.specs.Answers.{IsAnswer, told_as};
ghost use Rattle.pa_tableau.specs.Work.{HasRoom};
ghost use Rattle.pa_bland.specs.Seen.{KeepsRoom};
ghost use Rattle.pa_witness.specs.Steps.{Two};
ghost use Rattle.pa_contract.specs.Merge.{row_count};
ghost use Rattle.pa_contract.specs.WellFormed.{IsWellFormed};
ghost use Rattle.pa_meaning.specs.Composition.{IsComposite, names_of as names_of_parts};
ghost use Rattle.pa_holds.specs.Composed.{HoldsAsComposed, all_guarantees as all_guarantees_of};
ghost use Rattle.pa_holds.specs.Refusals.{due_compose};
ghost use Rattle.pa_discharge.specs.Discharging.{discharged_of};
ghost use Rattle.pa_discharge.specs.Meant.{AreDischargedAt, AreExactAtNominal, AreRounds};
ghost use Rattle.pa_compose.specs.Composing as spec;
ghost use Rattle.pa_compose.specs.Composite.{IsTrueRefusal};
ghost use Rattle.pa_compose.specs.Limited.{ComposesByFewBases};
ghost use Rattle.pa_row.specs.declared.place.Place.{Place};
ghost use Rattle.pa_compose.specs.Seen.{CanCompose, IsFound};

use crate::compose_fault::{ComposeFault, discharge_fault, elim_fault, halted, ports_fault};
use crate::gone::columns_of;
use crate::steps::named;
use pa_cert::{Composed, Discharges, Drops};
use pa_contract::{Contract, MOST_ROWS, Nominal};
use pa_discharge::{Discharged, discharge};
use pa_elim::{Projected, eliminate};
use pa_farkas::{Thinned, thin_in};
use pa_frac::Wide126;
use pa_names::{Name, Names};
use pa_parts::{Parts, Ports, all_guarantees, ports_of};
use pa_row::{Group, Limits, Row};
use pa_tableau::Work;
use pa_trial::show_nominal;
use std::alloc::{AllocError, Global};
use std::marker::Model;

// What the parts come to: the discharges, the thinned assumptions and the guarantees.
#[derive(Drop)]
struct Found {
    discharged: Discharged,
    thinned: Thinned,
    projected: Projected,
}

impl Model for Found {
    ghost use Rattle.pa_compose.specs.Composing.{Found as FoundValue};

    ghost Value = { FoundValue };

    ghost view = { λ f. record { discharged = f.discharged; thinned = f.thinned; projected = f.projected } };
}

// The names of a list.
fn names_of(alloc: Global, list: &Names) -> Result<Vec<Name>, AllocError>
    ensures { IfOk result (λ names. names.items ≡ list.now) }
{
    let mut names = Vec::new(alloc);
    for place in 0..list.len() {
        let Ok(name) = list.at(place).copy(alloc) else {
            return Err(AllocError);
        };
        names.push(name)?;
    }
    Ok(names)
}

// What is left of the assumptions, without what the others imply.
fn assumptions_of(
    alloc: Global,
    work: &mut Work<Wide126>,
    rows: &[Row],
    columns: u32,
    most: u32,
) -> Result<Thinned, ComposeFault>
    requires columns { All (λ r. length r.c ≡ columns) rows.now }
    requires few { length rows.now ≤ 4096 }
    requires short { columns ≤ 128 }
    requires room { HasRoom columns (length rows.now) work.old }
    requires most { most ≤ 4096 }
    ensures { IsAnswer ComposeFault.Memory (spec.thinned_rows columns most rows.now) result }
{
    match thin_in(alloc, work, rows, &[], columns, most, Group::Thin) {
        Ok(thinned) => Ok(thinned),
        Err(halt) => Err(halted(halt)),
    }
}

// The guarantees of all parts without the internal outputs.
fn guarantees_of(
    alloc: Global,
    parts: &Parts,
    keep: &Names,
    ports: &Ports,
    limits: Limits,
) -> Result<Projected, ComposeFault>
    requires can { CanCompose parts.now keep.now ports.now }
    ensures { IsAnswer ComposeFault.Memory (spec.projected_rows ports.now limits.rows limits.pivots (length (names_of_parts parts.now)) (all_guarantees_of parts.now)) result }
{
    let columns = ports.external.len() + ports.outputs.len();
    let Ok(rows) = all_guarantees(alloc, parts, ports) else {
        return Err(ComposeFault::Memory);
    };
    let Ok(gone) = columns_of(alloc, &ports.outputs, &ports.internal, ports.external.len()) else {
        return Err(ComposeFault::Memory);
    };
    match eliminate(alloc, &rows, columns, &gone, limits) {
        Ok(projected) => Ok(projected),
        Err(fault) => Err(elim_fault(fault)),
    }
}

// The parts discharged, over a work that the thinning takes too.
fn discharged(
    alloc: Global,
    work: &mut Work<Wide126>,
    parts: &Parts,
    keep: &Names,
    ports: &Ports,
    nominal: &Nominal,
    most: u32,
) -> Result<Discharged, ComposeFault>
    requires can { CanCompose parts.now keep.now ports.now }
    requires room { HasRoom (length (names_of_parts parts.now)) (sum_by row_count parts.now) work.old }
    requires most { most ≤ 4096 }
    ensures room { KeepsRoom work.old work.new }
    ensures answer { IsAnswer ComposeFault.Memory (told_as spec.discharge_fault (discharged_of parts.now nominal.now most)) result }
    ensures truth { IfOk result (AreDischargedAt parts.now nominal.now) }
{
    match discharge(alloc, work, parts, ports, nominal, most) {
        Ok(discharged) => Ok(discharged),
        Err(fault) => Err(discharge_fault(fault)),
    }
}

// What the parts come to.
fn found_of(
    alloc: Global,
    parts: &Parts,
    keep: &Names,
    ports: &Ports,
    nominal: &Nominal,
    limits: Limits,
) -> Result<Found, ComposeFault>
    requires can { CanCompose parts.now keep.now ports.now }
    ensures { IsAnswer ComposeFault.Memory (spec.rows_of parts.now ports.now nominal.now limits.rows limits.pivots) result }
{
    let columns = ports.external.len() + ports.outputs.len();
    let Ok(mut work) = Work::new(alloc, columns, parts.row_count()) else {
        return Err(ComposeFault::Memory);
    };
    let most = limits.pivots;
    let discharged = discharged(alloc, &mut work, parts, keep, ports, nominal, most)?;
    let assumptions = &discharged.assumptions;
    let thinned = assumptions_of(alloc, &mut work, assumptions, ports.external.len(), most)?;
    let projected = guarantees_of(alloc, parts, keep, ports, limits)?;
    Ok(Found {
        discharged,
        thinned,
        projected,
    })
}

// The answer by what was found.
fn answered(alloc: Global, ports: Ports, found: Found) -> Result<Composed, AllocError>
    requires { IsFound ports found }
    ensures { IfOk result (λ answer. answer ≡ spec.answer_by ports found) }
{
    let Ports {
        external,
        kept,
        internal,
        ..
    } = ports;
    let Found {
        discharged,
        thinned,
        projected,
    } = found;
    let Projected { rows, steps } = projected;
    let names = names_of(alloc, &internal)?;
    let steps = named(alloc, &names, steps)?;
    let Thinned {
        rows: assumptions,
        drops,
    } = thinned;
    Ok(Composed {
        contract: Contract {
            inputs: external,
            outputs: kept,
            assumptions,
            guarantees: rows,
        },
        discharges: Discharges {
            parts: discharged.discharges,
        },
        thin: Drops { drops },
        steps,
    })
}

// The composite of parts that have these ports, and whose rows are few.
fn composed(
    alloc: Global,
    parts: &Parts,
    keep: &Names,
    ports: Ports,
    nominal: &Nominal,
    limits: Limits,
) -> Result<Composed, ComposeFault>
    requires can { CanCompose parts.now keep.now ports }
    ensures { IsAnswer ComposeFault.Memory (spec.composed_with parts.now ports nominal.now limits.rows limits.pivots) result }
{
    show_nominal(nominal);
    let found = found_of(alloc, parts, keep, &ports, nominal, limits)?;
    match answered(alloc, ports, found) {
        Ok(answer) => Ok(answer),
        Err(_) => Err(ComposeFault::Memory),
    }
}

// The composite or its refusal, without what is true of it.
fn composite(
    alloc: Global,
    parts: &Parts,
    keep: &Names,
    nominal: &Nominal,
    limits: Limits,
) -> Result<Composed, ComposeFault>
    requires few { length parts.now ≤ 32 }
    requires formed { All IsWellFormed parts.now }
    ensures { IsAnswer ComposeFault.Memory (spec.composed_of parts.now keep.now nominal.now limits.rows limits.pivots) result }
{
    let ports = match ports_of(alloc, parts, keep) {
        Ok(ports) => ports,
        Err(fault) => return Err(ports_fault(fault)),
    };
    let count = parts.row_count();
    if count > MOST_ROWS {
        return Err(ComposeFault::Load { count });
    }
    composed(alloc, parts, keep, ports, nominal, limits)
}

/// The composite of parts (Benveniste et al., Contracts for System Design): what the system assumes of its external inputs so
/// that each part's assumptions are met, and what it then guarantees at its external inputs and kept outputs. A behaviour
/// that meets the composite's assumptions and keeps each part meets each part's assumptions and guarantees. A behaviour meets
/// the composite's guarantees exactly where some values of the internal outputs make it meet all parts' guarantees.
///
/// The parts are discharged in rounds. In each, a part's assumptions are brought to the external inputs by weights over the
/// guarantees of the parts that were discharged in earlier rounds ([`pa_discharge::discharge`]; Farkas 1902), so that no part's
/// guarantees are used before its own assumptions are met. The weights are those of the least cost at the nominal values, at
/// which nothing is asked in vain; a name without a nominal value has 0. The assumptions are what is left, part by part,
/// thinned; the guarantees are those of all parts, with the internal outputs eliminated in order ([`pa_elim::eliminate`];
/// Fourier 1827, Motzkin 1936). The answer has the round and the weights of each part, the drops of the assumptions, and the
/// steps of the elimination: they show the composite by sums alone.
///
/// There are at most 32 parts. Refused, in this order, exactly where two parts make the same output (`PortClash`), where a
/// name that is to be kept is no output (`NotOutput`), where there are more than 128 names (`VariableLimit`), and where the
/// parts have more than 4,096 rows together (`Load`). Then, as they come: `Wide` at the nominal point; `PivotLimit` and
/// `Wide` at the shifts by round, part and row; where a round discharges no part, `NoMultipliers` exactly where no weights
/// over all parts' guarantees bring an assumption to the external inputs, with the first one by part and row, and else
/// `Circle` with the parts that wait for one another, each with its first assumption that the discharged parts can't serve;
/// both with directions over the outputs that show it. Then `PivotLimit` and `Wide` at the thinning; and `RowLimit`,
/// `PivotLimit` and `Wide` at the elimination. `Memory` comes where memory runs out.
///
/// `PivotLimit` never comes where no problem has more bases than the limit: neither one of all guarantees with a column for
/// each output, nor one of all assumptions over the external inputs, nor those of the elimination.
pub fn compose(
    alloc: Global,
    parts: &Parts,
    keep: &Names,
    nominal: &Nominal,
    limits: Limits,
) -> Result<Composed, ComposeFault>
    requires few { length parts.now ≤ 32 }
    ensures answer { IsAnswer ComposeFault.Memory (spec.composed_of parts.now keep.now nominal.now limits.rows limits.pivots) result }
    ensures truth { IfOk result (λ answer. IsComposite parts.now keep.now answer.contract) }
    ensures printed { IfOk result (HoldsAsComposed Two limits.rows parts.now keep.now) }
    ensures rounds { IfOk result (λ answer. AreRounds parts.now answer.discharges) }
    ensures nominal { IfOk result (λ answer. AreExactAtNominal parts.now nominal.now answer.discharges) }
    ensures refusals { IfErr result (IsTrueRefusal parts.now) }
    ensures refused { IfOk result (λ _. due_compose parts.now keep.now ≡ None) }
    ensures unlimited { ComposesByFewBases parts.now keep.now limits.rows limits.pivots
        → (place : Place) → result ≡ Err (ComposeFault.PivotLimit place) → ⊥ }
{
    parts.show_formed();
    show_nominal(nominal);
    composite(alloc, parts, keep, nominal, limits)
}
