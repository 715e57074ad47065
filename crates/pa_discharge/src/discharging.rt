// The parts of a composition, discharged round by round.
ghost use Rattle.std.specs.Prelude.{◌≡◌, ◌≤◌, ◌+◌, All, IfOk, length, map};
ghost use Rattle.pa_math.specs.Answers.{IsAnswer, seen_as};
ghost use Rattle.pa_tableau.specs.Work.{HasRoom};
ghost use Rattle.pa_bland.specs.Seen.{KeepsRoom};
ghost use Rattle.pa_meaning.specs.Composition as meaning;
ghost use Rattle.pa_holds.specs.Composed.{all_guarantees as all_guarantees_of};
ghost use Rattle.pa_row.specs.declared.place.Halt.TheVariants as Halt;
ghost use Rattle.pa_parts.specs.Composing.{names_in};
ghost use Rattle.pa_discharge.specs.Discharging as spec;
ghost use Rattle.pa_discharge.specs.Seen.{CanDischarge, IsAfter, IsBefore, IsGrown, IsRefusal, IsStanding, after_part, asked_by, before, start_of};

use crate::composition::Composition;
use crate::fault::{DischargeFault, StuckParts, halted};
use crate::rounds::{AfterRound, Brought, Standing, first_stuck, round_of};
use pa_contract::Contract;
use pa_frac::Wide126;
use pa_parts::{Ports, guarantees_over};
use pa_row::{Halt, Point, Stuck};
use pa_shift::Premises;
use pa_tableau::Work;
use std::alloc::{AllocError, Global};
use std::marker::Model;

/// How the parts stand after some rounds, with the guarantees of those that are discharged.
#[derive(Drop)]
pub(crate) struct Discharging {
    pub(crate) standing: Standing,
    pub(crate) premises: Premises,
}

impl Model for Discharging {
    ghost use Rattle.pa_discharge.specs.Seen.{Discharging as DischargingValue};

    ghost Value = { DischargingValue };

    ghost view = { λ d. record { brought = d.standing; premises = d.premises } };
}

impl Discharging {
    // Whether all parts are discharged.
    fn is_done(&self) -> bool
        ensures { result ≡ spec.are_discharged self.now.brought }
    {
        self.standing.are_discharged()
    }
}

// Premises that are grown part by part, and how many rows of the parts so far are among them.
#[derive(Drop)]
struct Grown {
    premises: Premises,
    place: usize,
}

impl Model for Grown {
    ghost use Rattle.pa_discharge.specs.Seen.{Grown as GrownValue};

    ghost Value = { GrownValue };

    ghost view = { λ g. record { premises = g.premises; place = g.place } };
}

// The premises once the next part is passed: with its guarantees, where it was discharged in this round.
fn passed(
    alloc: Global,
    grown: Grown,
    part: &Contract,
    ports: &Ports,
    brought: &Option<Brought>,
    round: u32,
) -> Result<Grown, AllocError>
    requires place { grown.place ≤ length grown.premises.rows }
    requires few { grown.place + length part.now.guarantees ≤ 4096 }
    requires nominal { length grown.premises.nominal.p ≤ length (names_in ports.now) }
    ensures { IfOk result (λ next. next ≡ after_part ports.now round part.now brought.now grown) }
{
    let Some(brought) = brought else {
        return Ok(grown);
    };
    let Grown { premises, place } = grown;
    let count = part.guarantees.len();
    let premises = if brought.round == round {
        let rows = guarantees_over(alloc, part, ports)?;
        premises.with_rows(alloc, place, rows)?
    } else {
        premises
    };
    Ok(Grown {
        premises,
        place: place + count,
    })
}

// The premises with the guarantees of the parts that were discharged in this round, each at its place.
fn with_discharged(
    alloc: Global,
    premises: Premises,
    composition: &Composition,
    standing: &Standing,
    round: u32,
) -> Result<Premises, AllocError>
    requires can { CanDischarge composition.now }
    requires parts { length standing.now ≡ length composition.now.parts }
    requires nominal { length premises.nominal.p ≡ length (meaning.external_inputs composition.now.parts) }
    requires before { IsGrown composition.now.parts round standing.now premises }
    ensures { IfOk result (λ all. all ≡ spec.premises_of (asked_by composition.now premises.nominal 0) standing.now) }
{
    let mut grown = Grown { premises, place: 0 };
    for place in 0..composition.len() {
        let part = composition.part(place);
        let brought = standing.at(place);
        grown = match passed(alloc, grown, part, composition.ports(), brought, round) {
            Ok(next) => next,
            Err(fault) => return Err(fault),
        };
    }
    Ok(grown.premises)
}

// The guarantees of all parts, as premises.
fn whole_premises(
    alloc: Global,
    composition: &Composition,
    nominal: &Point,
) -> Result<Premises, AllocError>
    requires can { CanDischarge composition.now }
    requires nominal { length nominal.now.p ≡ length (meaning.external_inputs composition.now.parts) }
    ensures { IfOk result (λ all. all ≡ spec.whole_of (asked_by composition.now nominal.now 0)) }
{
    let Ok(nominal) = nominal.copy(alloc) else {
        return Err(AllocError);
    };
    let rows = composition.all_guarantees(alloc)?;
    Premises::new(alloc, nominal).with_rows(alloc, 0, rows)
}

// The first assumption of the undischarged parts for which no weights over all parts' guarantees exist.
fn first_without(
    alloc: Global,
    work: &mut Work<Wide126>,
    composition: &Composition,
    nominal: &Point,
    most: u32,
    standing: &Standing,
) -> Result<Option<Stuck>, Halt>
    requires can { CanDischarge composition.now }
    requires parts { length standing.now ≡ length composition.now.parts }
    requires nominal { length nominal.now.p ≡ length (meaning.external_inputs composition.now.parts) }
    requires room { HasRoom composition.now.columns (length (all_guarantees_of composition.now.parts)) work.old }
    requires most { most ≤ 4096 }
    ensures room { KeepsRoom work.old work.new }
    ensures exact { IsAnswer Halt.Memory (spec.whole_from (spec.whole_of (asked_by composition.now nominal.now most)) most 0 (spec.terms_of composition.now.parts) standing.now) result }
{
    let Ok(whole) = whole_premises(alloc, composition, nominal) else {
        return Err(Halt::Memory);
    };
    first_stuck(
        alloc,
        work,
        &whole,
        most,
        composition.terms(),
        composition.columns(),
        standing,
    )
}

// The refusal of a round that discharged no part.
fn no_discharge(
    alloc: Global,
    work: &mut Work<Wide126>,
    composition: &Composition,
    nominal: &Point,
    most: u32,
    standing: &Standing,
    stuck: StuckParts,
) -> DischargeFault
    requires can { CanDischarge composition.now }
    requires parts { length standing.now ≡ length composition.now.parts }
    requires nominal { length nominal.now.p ≡ length (meaning.external_inputs composition.now.parts) }
    requires room { HasRoom composition.now.columns (length (all_guarantees_of composition.now.parts)) work.old }
    requires most { most ≤ 4096 }
    ensures room { KeepsRoom work.old work.new }
    ensures exact { IsRefusal (spec.no_discharge (asked_by composition.now nominal.now most) standing.now stuck) result }
{
    match first_without(alloc, work, composition, nominal, most, standing) {
        Ok(Some(stuck)) => DischargeFault::NoMultipliers { stuck },
        Ok(None) => DischargeFault::Circle { stuck },
        Err(halt) => halted(halt),
    }
}

// A round over the guarantees of the parts that are discharged.
fn tried_round(
    alloc: Global,
    work: &mut Work<Wide126>,
    composition: &Composition,
    most: u32,
    round: u32,
    premises: &Premises,
    standing: Standing,
) -> Result<AfterRound, Halt>
    requires can { CanDischarge composition.now }
    requires standing { IsStanding composition.now round (record { brought = standing; premises = premises.now }) }
    requires room { HasRoom composition.now.columns (length (all_guarantees_of composition.now.parts)) work.old }
    requires most { most ≤ 4096 }
    ensures room { KeepsRoom work.old work.new }
    ensures exact { IsAnswer Halt.Memory (spec.round_of (spec.premises_of (asked_by composition.now premises.now.nominal most) standing) most round (spec.terms_of composition.now.parts) standing) result }
    ensures after { IfOk result (λ r. IsAfter round standing r.brought) }
{
    round_of(
        alloc,
        work,
        premises,
        most,
        round,
        composition.terms(),
        composition.columns(),
        standing,
    )
}

// How the parts stand after a round, or the refusal where it discharged none.
#[tactic(auto, using(crate::proofs::OneRound::refused_same))]
fn settled(
    alloc: Global,
    work: &mut Work<Wide126>,
    composition: &Composition,
    most: u32,
    round: u32,
    premises: Premises,
    count: usize,
    found: AfterRound,
) -> Result<Discharging, DischargeFault>
    requires can { CanDischarge composition.now }
    requires parts { length found.brought ≡ length composition.now.parts }
    requires rounds { All (IsBefore (round + 1)) found.brought }
    requires nominal { length premises.nominal.p ≡ length (meaning.external_inputs composition.now.parts) }
    requires grown { IsGrown composition.now.parts round found.brought premises }
    requires count { count ≡ spec.discharged_count (map (before round) found.brought) }
    requires room { HasRoom composition.now.columns (length (all_guarantees_of composition.now.parts)) work.old }
    requires most { most ≤ 4096 }
    ensures room { KeepsRoom work.old work.new }
    ensures exact { IsAnswer DischargeFault.Memory (spec.settled (asked_by composition.now premises.nominal most) (map (before round) found.brought) found) (seen_as (λ d. d.brought) result) }
    ensures standing { IfOk result (IsStanding composition.now (round + 1)) }
    ensures nominal { IfOk result (λ d. d.premises.nominal ≡ premises.nominal) }
{
    let AfterRound { standing, stuck } = found;
    if standing.count() == count {
        let stuck = StuckParts { stuck };
        return Err(no_discharge(
            alloc,
            work,
            composition,
            premises.nominal(),
            most,
            &standing,
            stuck,
        ));
    }
    match with_discharged(alloc, premises, composition, &standing, round) {
        Ok(premises) => Ok(Discharging { standing, premises }),
        Err(_) => Err(DischargeFault::Memory),
    }
}

// How the parts stand after one round more.
fn after_round(
    alloc: Global,
    work: &mut Work<Wide126>,
    composition: &Composition,
    most: u32,
    round: u32,
    before: Discharging,
) -> Result<Discharging, DischargeFault>
    requires can { CanDischarge composition.now }
    requires standing { IsStanding composition.now round before }
    requires room { HasRoom composition.now.columns (length (all_guarantees_of composition.now.parts)) work.old }
    requires most { most ≤ 4096 }
    ensures room { KeepsRoom work.old work.new }
    ensures exact { IsAnswer DischargeFault.Memory (spec.round_in (asked_by composition.now before.premises.nominal most) round before.brought) (seen_as (λ d. d.brought) result) }
    ensures standing { IfOk result (IsStanding composition.now (round + 1)) }
    ensures nominal { IfOk result (λ d. d.premises.nominal ≡ before.premises.nominal) }
{
    let Discharging { standing, premises } = before;
    let count = standing.count();
    match tried_round(alloc, work, composition, most, round, &premises, standing) {
        Ok(found) => settled(
            alloc,
            work,
            composition,
            most,
            round,
            premises,
            count,
            found,
        ),
        Err(halt) => Err(halted(halt)),
    }
}

// No part is discharged.
fn none_discharged(alloc: Global, count: usize, nominal: Point) -> Result<Discharging, AllocError>
    ensures { IfOk result (λ d. d ≡ start_of count nominal) }
{
    let mut parts = Vec::with_capacity(alloc, count)?;
    for _part in 0..count {
        parts.push(None)?;
    }
    Ok(Discharging {
        standing: Standing { parts },
        premises: Premises::new(alloc, nominal),
    })
}

/// The parts, all discharged. In each round each undischarged part is tried over the guarantees of the parts that were
/// discharged in the rounds before it, and is discharged where each of its assumptions can be brought to the external inputs.
/// So no part's guarantees are used before its own assumptions are met. The guarantees of discharged parts are held once, and
/// grow from round to round.
///
/// Where a round discharges none, `NoMultipliers` names the first assumption for which no weights over all parts' guarantees
/// exist, and where each assumption has some, `Circle` the parts that are not discharged, each with the row at which its
/// trial ended. Either has the directions over the outputs that show it.
pub(crate) fn all_discharged(
    alloc: Global,
    work: &mut Work<Wide126>,
    composition: &Composition,
    nominal: Point,
    most: u32,
) -> Result<Discharging, DischargeFault>
    requires can { CanDischarge composition.now }
    requires nominal { length nominal.p ≡ length (meaning.external_inputs composition.now.parts) }
    requires room { HasRoom composition.now.columns (length (all_guarantees_of composition.now.parts)) work.old }
    requires most { most ≤ 4096 }
    ensures room { KeepsRoom work.old work.new }
    ensures exact { IsAnswer DischargeFault.Memory (spec.brought_of (asked_by composition.now nominal most)) (seen_as (λ d. d.brought) result) }
{
    let count = composition.len();
    let mut state = match none_discharged(alloc, count, nominal) {
        Ok(state) => state,
        Err(_) => return Err(DischargeFault::Memory),
    };
    for round in 0..count {
        if state.is_done() {
            return Ok(state);
        }
        state = match after_round(alloc, work, composition, most, round as u32, state) {
            Ok(next) => next,
            Err(fault) => return Err(fault),
        };
    }
    Ok(state)
}
