// The rounds in which parts are discharged.
ghost use Rattle.std.specs.Prelude.{◌≡◌, ◌≤◌, ◌<◌, ◌+◌, IfOk, Some, length, slice_get};
ghost use Rattle.pa_math.specs.Answers.{IsAnswer};
ghost use Rattle.pa_tableau.specs.Work.{HasRoom};
ghost use Rattle.pa_bland.specs.Seen.{KeepsRoom};
ghost use Rattle.pa_row.specs.declared.place.Halt.TheVariants as Halt;
ghost use Rattle.pa_discharge.specs.Discharging as spec;
ghost use Rattle.pa_trial.specs.Meant.{CanTry};
ghost use Rattle.pa_discharge.specs.Seen.{CanTryEach};

use pa_frac::Wide126;
use pa_row::{Halt, Row, Stuck};
use pa_shift::Premises;
use pa_tableau::Work;
use pa_trial::{Lefts, Trial, Turn, tried};
use std::alloc::{AllocError, Global};
use std::marker::Model;

/// The round in which a part is discharged, and what is left of its assumptions.
#[derive(Drop)]
pub(crate) struct Brought {
    pub(crate) round: u32,
    pub(crate) lefts: Lefts,
}

impl Model for Brought {
    ghost use Rattle.pa_discharge.specs.Rounds.{Brought as BroughtValue};

    ghost Value = { BroughtValue };

    ghost view = { λ b. record { round = b.round; lefts = b.lefts } };
}

/// How the parts stand, in order: none for a part that is not discharged.
#[derive(Drop)]
pub(crate) struct Standing {
    pub(crate) parts: Vec<Option<Brought>>,
}

impl Model for Standing {
    ghost use Rattle.std.specs.Prelude.{List, Option};
    ghost use Rattle.pa_discharge.specs.Rounds.{Brought as BroughtValue};

    ghost Value = { List (Option BroughtValue) };

    ghost view = { λ s. s.parts.items };
}

impl Standing {
    /// How many parts there are.
    pub(crate) fn len(&self) -> usize
        ensures { result ≡ length self.now }
    {
        self.parts.len()
    }

    /// How many parts are discharged.
    pub(crate) fn count(&self) -> usize
        ensures { result ≡ spec.discharged_count self.now }
    {
        self.parts.iter().filter(|part| part.is_some()).count()
    }

    /// Whether all are.
    pub(crate) fn are_discharged(&self) -> bool
        ensures { result ≡ spec.are_discharged self.now }
    {
        self.parts.iter().all(|part| part.is_some())
    }

    /// How the part at this place stands.
    pub(crate) fn at(&self, part: usize) -> &Option<Brought>
        requires { part < length self.now }
        ensures { slice_get self.now part ≡ Some result.now }
    {
        &self.parts[part]
    }
}

/// How the parts stand after a round, and the rows at which parts were stuck in it.
#[derive(Drop)]
pub(crate) struct AfterRound {
    pub(crate) standing: Standing,
    pub(crate) stuck: Vec<Stuck>,
}

impl Model for AfterRound {
    ghost use Rattle.pa_discharge.specs.Rounds.{AfterRound as AfterRoundValue};

    ghost Value = { AfterRoundValue };

    ghost view = { λ r. record { brought = r.standing; stuck = r.stuck.items } };
}

impl AfterRound {
    // How many parts had their turns.
    fn len(&self) -> usize
        ensures { result ≡ length self.now.brought }
    {
        self.standing.len()
    }
}

/// The assumptions of the parts over the names of the composition, part by part.
#[derive(Drop)]
pub(crate) struct Terms {
    pub(crate) parts: Vec<Vec<Row>>,
}

impl Model for Terms {
    ghost use Rattle.std.specs.Prelude.{List, map};
    ghost use Rattle.pa_meaning.specs.Rows.{Row as RowValue};

    ghost Value = { List (List RowValue) };

    ghost view = { λ t. map (λ v. v.items) t.parts.items };
}

impl Terms {
    /// The assumptions of the part at this place.
    pub(crate) fn at(&self, part: usize) -> &[Row]
        requires { part < length self.now }
        ensures { slice_get self.now part ≡ Some result.now }
    {
        &self.parts[part]
    }
}

// The round with one part more.
fn with_standing(mut found: AfterRound, part: Option<Brought>) -> Result<AfterRound, AllocError>
    ensures { IfOk result (λ r. r ≡ spec.with_standing found part) }
{
    found.standing.parts.push(part)?;
    Ok(found)
}

// How the next part comes out of its trial.
fn after_trial(
    found: AfterRound,
    round: u32,
    part: u32,
    trial: Trial,
) -> Result<AfterRound, AllocError>
    ensures { IfOk result (λ r. r ≡ spec.after_trial round part found trial) }
{
    match trial {
        Trial::Through { lefts } => with_standing(found, Some(Brought { round, lefts })),
        Trial::Stopped { row, direction } => {
            let mut found = with_standing(found, None)?;
            found.stuck.push(Stuck {
                part,
                row,
                direction: direction.numbers,
            })?;
            Ok(found)
        }
    }
}

// The turn of the next part.
fn after_turn(
    alloc: Global,
    work: &mut Work<Wide126>,
    premises: &Premises,
    most: u32,
    round: u32,
    part: u32,
    terms: &[Row],
    columns: u32,
    found: AfterRound,
    before: Option<Brought>,
) -> Result<AfterRound, Halt>
    requires can { CanTry columns premises.now terms.now }
    requires room { HasRoom columns (length premises.now.rows) work.old }
    requires most { most ≤ 4096 }
    ensures room { KeepsRoom work.old work.new }
    ensures exact { IsAnswer Halt.Memory (spec.turn_of premises.now most round part terms.now found before) result }
{
    let next = match before {
        Some(brought) => with_standing(found, Some(brought)),
        None => {
            let turn = Turn::InRound { round };
            let trial = tried(alloc, work, premises, most, turn, part, terms, columns)?;
            after_trial(found, round, part, trial)
        }
    };
    match next {
        Ok(next) => Ok(next),
        Err(_) => Err(Halt::Memory),
    }
}

/// A round: each part that is not discharged is tried over the premises, which are the guarantees of the parts that are.
pub(crate) fn round_of(
    alloc: Global,
    work: &mut Work<Wide126>,
    premises: &Premises,
    most: u32,
    round: u32,
    terms: &Terms,
    columns: u32,
    standing: Standing,
) -> Result<AfterRound, Halt>
    requires parts { length standing ≤ length terms.now }
    requires count { length standing ≤ 32 }
    requires can { CanTryEach columns premises.now terms.now }
    requires room { HasRoom columns (length premises.now.rows) work.old }
    requires most { most ≤ 4096 }
    ensures room { KeepsRoom work.old work.new }
    ensures exact { IsAnswer Halt.Memory (spec.round_of premises.now most round terms.now standing) result }
{
    let mut found = AfterRound {
        standing: Standing {
            parts: Vec::new(alloc),
        },
        stuck: Vec::new(alloc),
    };
    for before in standing.parts {
        let part = found.len();
        let rows = terms.at(part);
        found = match after_turn(
            alloc,
            work,
            premises,
            most,
            round,
            part as u32,
            rows,
            columns,
            found,
            before,
        ) {
            Ok(next) => next,
            Err(halt) => return Err(halt),
        };
    }
    Ok(found)
}

// The row at which the trial of a part over all parts' guarantees ends, where it does.
fn whole_trial(
    alloc: Global,
    work: &mut Work<Wide126>,
    premises: &Premises,
    most: u32,
    part: u32,
    terms: &[Row],
    columns: u32,
) -> Result<Option<Stuck>, Halt>
    requires can { CanTry columns premises.now terms.now }
    requires room { HasRoom columns (length premises.now.rows) work.old }
    requires most { most ≤ 4096 }
    ensures room { KeepsRoom work.old work.new }
    ensures exact { IsAnswer Halt.Memory (spec.whole_trial premises.now most part terms.now) result }
{
    match tried(
        alloc,
        work,
        premises,
        most,
        Turn::Whole,
        part,
        terms,
        columns,
    )? {
        Trial::Through { .. } => Ok(None),
        Trial::Stopped { row, direction } => Ok(Some(Stuck {
            part,
            row,
            direction: direction.numbers,
        })),
    }
}

// The same of a part as it stands: one that is discharged is not tried.
fn whole_turn(
    alloc: Global,
    work: &mut Work<Wide126>,
    premises: &Premises,
    most: u32,
    part: u32,
    terms: &[Row],
    columns: u32,
    brought: &Option<Brought>,
) -> Result<Option<Stuck>, Halt>
    requires can { CanTry columns premises.now terms.now }
    requires room { HasRoom columns (length premises.now.rows) work.old }
    requires most { most ≤ 4096 }
    ensures room { KeepsRoom work.old work.new }
    ensures exact { IsAnswer Halt.Memory (spec.whole_turn premises.now most part terms.now brought.now) result }
{
    match brought {
        Some(_) => Ok(None),
        None => whole_trial(alloc, work, premises, most, part, terms, columns),
    }
}

/// The first assumption of the parts that are not discharged for which no weights over the premises exist, which are the
/// guarantees of all parts.
pub(crate) fn first_stuck(
    alloc: Global,
    work: &mut Work<Wide126>,
    premises: &Premises,
    most: u32,
    terms: &Terms,
    columns: u32,
    standing: &Standing,
) -> Result<Option<Stuck>, Halt>
    requires parts { length standing.now ≤ length terms.now }
    requires count { length standing.now ≤ 32 }
    requires can { CanTryEach columns premises.now terms.now }
    requires room { HasRoom columns (length premises.now.rows) work.old }
    requires most { most ≤ 4096 }
    ensures room { KeepsRoom work.old work.new }
    ensures exact { IsAnswer Halt.Memory (spec.whole_from premises.now most 0 terms.now standing.now) result }
{
    for part in 0..standing.len() {
        let rows = terms.at(part);
        let brought = standing.at(part);
        match whole_turn(
            alloc,
            work,
            premises,
            most,
            part as u32,
            rows,
            columns,
            brought,
        ) {
            Ok(Some(stuck)) => return Ok(Some(stuck)),
            Ok(None) => {}
            Err(halt) => return Err(halt),
        }
    }
    Ok(None)
}
