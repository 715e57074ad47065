// Lists within answers, each seen as a list or a record of lists.

use pa_names::Name;
use pa_row::{Discharge, Dropped, Point, Weights};
use std::marker::Model;

/// Weights in order, one for each row that is proved.
#[derive(Drop)]
pub struct Proofs {
    pub weights: Vec<Weights>,
}

impl Model for Proofs {
    ghost use Rattle.std.specs.Prelude.{List};
    ghost use Rattle.pa_meaning.specs.Weights.{Weights as WeightsValue};

    ghost Value = { List WeightsValue };

    ghost view = { λ p. p.weights.items };
}

/// A mark for each row of a list.
#[derive(Drop)]
pub struct Marks {
    pub marks: Vec<bool>,
}

impl Model for Marks {
    ghost use Rattle.std.specs.Prelude.{List, Bool};

    ghost Value = { List Bool };

    ghost view = { λ m. m.marks.items };
}

/// A point, by the names of its columns.
#[derive(Drop)]
pub struct Located {
    pub names: Vec<Name>,
    pub at: Point,
}

impl Model for Located {
    ghost use Rattle.pa_cert.specs.Lists.{Located as LocatedValue};

    ghost Value = { LocatedValue };

    ghost view = { λ l. record { names = l.names.items; at = l.at } };
}

/// A direction: the names with a number other than 0, and these numbers.
#[derive(Drop)]
pub struct Heading {
    pub names: Vec<Name>,
    pub numbers: Vec<i128>,
}

impl Model for Heading {
    ghost use Rattle.pa_cert.specs.Lists.{Heading as HeadingValue};

    ghost Value = { HeadingValue };

    ghost view = { λ h. record { names = h.names.items; numbers = h.numbers.items } };
}

/// Dropped rows in order.
#[derive(Drop)]
pub struct Drops {
    pub drops: Vec<Dropped>,
}

impl Model for Drops {
    ghost use Rattle.std.specs.Prelude.{List};
    ghost use Rattle.pa_row.specs.Steps.{Dropped as DroppedValue};

    ghost Value = { List DroppedValue };

    ghost view = { λ d. d.drops.items };
}

/// A step of an elimination: the name that goes, none for the given rows, and the rows that are dropped.
#[derive(Drop)]
pub struct NamedStep {
    pub name: Option<Name>,
    pub drops: Vec<Dropped>,
}

impl Model for NamedStep {
    ghost use Rattle.pa_cert.specs.Lists.{NamedStep as StepValue};

    ghost Value = { StepValue };

    ghost view = { λ s. record { name = s.name; drops = s.drops.items } };
}

/// The steps of an elimination in order.
#[derive(Drop)]
pub struct Steps {
    pub steps: Vec<NamedStep>,
}

impl Model for Steps {
    ghost use Rattle.std.specs.Prelude.{List};
    ghost use Rattle.pa_cert.specs.Lists.{NamedStep as StepValue};

    ghost Value = { List StepValue };

    ghost view = { λ s. s.steps.items };
}

/// How each part of a composition was discharged, in the order of the line.
#[derive(Drop)]
pub struct Discharges {
    pub parts: Vec<Discharge>,
}

impl Model for Discharges {
    ghost use Rattle.std.specs.Prelude.{List};
    ghost use Rattle.pa_row.specs.Steps.{Discharge as DischargeValue};

    ghost Value = { List DischargeValue };

    ghost view = { λ d. d.parts.items };
}

/// An assumption of a part that no weights give, and a direction that shows it. Parts and rows are counted
/// from 0.
#[derive(Drop)]
pub struct StuckRow {
    pub part: u32,
    pub row: u32,
    pub direction: Heading,
}

impl Model for StuckRow {
    ghost use Rattle.pa_cert.specs.Lists.{StuckRow as StuckValue};

    ghost Value = { StuckValue };

    ghost view = { λ s. record { part = s.part; row = s.row; direction = s.direction } };
}

/// Stuck rows in order.
#[derive(Drop)]
pub struct StuckRows {
    pub stuck: Vec<StuckRow>,
}

impl Model for StuckRows {
    ghost use Rattle.std.specs.Prelude.{List};
    ghost use Rattle.pa_cert.specs.Lists.{StuckRow as StuckValue};

    ghost Value = { List StuckValue };

    ghost view = { λ s. s.stuck.items };
}
