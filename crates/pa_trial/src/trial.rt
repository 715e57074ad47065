// The trial of a list of rows: each is brought to the columns of the nominal point, up to the first for which that is not
// possible.
ghost use Rattle.std.specs.Prelude.{◌≡◌, ◌≤◌, IfOk, length};
ghost use Rattle.pa_math.specs.Answers.{IsAnswer};
ghost use Rattle.pa_meaning.specs.Rows.{front_row};
ghost use Rattle.pa_tableau.specs.Work.{HasRoom};
ghost use Rattle.pa_bland.specs.Seen.{KeepsRoom};
ghost use Rattle.pa_row.specs.declared.place.Halt.TheVariants as Halt;
ghost use Rattle.pa_trial.specs.Meant.{CanTry};
ghost use Rattle.pa_trial.specs.Trying as spec;

use pa_bland::Direction;
use pa_frac::Wide126;
use pa_row::{Halt, Row, Task, Weights};
use pa_shift::{Premises, Shifted, shift_in};
use pa_tableau::Work;
use std::alloc::{AllocError, Global};
use std::marker::Model;

/// What weights leave of rows over the columns of the nominal point, row by row, and the weights.
#[derive(Drop)]
pub struct Lefts {
    pub rows: Vec<Row>,
    pub weights: Vec<Weights>,
}

impl Model for Lefts {
    ghost use Rattle.pa_trial.specs.Lefts.{Lefts as LeftsValue};

    ghost Value = { LeftsValue };

    ghost view = { λ l. record { rows = l.rows.items; weights = l.weights.items } };
}

/// How a trial ends.
#[derive(Drop)]
pub enum Trial {
    /// All rows are brought to the columns of the nominal point.
    Through { lefts: Lefts },
    /// This row is the first for which no weights exist, as the direction over the other columns shows.
    Stopped { row: u32, direction: Direction },
}

/// Which rows are tried: those of a part over the guarantees of the parts that were discharged before a round, or over those of
/// all parts. It tells the task of each row.
#[derive(Clone, Copy)]
pub enum Turn {
    InRound { round: u32 },
    Whole,
}

// The task of a row in a trial.
fn task_of(turn: Turn, part: u32, row: u32) -> Task
    ensures { result ≡ spec.task_of turn part row }
{
    match turn {
        Turn::InRound { round } => Task::Shift { round, part, row },
        Turn::Whole => Task::Whole { part, row },
    }
}

// The row over its first columns.
fn front(mut row: Row, columns: usize) -> Row
    requires { columns ≤ length row.c }
    ensures { result ≡ front_row columns row }
{
    row.c.truncate(columns);
    row
}

// What is left so far, and of one row more.
fn with_left(
    mut lefts: Lefts,
    row: Row,
    columns: usize,
    weights: Weights,
) -> Result<Lefts, AllocError>
    requires { columns ≤ length row.c }
    ensures { IfOk result (λ more. more ≡ spec.with_left columns lefts row weights) }
{
    lefts.rows.push(front(row, columns))?;
    lefts.weights.push(weights)?;
    Ok(lefts)
}

/// Tries rows: each is brought to the columns of the nominal point by weights over the premises ([`shift_in`]; Farkas 1902), up
/// to the first for which no weights exist. Premises and rows have this many columns, at most 128, of which the nominal point
/// has the first; there are at most 4,096 of each, the work has room, and `most` is at most 4,096.
///
/// `PivotLimit` and `Wide` name the task of the row, which the turn and the part tell, as [`shift_in`] does; they come of the
/// first row where they do. `Memory` where memory runs out.
pub fn tried(
    alloc: Global,
    work: &mut Work<Wide126>,
    premises: &Premises,
    most: u32,
    turn: Turn,
    part: u32,
    terms: &[Row],
    columns: u32,
) -> Result<Trial, Halt>
    requires can { CanTry columns premises.now terms.now }
    requires room { HasRoom columns (length premises.now.rows) work.old }
    requires most { most ≤ 4096 }
    ensures room { KeepsRoom work.old work.new }
    ensures exact { IsAnswer Halt.Memory (spec.tried_of premises.now most turn part terms.now) result }
{
    let external = premises.nominal().p.len();
    let mut lefts = Lefts {
        rows: Vec::new(alloc),
        weights: Vec::new(alloc),
    };
    for place in 0..terms.len() {
        let task = task_of(turn, part, place as u32);
        match shift_in(alloc, work, premises, &terms[place], most, task) {
            Ok(Shifted::Term { row, weights }) => {
                lefts = match with_left(lefts, row, external, weights) {
                    Ok(more) => more,
                    Err(_) => return Err(Halt::Memory),
                };
            }
            Ok(Shifted::Ray { direction }) => {
                return Ok(Trial::Stopped {
                    row: place as u32,
                    direction,
                });
            }
            Err(halt) => return Err(halt),
        }
    }
    Ok(Trial::Through { lefts })
}
