// What is read at the ends of a run, in whole numbers.
ghost use Rattle.std.specs.Prelude.{◌≡◌, ◌≤◌, ◌<◌, Ok, Err, IfOk, length};
ghost use Rattle.pa_math.specs.Answers.{IsAnswer, told_as};
ghost use Rattle.pa_row.specs.Answers.{as_fault};
ghost use Rattle.pa_replay.specs.Readings.{IsAscending, endless_answer, least_answer, ray_read, weights_read};
ghost use Rattle.pa_replay.specs.Limits.{HasNoBasisTwice};
ghost use Rattle.pa_tableau.specs.Arithmetic.{at_width, exact};
ghost use Rattle.pa_tableau.specs.Work.{HasRoom};
ghost use Rattle.pa_bland.specs.declared.answer.SolveError.TheVariants as SolveError;
ghost use Rattle.pa_bland.specs.Answered.{IsReadable, IsUnlimited, Shows, answer_of, answer_read, as_error as as_error_of};
ghost use Rattle.pa_bland.specs.Seen.{IsBegun, KeepsRoom};

use crate::read::{direction, last_weights, point, ray_weights, value};
use crate::run::solve_lent;
use crate::{End, LentProblem, SolveFault};
use pa_frac::Fraction;
use pa_row::{RowFault, Weights};
use pa_tableau::{WideAt, Work};
use std::alloc::Global;
use std::marker::Model;

/// What is read at the least end: weights that combine the rows to the target, and a point that meets the
/// rows, both of one value. Each number is below `2^126` in absolute value.
#[derive(Drop)]
pub struct LeastAnswer {
    /// The weights of the rows.
    pub weights: Weights,
    /// The point's number in each column, by its numerator and denominator in lowest terms.
    pub point: Vec<(i128, i128)>,
    /// The numerator of the value.
    pub num: i128,
    /// The denominator of the value, which is at least 1.
    pub den: i128,
}

impl Model for LeastAnswer {
    ghost use Rattle.std.specs.Prelude.{All};
    ghost use Rattle.pa_replay.specs.Readings.{LeastRead};
    ghost use Rattle.pa_row.specs.Fractions.{IsFraction};

    ghost Value = { LeastRead };

    ghost view = { λ a. record { weights = a.weights; point = a.point.items; value = (a.num, a.den) } };

    ghost invariant = { λ a. All IsFraction a.point.items × IsFraction (a.num, a.den) };
}

/// What is read at an endless column: a ray whose combined row has coefficients 0 and a negative bound, and
/// weights that combine the rows to the target.
#[derive(Drop)]
pub struct EndlessAnswer {
    /// The ray.
    pub ray: Weights,
    /// The weights of the last tableau.
    pub last: Weights,
}

impl Model for EndlessAnswer {
    ghost use Rattle.pa_replay.specs.Readings.{EndlessRead};

    ghost Value = { EndlessRead };

    ghost view = { λ a. record { ray = a.ray; last = a.last } };
}

/// What is read where no weights exist: a direction in which no row rises and the target does, in whole
/// numbers without a common divisor, each below `2^126` in absolute value.
#[derive(Drop)]
pub struct Direction {
    /// The number of each column.
    pub numbers: Vec<i128>,
}

impl Model for Direction {
    ghost use Rattle.std.specs.Prelude.{All, List, ℤ};
    ghost use Rattle.pa_frac.specs.Width.{Fits};

    ghost Value = { List ℤ };

    ghost view = { λ d. d.numbers.items };

    ghost invariant = { λ d. All (Fits 126) d.numbers.items };
}

/// What a problem's answer is.
#[derive(Drop)]
pub enum Answer {
    /// Weights of the least sum of bounds, and a point that shows that there is none below.
    Least(LeastAnswer),
    /// No weights combine the rows to the target.
    NoWeights(Direction),
    /// The sum of bounds falls without end, so no point meets the rows.
    Endless(EndlessAnswer),
}

/// Where a number passed the width.
#[derive(Clone, Copy, Debug, PartialEq, Eq)]
pub enum Spot {
    /// At a cell of the run.
    Cell(WideAt),
    /// At what is read at the end.
    Read,
}

/// Why a problem has no answer.
#[derive(Clone, Copy, Debug, PartialEq, Eq)]
pub enum SolveError {
    /// Memory ran out.
    Memory,
    /// As many pivots were made as may be, and another one was to come.
    PivotLimit,
    /// A number passed the width.
    Wide(Spot),
}

// A fault of a reading, as one of the whole.
fn as_error(fault: RowFault) -> SolveError
    ensures { result ≡ as_error_of fault }
{
    match fault {
        RowFault::Memory => SolveError::Memory,
        RowFault::Wide => SolveError::Wide(Spot::Read),
    }
}

/// Reads the least end: the weights, the point and the value.
/// `Wide` exactly where the weights pass 126 bits over their common denominator.
pub(crate) fn least<F: Fraction>(
    alloc: Global,
    work: &Work<F>,
    lines: u32,
    rows: u32,
) -> Result<LeastAnswer, RowFault>
    requires begun { IsBegun lines rows work.now }
    requires ascending { IsAscending 0 rows (weights_read lines rows work.now.table) }
    ensures exact { IsAnswer RowFault.Memory (told_as as_fault (least_answer lines rows work.now.table)) result }
{
    let weights = last_weights(alloc, work, lines, rows)?;
    let Ok(point) = point(alloc, work, lines, rows) else {
        return Err(RowFault::Memory);
    };
    let (num, den) = value(work, lines, rows);
    Ok(LeastAnswer {
        weights,
        point,
        num,
        den,
    })
}

/// Reads the endless end: the ray, and then the last weights.
/// `Wide` exactly where one of them passes 126 bits over its common denominator.
pub(crate) fn endless<F: Fraction>(
    alloc: Global,
    work: &Work<F>,
    column: u32,
    lines: u32,
    rows: u32,
) -> Result<EndlessAnswer, RowFault>
    requires begun { IsBegun lines rows work.now }
    requires column { column < rows }
    requires ray_ascending { IsAscending 0 rows (ray_read lines rows column work.now.table) }
    requires last_ascending { IsAscending 0 rows (weights_read lines rows work.now.table) }
    ensures exact { IsAnswer RowFault.Memory (told_as as_fault (endless_answer lines rows column work.now.table)) result }
{
    let ray = ray_weights(alloc, work, column, lines, rows)?;
    let last = last_weights(alloc, work, lines, rows)?;
    Ok(EndlessAnswer { ray, last })
}

// Reads the end of a run.
fn read_end<F: Fraction>(
    alloc: Global,
    work: &Work<F>,
    end: End,
    lines: u32,
    rows: u32,
) -> Result<Answer, SolveError>
    requires begun { IsBegun lines rows work.now }
    requires ready { IsReadable lines rows end work.now.table }
    ensures exact { IsAnswer SolveError.Memory (answer_read lines rows (Ok end) work.now.table) result }
{
    match end {
        End::Least => match least(alloc, work, lines, rows) {
            Ok(read) => Ok(Answer::Least(read)),
            Err(fault) => Err(as_error(fault)),
        },
        End::NoWeights => match direction(alloc, work, lines, rows) {
            Ok(numbers) => Ok(Answer::NoWeights(Direction { numbers })),
            Err(fault) => Err(as_error(fault)),
        },
        End::Endless { column } => match endless(alloc, work, column, lines, rows) {
            Ok(read) => Ok(Answer::Endless(read)),
            Err(fault) => Err(as_error(fault)),
        },
    }
}

/// The answer to a problem that is lent, by a run over fractions of a type, and what is read at its end. One
/// work serves many problems. The conditions are that the work has room and that `most` is at most 4,096.
///
/// `PivotLimit` and `Wide` with a cell come exactly where they come of the run (`solve_in`), `Wide` with
/// `Read` exactly where a number that is read at the end passes 126 bits, and `Memory` where memory runs out.
/// No basis comes twice in a run, so `PivotLimit` never comes where `most_bases` of the numbers of rows and of
/// columns is at most `most`.
pub fn solve_answer<F: Fraction>(
    alloc: Global,
    work: &mut Work<F>,
    problem: &LentProblem,
    most: u32,
) -> Result<Answer, SolveError>
    requires room { HasRoom (length problem.now.target) (length problem.now.rows) work.old }
    requires most { most ≤ 4096 }
    ensures room { KeepsRoom work.old work.new }
    ensures exact { IsAnswer SolveError.Memory (answer_of (at_width F.WIDTH) problem.now most) result }
    ensures meaning { IfOk result (Shows problem.now) }
    ensures apart { HasNoBasisTwice exact problem.now }
    ensures unlimited { IsUnlimited problem.now most → result ≡ Err SolveError.PivotLimit → ⊥ }
{
    let lines = problem.target().len() as u32;
    let rows = problem.count();
    match solve_lent(work, problem, most) {
        Ok(end) => read_end(alloc, work, end, lines, rows),
        Err(SolveFault::PivotLimit) => Err(SolveError::PivotLimit),
        Err(SolveFault::Wide(wide)) => Err(SolveError::Wide(Spot::Cell(wide))),
    }
}
