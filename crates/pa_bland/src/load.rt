// A problem is written into a work.
ghost use Rattle.std.specs.Prelude.{◌≡◌, ◌≤◌, ◌<◌, ◌+◌, ◌-◌, ◌++◌, Ok, false, length, pos, replicate, take, neg_ℤ};
ghost use Rattle.std.specs.List.{slice_index_or};
ghost use Rattle.pa_ring.specs.Sums.{number_at};
ghost use Rattle.pa_frac.specs.Operations.{fraction_in, sum_in};
ghost use Rattle.pa_math.specs.Answers.{and_then};
ghost use Rattle.pa_math.specs.Rational.{whole};
ghost use Rattle.pa_frac.specs.Width.{Fits};
ghost use Rattle.pa_tableau.specs.Arithmetic.{at_width, left_by};
ghost use Rattle.pa_tableau.specs.Tableau.{line_at, told_at};
ghost use Rattle.pa_tableau.specs.Work.{HasRoom};
ghost use Rattle.pa_replay.specs.Problem.{cost_in, first_costs, is_turned as is_turned_in, loaded, loaded_line, loaded_numbers, numbers_of, turned_number};
ghost use Rattle.pa_bland.specs.Seen.{IsBegun, KeepsRoom, KeepsShape, valued_at, with_cell, with_line, with_sign};

use crate::LentProblem;
use pa_frac::{Fraction, Wide};
use pa_tableau::{WideAt, Work};

// Whether a line is turned: its target is negative.
fn is_turned(target: &[i128], line: usize) -> bool
    requires { line < length target.now }
    ensures { result ≡ is_turned_in target.now line }
{
    target[line] < 0
}

// A number by the sign of its line, which is -1 where the line is turned.
fn turned(target: &[i128], line: usize, number: i128) -> i128
    requires line { line < length target.now }
    requires narrow { Fits 126 number }
    ensures { result ≡ turned_number target.now line number }
{
    if is_turned(target, line) {
        -number
    } else {
        number
    }
}

// The number that a line begins with at a row: the row's number there, by the line's sign, or behind
// the lines of the columns the row's bound.
fn number_of(problem: &LentProblem, line: usize, row: usize) -> i128
    requires { row < length problem.now.rows }
    ensures { result ≡ number_at (numbers_of problem.now line) row }
{
    let own = problem.row(row);
    if line < problem.target().len() {
        turned(problem.target(), line, own.c[line])
    } else {
        own.b
    }
}

// Writes a whole number into a cell. Where it passes, the cell is told.
fn load_number<F: Fraction>(
    work: &mut Work<F>,
    line: u32,
    column: u32,
    number: i128,
) -> Result<(), WideAt>
    requires line { line < work.old.lines + 2 }
    requires column { column < work.old.columns }
    ensures exact { left_by result work.new ≡ and_then (told_at 0 line column (fraction_in F.WIDTH (whole number))) (λ q. Ok (with_cell work.old line column q)) }
    ensures shape { KeepsShape work.old work.new }
{
    match F::from_parts(number, 1) {
        Ok(value) => work.set(line, column, value),
        Err(Wide) => {
            return Err(WideAt {
                pivot: 0,
                row: line,
                column,
            });
        }
    }
    Ok(())
}

// Writes the whole numbers that a line begins with.
fn load_numbers<F: Fraction>(
    work: &mut Work<F>,
    problem: &LentProblem,
    line: u32,
) -> Result<(), WideAt>
    requires line { line < work.old.lines + 2 }
    requires place { line < length work.old.table.lines }
    requires columns { length problem.now.rows < work.old.columns }
    requires clear { line_at work.old.table line ≡ replicate work.old.columns (whole (pos 0)) }
    ensures exact { left_by result work.new ≡ and_then (loaded_numbers (at_width F.WIDTH) line (numbers_of problem.now line))
        (λ own. Ok (with_line work.old line (own ++ replicate (work.old.columns - length problem.now.rows) (whole (pos 0))))) }
    ensures shape { KeepsShape work.old work.new }
{
    for row in 0..problem.count() {
        let number = number_of(problem, line as usize, row as usize);
        load_number(work, line, row, number)?;
    }
    Ok(())
}

// Turns a line whose target is negative.
fn turn_line<F: Fraction>(work: &mut Work<F>, target: &[i128], line: u32)
    requires line { line < work.old.lines }
    requires place { line < length target.now }
    requires straight { slice_index_or work.old.table.turned line false ≡ false }
    ensures { work.new ≡ with_sign work.old line (is_turned_in target.now line) }
{
    if is_turned(target, line as usize) {
        work.turn(line);
    }
}

// Writes a line: the rows' numbers, 1 in its artificial column, and the target's number.
fn load_line<F: Fraction>(
    work: &mut Work<F>,
    problem: &LentProblem,
    line: u32,
) -> Result<(), WideAt>
    requires begun { IsBegun (length problem.now.target) (length problem.now.rows) work.old }
    requires line { line < length problem.now.target }
    requires lines { length work.old.table.lines ≡ length problem.now.target + 2 }
    requires clear { line_at work.old.table line ≡ replicate work.old.columns (whole (pos 0)) }
    requires straight { slice_index_or work.old.table.turned line false ≡ false }
    ensures exact { left_by result work.new ≡ and_then (loaded_line (at_width F.WIDTH) problem.now line)
        (λ cells. Ok (with_sign (with_line work.old line cells) line (is_turned_in problem.now.target line))) }
    ensures shape { KeepsShape work.old work.new }
{
    let target = problem.target();
    let lines = target.len() as u32;
    let rows = problem.count();
    turn_line(work, target, line);
    load_numbers(work, problem, line)?;
    work.set(line, rows + line, F::one());
    let value = turned(target, line as usize, target[line as usize]);
    load_number(work, line, lines + rows, value)
}

// The sum of a column so far and a cell of it. Where it passes, the place of the sum is told.
fn added<F: Fraction>(sum: F, cell: F, row: u32, column: u32) -> Result<F, WideAt>
    ensures { valued_at F.value result ≡ told_at 0 row column (sum_in F.WIDTH (F.value sum) (F.value cell)) }
{
    match sum.add(cell) {
        Ok(next) => Ok(next),
        Err(Wide) => Err(WideAt {
            pivot: 0,
            row,
            column,
        }),
    }
}

// The sum of a column over the lines, from first to last, with the sign turned.
fn first_cost<F: Fraction>(work: &Work<F>, lines: u32, column: u32) -> Result<F, WideAt>
    requires lines { lines ≤ work.now.lines }
    requires place { lines ≤ length work.now.table.lines }
    requires column { column < work.now.columns }
    ensures { valued_at F.value result ≡ cost_in (at_width F.WIDTH) lines (take lines work.now.table.lines) column }
{
    let mut sum = F::zero();
    for line in 0..lines {
        sum = added(sum, work.cell(line, column), lines, column)?;
    }
    Ok(sum.neg())
}

// Writes cost row 1: minus the running sums of the lines, in the rows' columns and the value column.
fn load_first_costs<F: Fraction>(work: &mut Work<F>, lines: u32, rows: u32) -> Result<(), WideAt>
    requires begun { IsBegun lines rows work.old }
    requires lines { length work.old.table.lines ≡ lines + 2 }
    requires clear { line_at work.old.table lines ≡ replicate work.old.columns (whole (pos 0)) }
    ensures exact { left_by result work.new ≡ and_then (first_costs (at_width F.WIDTH) lines rows (take lines work.old.table.lines)) (λ line. Ok (with_line work.old lines line)) }
    ensures shape { KeepsShape work.old work.new }
{
    for column in 0..rows {
        let cost = first_cost(work, lines, column)?;
        work.set(lines, column, cost);
    }
    let value = first_cost(work, lines, lines + rows)?;
    work.set(lines, lines + rows, value);
    Ok(())
}

/// Writes the tableau of a problem: a line for each column of the rows, then cost row 1, the sum of
/// infeasibilities, and cost row 2, the bounds.
///
/// `WideAt` with pivot 0 names the first cell whose number passes: line by line, then cost row 2, then
/// the running sums of cost row 1. The condition is that the work has room.
pub(crate) fn load<F: Fraction>(work: &mut Work<F>, problem: &LentProblem) -> Result<(), WideAt>
    requires { HasRoom (length problem.now.target) (length problem.now.rows) work.old }
    ensures table { left_by result work.new.table ≡ loaded (at_width F.WIDTH) problem.now }
    ensures begun { IsBegun (length problem.now.target) (length problem.now.rows) work.new }
    ensures room { KeepsRoom work.old work.new }
{
    let lines = problem.target().len() as u32;
    let rows = problem.count();
    work.begin(lines, rows);
    for line in 0..lines {
        load_line(work, problem, line)?;
    }
    load_numbers(work, problem, lines + 1)?;
    load_first_costs(work, lines, rows)
}
