//! Times the simplex method: reads lines as `16 1 8 32 7 4096 3`, how many of 16 numbers are not 0 and how great they
//! are at most, numbers of columns and of rows, a seed, and numbers of pivots at most and of rounds. It solves the
//! problem of a line as often as there are rounds and once more, over one work, and prints how the last run ended.
#![tactic(auto)]

ghost use Rattle.std.specs.Prelude.{◌≤◌};

use pa_bland::{End, Problem, SolveFault, solve_in};
use pa_frac::{Fraction, Wide126};
use pa_row::Row;
use pa_tableau::Work;
use std::alloc::{AllocError, Global};
use std::io;

// Numbers in a sequence (G. Marsaglia's xorshift, 2003).
#[derive(Drop)]
struct Numbers {
    state: u64,
}

impl Numbers {
    fn next(&mut self) -> u64 {
        let a = self.state ^ (self.state << 13);
        let b = a ^ (a >> 7);
        self.state = b ^ (b << 17);
        self.state
    }

    // A number of at most `top` in absolute value: of every 16 numbers `filled` are not 0.
    fn number(&mut self, filled: u64, top: u64) -> i128
        requires { 1 ≤ top }
    {
        let state = self.next();
        if (state >> 20) % 16 >= filled {
            return 0;
        }
        let size = i128::from((state >> 40) % top) + 1;
        if state % 2 == 0 { size } else { -size }
    }
}

// A row that the point with 1, 0 and -1 in turn meets, by less than 9.
fn row_of(
    alloc: Global,
    numbers: &mut Numbers,
    columns: u32,
    filled: u64,
    top: u64,
) -> Result<Option<Row>, AllocError>
    requires { 1 ≤ top }
{
    let mut c = Vec::new(alloc);
    let mut b: i128 = 0;
    for column in 0..columns {
        let number = numbers.number(filled, top);
        c.push(number)?;
        b = b.wrapping_add(number.wrapping_mul(1 - i128::from(column % 3)));
    }
    b = b.wrapping_add(i128::from(numbers.next() % 9));
    Ok(Row::checked(c, b))
}

// The sum of the rows.
fn add_row(target: &mut [i128], row: &Row) {
    for (sum, number) in target.iter_mut().zip(&row.c) {
        *sum = sum.wrapping_add(*number);
    }
}

// A problem with a least value: the rows have a point, and their sum is the target.
fn problem_of(
    alloc: Global,
    numbers: &mut Numbers,
    columns: u32,
    rows: u32,
    filled: u64,
    top: u64,
) -> Result<Option<Problem>, AllocError>
    requires { 1 ≤ top }
{
    let mut target = Vec::from_elem(alloc, 0, columns as usize)?;
    let mut list = Vec::new(alloc);
    for _ in 0..rows {
        let Some(row) = row_of(alloc, numbers, columns, filled, top)? else {
            return Ok(None);
        };
        add_row(&mut target, &row);
        list.push(row)?;
    }
    Ok(Problem::checked(list, target))
}

// The runs on a problem, over one work.
fn solved(
    alloc: Global,
    problem: &Problem,
    most: u32,
    rounds: u32,
) -> Result<Result<End, SolveFault>, AllocError>
    requires most { most ≤ 4096 }
{
    let lines = problem.target.len() as u32;
    let rows = problem.rows.len() as u32;
    let mut work = Work::<Wide126>::new(alloc, lines, rows)?;
    for _ in 0..rounds {
        let _ = solve_in(&mut work, problem, most);
    }
    Ok(solve_in(&mut work, problem, most))
}

fn number(word: Option<&str>, most: u32) -> u32
    ensures { result ≤ most }
{
    match word.and_then(|word| word.parse::<u32>().ok()) {
        Some(n) => n.min(most),
        None => 0,
    }
}

fn main(rt: HostRuntime) -> io::Result<()> {
    for line in rt.lines(rt.alloc()) {
        let line = line?;
        let mut words = line.split_whitespace();
        let filled = u64::from(number(words.next(), 16));
        let top = u64::from(number(words.next(), 1_000).max(1));
        let columns = number(words.next(), 128);
        let rows = number(words.next(), 4096);
        let seed = number(words.next(), 1_000_000);
        let most = number(words.next(), 4096);
        let rounds = number(words.next(), 1_000_000);
        let mut numbers = Numbers {
            state: 88_172_645_463_325_252 ^ u64::from(seed),
        };
        let problem = problem_of(rt.alloc(), &mut numbers, columns, rows, filled, top)?;
        if let Some(problem) = problem {
            let end = solved(rt.alloc(), &problem, most, rounds)?;
            println!(rt; "{end:?}")?;
        }
    }
    Ok(())
}
