// Problems with the answers of another program, which was written from the same description in Python.
ghost use Rattle.pa_tableau.specs.Work.{HasRoom};

use crate::small20::Small20;
use crate::{
    Answer, LentProblem, Problem, SolveError, Solved, Spot, most_bases, solve, solve_answer,
    solve_first,
};
use pa_frac::{Fraction, Wide126};
use pa_row::{Row, Weights};
use pa_tableau::Work;
use std::alloc::{AllocError, Global};
use std::fmt::Write;
use std::process::Abort;

fn number_of(rt: &impl Abort, text: &str) -> i128 {
    i128::from(text.parse::<i64>().expect(rt, "a number"))
}

// The row with the numbers of a text, of which the last is the bound.
fn row_of(rt: &impl Abort, alloc: Global, text: &str) -> Row {
    let (front, bound) = text.rsplit_once(' ').unwrap_or(("", text));
    let b = number_of(rt, bound);
    let c = numbers_of(rt, alloc, front);
    Row::checked(c, b).expect(rt, "a row")
}

fn numbers_of(rt: &impl Abort, alloc: Global, text: &str) -> Vec<i128> {
    let mut numbers = Vec::new(alloc);
    for word in text.split_whitespace() {
        numbers.push(number_of(rt, word)).expect(rt, "memory");
    }
    numbers
}

// The rows of a text, each behind a comma but the first.
fn rows_of(rt: &impl Abort, alloc: Global, text: &str) -> Vec<Row> {
    let mut rows = Vec::new(alloc);
    for part in text.split(',') {
        if !part.trim().is_empty() {
            rows.push(row_of(rt, alloc, part.trim()))
                .expect(rt, "memory");
        }
    }
    rows
}

// The problem of a text, as `1 0 3, -1 2 4 | 1 1`: the rows, and the target.
fn problem_of(rt: &impl Abort, alloc: Global, rows: &str, target: &str) -> Problem {
    Problem::checked(rows_of(rt, alloc, rows), numbers_of(rt, alloc, target)).expect(
        rt,
        "a problem",
    )
}

fn write_weights(text: &mut String, weights: &Weights) -> Result<(), AllocError> {
    let den = weights.den;
    write!(text, "{den}")?;
    for (place, number) in &weights.parts {
        write!(text, " {place}:{number}")?;
    }
    Ok(())
}

fn write_numbers(text: &mut String, numbers: &[i128]) -> Result<(), AllocError> {
    for number in numbers {
        write!(text, " {number}")?;
    }
    Ok(())
}

fn write_fractions(text: &mut String, fractions: &[(i128, i128)]) -> Result<(), AllocError> {
    for (num, den) in fractions {
        write!(text, " {num}/{den}")?;
    }
    Ok(())
}

// The answer, as `least 1 0:1; 1/1; 1/1`, `none 1` or `endless 1 0:1; 1`.
fn answer_text(alloc: Global, answer: &Answer) -> Result<String, AllocError> {
    let mut text = String::new(alloc);
    match answer {
        Answer::Least(least) => {
            text.push_str("least ")?;
            write_weights(&mut text, &least.weights)?;
            text.push(';')?;
            write_fractions(&mut text, &least.point)?;
            text.push(';')?;
            write_fractions(&mut text, &[(least.num, least.den)])?;
        }
        Answer::NoWeights(direction) => {
            text.push_str("none")?;
            write_numbers(&mut text, &direction.numbers)?;
        }
        Answer::Endless(endless) => {
            text.push_str("endless ")?;
            write_weights(&mut text, &endless.ray)?;
            text.push_str("; ")?;
            write_weights(&mut text, &endless.last)?;
        }
    }
    Ok(text)
}

fn error_text(alloc: Global, fault: SolveError) -> Result<String, AllocError> {
    match fault {
        SolveError::Memory => format!(in alloc; "memory"),
        SolveError::PivotLimit => format!(in alloc; "limit"),
        SolveError::Wide(Spot::Read) => format!(in alloc; "wide read"),
        SolveError::Wide(Spot::Cell(at)) => {
            let (pivot, row, column) = (at.pivot, at.row, at.column);
            format!(in alloc; "wide {pivot} {row} {column}")
        }
    }
}

fn solved_text(alloc: Global, solved: Result<Solved, SolveError>) -> Result<String, AllocError> {
    match solved {
        Ok(solved) => {
            let mut text = answer_text(alloc, &solved.answer)?;
            if !solved.first {
                text.push_str(" by the second")?;
            }
            Ok(text)
        }
        Err(fault) => error_text(alloc, fault),
    }
}

fn assert_solved(
    rt: &impl Abort,
    alloc: Global,
    solved: Result<Solved, SolveError>,
    wanted: &str,
    case: &str,
) {
    let text = solved_text(alloc, solved).expect(rt, "memory");
    assert_eq!(rt; text.as_str(), wanted, "{case}");
}

// Rows, the target, the number of pivots and the answer. Both phases, drive-outs of one column and of two, ties,
// degenerate bases and artificial columns that stay.
const PROBLEMS: &str = "\
1 1 | 1 | 1 | least 1 0:1; 1/1; 1/1
 | 1 | 0 | none 1
0 -1 | 0 | 0 | endless 1 0:1; 1
1 0 -1, 1 1 -1, 0 0 1, 0 1 1, -1 1 1, -1 0 -1 | 0 1 | 5 | endless 1 0:1 5:1; 1 1:1 5:1
0 1 0 -3, 0 3 -1 -2, 0 0 -3 -3, 0 -3 -3 3, 0 -1 2 0 | 0 2 -2 | 5 | endless 3 0:9 3:2 4:3; 3 0:12 3:2
-1 5 0 -5, 1 4 4 -3, 0 -5 5 -1, 5 0 4 -5, 1 0 -4 -4, -5 0 -2 -4 | -5 0 -2 | 7 | endless 5 3:11 4:5 5:12; 1 5:1
-2 0 4 2, -3 5 5 2, 0 0 -1 5, 0 0 -4 2, 3 2 1 1, 0 0 0 -5 | 0 0 0 | 7 | endless 1 5:1; 1
1 0 0 0, 0 0 0 -1, 1 0 -1 1, 1 0 -2 1 | 1 0 -2 | 4 | endless 1 1:1; 1 3:1
1 3 -4, 0 4 0, -1 0 1, 2 2 -5 | -5 2 | 5 | least 1 2:7 3:1; -1/1 -3/2; 2/1
2 0 0 3, 0 0 3 -2, 1 0 -1 1, 1 0 0 -3, 0 -1 0 3, 0 1 -2 1 | 0 3 -2 | 7 | least 3 1:4 5:9; -3/1 -1/3 -2/3; 1/3
1 0 5, 3 0 3, 4 0 -1, 1 0 -3, 0 0 4 | 0 0 | 4 | least 1; -3/1 0/1; 0/1
1 0 0 -5, 0 4 -1 4, 0 4 0 3, 0 1 4 -3, -2 0 1 -2 | 0 2 0 | 6 | least 2 0:2 1:1 4:1; -5/1 -2/1 -12/1; -4/1
3 3 0 0, 2 3 0 1, -2 2 1 1, 0 -3 0 2, 1 0 0 -2 | 0 0 0 | 6 | least 1; -2/1 -2/3 -5/3; 0/1
0 1 1, -1 0 3, -1 0 0, 0 1 -1 | 0 0 | 4 | least 1; 0/1 -1/1; 0/1
0 3 0 -1, 2 2 0 -1, 2 0 3 -3, -1 2 0 2, 0 2 3 -2 | 0 0 0 | 7 | least 1; -8/3 -1/3 -4/9; 0/1
-2 0 2 2, -1 0 2 -2, 0 0 1 -1 | 0 0 0 | 4 | least 1; 0/1 0/1 -1/1; 0/1
0 -1 3 -3, 3 -3 2 2, -3 0 0 -3, 2 -1 0 0 | 3 0 1 | 4 | none 3 6 2
3 -2 0 -5, 3 0 -4 5, 0 0 0 0, -2 -1 -5 -1 | 0 0 -3 | 3 | none -4 23 -3
-1 0 0 2, 1 2 0 -2, 0 1 2 -2 | 0 0 2 | 3 | none 4 -2 1
1 0 0 0, 0 1 0 0, 0 0 1 0, 1 2 0 -3, -8 -12 0 20, -2 -1 2 -1, 9 3 0 6 | 0 0 1 | 9 | least 4 0:3 3:1 5:2; 0/1 -3/2 -5/4; -5/4
-2 -1 2 -1, -2 1 -2 -1, -2 0 0 -2 | 0 0 0 | 3 | least 1; 1/1 1/1 0/1; 0/1
1 -2 -1 -2, 1 -2 0 -1 | 0 0 0 | 2 | least 1; -1/1 0/1 1/1; 0/1";

// The parts of a line of the table.
fn parts_of<'a>(line: &'a str) -> [&'a str; 4] {
    let (rows, more) = line.split_once(" | ").unwrap_or((line, ""));
    let (target, more) = more.split_once(" | ").unwrap_or((more, ""));
    let (most, wanted) = more.split_once(" | ").unwrap_or((more, ""));
    [rows, target, most, wanted]
}

// With as many pivots as the run makes the answer comes, and with one less the limit does.
fn assert_problem(rt: &impl Abort, alloc: Global, line: &str) {
    let [rows, target, most, wanted] = parts_of(line);
    let problem = problem_of(rt, alloc, rows, target);
    let most = u32::from(most.parse::<u8>().expect(rt, "a number"));
    assert_solved(rt, alloc, solve(alloc, &problem, most), wanted, line);
    if most > 0 {
        assert_solved(rt, alloc, solve(alloc, &problem, most - 1), "limit", line);
    }
}

#[test]
fn problems_have_the_answers_of_another_program(rt: HostRuntime) {
    for line in PROBLEMS.lines() {
        assert_problem(&rt, rt.alloc(), line);
    }
}

// Problems with the first cell whose number passes 20 bits: its pivot, its line and its column. In the load, with
// the bounds before the sums of cost row 1; in the ratios, which stand behind the value column; and in the pivot
// line, other lines and cost rows of pivots in both phases and of drive-outs.
const PASSING: &str = "\
1048576 0 | 0 | 9 | wide 0 0 0
1 0 | 1048576 | 9 | wide 0 0 2
667946 627294 1048576 | 0 1 | 9 | wide 0 3 0
667946 627294 1 | 0 1 | 9 | wide 0 2 0
1 0 1 | 615857 1007280 | 9 | wide 0 2 3
2 1 0 | 1 535918 | 9 | wide 1 1 4
2 997 1, 1 0 1, 1 217 0 | 427 1 | 9 | wide 3 1 6
23721 1 1, 0 5613 1 | 0 0 | 9 | wide 2 1 2
-1 490934 1 | 3 1 | 9 | wide 1 0 3
3 1 1, 818865 0 3 | 0 0 | 9 | wide 1 2 1
524 1 755, 1 3 0 | 1 1 | 9 | wide 2 3 2
0 -3 956584, -627197 1 3 | 0 0 | 9 | wide 2 1 2
1 -3 0, -926067 1 1 | 0 0 | 9 | wide 1 1 1
-2 3, -760449 1 | 0 | 9 | wide 1 2 1
0 1 1, 363564 273387 -3, 0 431547 1 | 0 1 | 9 | wide 3 1 3
1 297, 267 1 | 420 | 9 | wide 2 2 3
2 1 0 | 1 535918 | 0 | limit";

fn assert_passing(rt: &impl Abort, alloc: Global, line: &str) {
    let [rows, target, most, wanted] = parts_of(line);
    let problem = problem_of(rt, alloc, rows, target);
    let most = u32::from(most.parse::<u8>().expect(rt, "a number"));
    let solved = solve_first::<Small20, Small20>(alloc, &problem, most);
    assert_solved(rt, alloc, solved, wanted, line);
}

#[test]
fn the_first_number_that_passes_is_told_at_its_cell(rt: HostRuntime) {
    for line in PASSING.lines() {
        assert_passing(&rt, rt.alloc(), line);
    }
}

// The three weights have denominators of 62 bits without a common divisor.
#[test]
fn weights_that_pass_are_told_at_the_reading(rt: HostRuntime) {
    let rows = "4611686018427387903 0 0 0, 0 4611686018427387901 0 0, 0 0 4611686018427387899 0";
    let problem = problem_of(&rt, rt.alloc(), rows, "1 1 1");
    assert_solved(
        &rt,
        rt.alloc(),
        solve(rt.alloc(), &problem, 9),
        "wide read",
        rows,
    );
}

// The answer to the problem of a line comes over a work that served others before.
fn assert_served(rt: &impl Abort, alloc: Global, work: &mut Work<Wide126>, line: &str)
    requires { HasRoom 3 7 work.old }
    ensures { HasRoom 3 7 work.new }
{
    let [rows, target, _, wanted] = parts_of(line);
    let problem = problem_of(rt, alloc, rows, target);
    assert!(rt; problem.target.len() <= 3 && problem.rows.len() <= 7);
    let answer = solve_answer(alloc, work, &problem.lend(), 4096).expect(rt, "an answer");
    let text = answer_text(alloc, &answer).expect(rt, "memory");
    assert_eq!(rt; text.as_str(), wanted, "{line}");
}

#[test]
fn a_work_serves_many_problems(rt: HostRuntime) {
    let mut work = Work::<Wide126>::new(rt.alloc(), 3, 7).expect(&rt, "memory");
    for line in PROBLEMS.lines() {
        assert_served(&rt, rt.alloc(), &mut work, line);
    }
}

// The answer to a problem without the row at a place.
#[tactic(auto, using(crate::proofs::Omitted::no_more, crate::proofs::Omitted::posed_without))]
fn assert_without(rt: &impl Abort, alloc: Global, place: usize, wanted: &str) {
    let problem = problem_of(rt, alloc, "3 10, 2 5, 1 3", "6");
    assert!(rt; problem.target.len() <= 1 && problem.rows.len() <= 3);
    let mut work = Work::<Wide126>::new(alloc, 1, 3).expect(rt, "memory");
    let lent = LentProblem::new(&problem.rows, place, &problem.target);
    let answer = solve_answer(alloc, &mut work, &lent, 9).expect(rt, "an answer");
    let text = answer_text(alloc, &answer).expect(rt, "memory");
    assert_eq!(rt; text.as_str(), wanted, "{place}");
}

#[test]
fn a_row_is_left_out(rt: HostRuntime) {
    assert_without(&rt, rt.alloc(), 0, "least 1 0:3; 5/2; 15/1");
    assert_without(&rt, rt.alloc(), 1, "least 1 1:6; 3/1; 18/1");
    assert_without(&rt, rt.alloc(), 2, "least 1 1:3; 5/2; 15/1");
    assert_without(&rt, rt.alloc(), 3, "least 1 1:3; 5/2; 15/1");
}

#[test]
fn a_limit_of_as_many_pivots_as_bases_is_not_met(rt: HostRuntime) {
    assert_eq!(rt; most_bases(7, 3), 120);
    let rows = "1 0 0 0, 0 1 0 0, 0 0 1 0, 1 2 0 -3, -8 -12 0 20, -2 -1 2 -1, 9 3 0 6";
    let problem = problem_of(&rt, rt.alloc(), rows, "0 0 1");
    let wanted = "least 4 0:3 3:1 5:2; 0/1 -3/2 -5/4; -5/4";
    assert_solved(
        &rt,
        rt.alloc(),
        solve(rt.alloc(), &problem, 120),
        wanted,
        rows,
    );
}

// The answer of two types of fractions to `1048577 y <= 1`, whose number has 21 bits.
fn assert_first<N: Fraction, W: Fraction>(rt: &impl Abort, alloc: Global, wanted: &str) {
    let problem = problem_of(rt, alloc, "1048577 1", "1");
    let solved = solve_first::<N, W>(alloc, &problem, 10);
    assert_solved(rt, alloc, solved, wanted, "21 bits");
}

#[test]
fn the_first_fractions_decide_where_they_can(rt: HostRuntime) {
    let alloc = rt.alloc();
    let answer = "least 1048577 0:1; 1/1048577; 1/1048577";
    assert_first::<Wide126, Small20>(&rt, alloc, answer);
    let second = "least 1048577 0:1; 1/1048577; 1/1048577 by the second";
    assert_first::<Small20, Wide126>(&rt, alloc, second);
    assert_first::<Small20, Small20>(&rt, alloc, "wide 0 0 0");
    for (rows, wanted) in [
        ("1048577 1", answer),
        (
            "4611686018427387904 1",
            "least 4611686018427387904 0:1; 1/4611686018427387904; 1/4611686018427387904 by the second",
        ),
    ] {
        let problem = problem_of(&rt, alloc, rows, "1");
        assert_solved(&rt, alloc, solve(alloc, &problem, 10), wanted, rows);
    }
}
