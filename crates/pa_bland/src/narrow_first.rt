// The answer to a problem, over narrow fractions first.
ghost use Rattle.std.specs.Prelude.{◌≡◌, ◌≤◌, Err, IfOk, length};
ghost use Rattle.pa_math.specs.Answers.{IsAnswer, seen_as};
ghost use Rattle.pa_replay.specs.Limits.{HasNoBasisTwice};
ghost use Rattle.pa_replay.specs.Replay.{replay};
ghost use Rattle.pa_tableau.specs.Arithmetic.{at_width, exact};
ghost use Rattle.pa_bland.specs.declared.answer.SolveError.TheVariants as SolveError;
ghost use Rattle.pa_bland.specs.Answered.{IsUnlimited, Shows, answer_of, is_run, solved_of};

use crate::{Answer, Problem, SolveError, Spot, solve_answer};
use pa_frac::{Fraction, Narrow62, Wide126};
use pa_tableau::Work;
use std::alloc::Global;

/// The answer to a problem, and which run gave it.
#[derive(Drop)]
pub struct Solved {
    /// The answer.
    pub answer: Answer,
    /// Whether the run over the first type of fractions gave it.
    pub first: bool,
}

// The answer by a run over fractions of a type, in a work of its own.
#[tactic(auto, using(pa_replay::proofs::Replays::exact_apart))]
fn answer_over<F: Fraction>(
    alloc: Global,
    problem: &Problem,
    most: u32,
) -> Result<Answer, SolveError>
    requires most { most ≤ 4096 }
    ensures exact { IsAnswer SolveError.Memory (answer_of (at_width F.WIDTH) problem.now most) result }
    ensures meaning { IfOk result (Shows problem.now) }
    ensures apart { HasNoBasisTwice exact problem.now }
    ensures unlimited { IsUnlimited problem.now most → result ≡ Err SolveError.PivotLimit → ⊥ }
{
    let lines = problem.target.len() as u32;
    let rows = problem.rows.len() as u32;
    let Ok(mut work) = Work::<F>::new(alloc, lines, rows) else {
        return Err(SolveError::Memory);
    };
    solve_answer(alloc, &mut work, &problem.lend(), most)
}

/// The answer to a problem, by a run over fractions of the first type, and only where a number of that run
/// passes the first type's width by one over fractions of the second type. The condition is that `most` is at
/// most 4,096.
///
/// `first` is true exactly where the first run decides. `PivotLimit`, and `Wide` with a cell, come exactly
/// where they come of the run that decides (`solve_in`), `Wide` with `Read` exactly where a number that is read
/// at its end passes 126 bits, and `Memory` where memory runs out. `PivotLimit` never comes where `most_bases`
/// of the numbers of rows and of columns is at most `most`.
pub fn solve_first<N: Fraction, W: Fraction>(
    alloc: Global,
    problem: &Problem,
    most: u32,
) -> Result<Solved, SolveError>
    requires most { most ≤ 4096 }
    ensures exact { IsAnswer SolveError.Memory (solved_of (at_width N.WIDTH) (at_width W.WIDTH) problem.now most) result }
    ensures meaning { IfOk result (λ solved. Shows problem.now solved.answer) }
    ensures apart { HasNoBasisTwice exact problem.now }
    ensures unlimited { IsUnlimited problem.now most → result ≡ Err SolveError.PivotLimit → ⊥ }
{
    match answer_over::<N>(alloc, problem, most) {
        Ok(answer) => Ok(Solved {
            answer,
            first: true,
        }),
        Err(SolveError::Wide(Spot::Cell(_))) => match answer_over::<W>(alloc, problem, most) {
            Ok(answer) => Ok(Solved {
                answer,
                first: false,
            }),
            Err(fault) => Err(fault),
        },
        Err(fault) => Err(fault),
    }
}

/// The answer to a problem in fractions of 126 bits. It is found in fractions of 62 bits first, which no
/// answer and no refusal shows: a run without a number past 62 bits is the same over 126. The condition is that
/// `most` is at most 4,096.
///
/// `first` is true exactly where no number of the run passes 62 bits. The refusals are those of `solve_first`
/// where the run over 126 bits decides.
pub fn solve(alloc: Global, problem: &Problem, most: u32) -> Result<Solved, SolveError>
    requires most { most ≤ 4096 }
    ensures exact { IsAnswer SolveError.Memory (answer_of (at_width 126) problem.now most) (seen_as (λ solved. solved.answer) result) }
    ensures first { IfOk result (λ solved. solved.first ≡ is_run (replay (at_width 62) problem.now most)) }
    ensures meaning { IfOk result (λ solved. Shows problem.now solved.answer) }
    ensures apart { HasNoBasisTwice exact problem.now }
    ensures unlimited { IsUnlimited problem.now most → result ≡ Err SolveError.PivotLimit → ⊥ }
{
    solve_first::<Narrow62, Wide126>(alloc, problem, most)
}
