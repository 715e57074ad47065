// A goal over the ports of a contract.
ghost use Rattle.std.specs.Prelude.{◌≡◌, ◌++◌, All, IfOk, ℤ, length, map, neg_ℤ, pos};
ghost use Rattle.pa_ring.specs.Sums.{number_at};
ghost use Rattle.pa_math.specs.Answers.{given};
ghost use Rattle.pa_row.specs.Width.{Fits};
ghost use Rattle.pa_meaning.specs.Contracts.{coefficient_at};
ghost use Rattle.pa_grammar.specs.Plains.{IsNarrowLinear};
ghost use Rattle.pa_script.specs.Ops.{IsGoal};
ghost use Rattle.pa_holds.specs.Bounded.{goal_row};
ghost use Rattle.pa_refine.specs.Bounding.{target_of};

use pa_contract::Contract;
use pa_grammar::Linear;
use pa_names::{Name, Names};
use std::alloc::{AllocError, Global};

/// Shows a proof that the goal's names are different, with a number each, over a positive denominator. Nothing is computed.
pub(crate) fn show_goal(goal: &Linear)
    ensures goal { IsGoal goal.now }
    ensures narrow { IsNarrowLinear goal.now }
{
    let _count = goal.names.len();
}

// The number at a place, 0 where there is none.
#[tactic(auto, using(pa_meaning::proofs::Places::number_at_read, pa_meaning::proofs::Places::number_at_past))]
fn number_at_place(goal: &Linear, place: Option<u32>) -> i128
    ensures value { result ≡ given (pos 0) place (number_at goal.now.c) }
    ensures narrow { Fits result }
{
    match place {
        Some(place) if (place as usize) < goal.c.len() => goal.c[place as usize],
        _ => 0,
    }
}

// The coefficient of a name, 0 where the goal has none.
fn number_of(goal: &Linear, name: &Name) -> i128
    ensures value { result ≡ coefficient_at goal.now.names goal.now.c name.now }
    ensures narrow { Fits result }
{
    number_at_place(goal, goal.names.place(name))
}

// The numbers, and then those of the ports.
fn with_numbers(
    mut numbers: Vec<i128>,
    ports: &Names,
    goal: &Linear,
) -> Result<Vec<i128>, AllocError>
    requires { All Fits numbers.items }
    ensures value { IfOk result (λ all. all.items ≡ numbers.items ++ map (coefficient_at goal.now.names goal.now.c) ports.now) }
    ensures narrow { IfOk result (λ all. All Fits all.items) }
{
    for place in 0..ports.len() {
        numbers.push(number_of(goal, ports.at(place)))?;
    }
    Ok(numbers)
}

/// The goal's coefficients over the ports of a contract, in their order.
pub(crate) fn goal_over(
    alloc: Global,
    contract: &Contract,
    goal: &Linear,
) -> Result<Vec<i128>, AllocError>
    ensures value { IfOk result (λ all. all.items ≡ goal_row contract.now goal.now) }
    ensures narrow { IfOk result (λ all. All Fits all.items) }
{
    let numbers = with_numbers(Vec::new(alloc), &contract.inputs, goal)?;
    with_numbers(numbers, &contract.outputs, goal)
}

// The number times -1.
fn opposite(number: i128) -> i128
    requires { Fits number }
    ensures { result ≡ neg_ℤ number }
{
    -number
}

// Each number times -1.
fn opposites(alloc: Global, numbers: &[i128]) -> Result<Vec<i128>, AllocError>
    requires { All Fits numbers.now }
    ensures { IfOk result (λ all. all.items ≡ map neg_ℤ numbers.now) }
{
    let mut opposites = Vec::with_capacity(alloc, numbers.len())?;
    for i in 0..numbers.len() {
        opposites.push_reserved(opposite(numbers[i]));
    }
    Ok(opposites)
}

/// What weights have to make of the rows: the goal's coefficients, or their negatives where the least value is sought.
pub(crate) fn target(alloc: Global, goals: &[i128], least: bool) -> Result<Vec<i128>, AllocError>
    requires { All Fits goals.now }
    ensures { IfOk result (λ all. all.items ≡ target_of least goals.now) }
{
    if least {
        opposites(alloc, goals)
    } else {
        Vec::from_slice(alloc, goals)
    }
}
