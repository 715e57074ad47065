// How great or small a goal is at the behaviours of a contract.
ghost use Rattle.std.specs.Prelude.{◌≡◌, ◌≤◌, ◌⊎◌, All, Err, IfErr, IfOk, IsSome, None, length};
ghost use Rattle.pa_math.specs.Answers.{IsAnswer};
ghost use Rattle.pa_frac.specs.Width.{Fits};
ghost use Rattle.pa_meaning.specs.Contracts.{ports};
ghost use Rattle.pa_contract.specs.Merge.{row_count};
ghost use Rattle.pa_holds.specs.Refusals.{due_bound, first_missing};
ghost use Rattle.pa_row.specs.declared.place.Place.{Place};
ghost use Rattle.pa_farkas.specs.FewBases.{HasFewBases};
ghost use Rattle.pa_refine.specs.Bounding as spec;
ghost use Rattle.pa_refine.specs.Meant.{HoldsAsBounded, IsTrueOfBounding};
ghost use Rattle.pa_refine.specs.Seen.{CanAsk, IsBest};

use crate::best::{Asked, best};
use crate::columns::{assumptions_over, joined, show_well_formed};
use crate::fault::bound_fault;
use crate::goal::{goal_over, show_goal, target};
use crate::names::first_missing_port;
use crate::{BoundFault, Bounded};
use pa_contract::{Contract, MOST_ROWS};
use pa_grammar::Linear;
use std::alloc::{AllocError, Global};

// The contract's rows and the goal, over the contract's ports.
fn over_ports(
    alloc: Global,
    contract: &Contract,
    goal: &Linear,
    least: bool,
) -> Result<Asked, AllocError>
    ensures value { IfOk result (λ asked. asked ≡ spec.asked_of contract.now goal.now least) }
    ensures narrow { IfOk result (λ asked. All (Fits 126) asked.goals) }
{
    let assumptions = assumptions_over(alloc, contract, contract)?;
    let rows = joined(alloc, assumptions, &contract.guarantees)?;
    let goals = goal_over(alloc, contract, goal)?;
    Ok(Asked {
        rows,
        goals,
        b: goal.b,
        q: goal.q,
        least,
    })
}

// The same of a contract with few rows, which can be asked about.
fn asked(
    alloc: Global,
    contract: &Contract,
    goal: &Linear,
    least: bool,
) -> Result<Asked, AllocError>
    requires few { row_count contract.now ≤ 4096 }
    ensures value { IfOk result (λ asked. asked ≡ spec.asked_of contract.now goal.now least) }
    ensures can { IfOk result CanAsk }
{
    show_well_formed(contract);
    show_goal(goal);
    over_ports(alloc, contract, goal, least)
}

// The best value, over one work.
fn best_over(
    alloc: Global,
    contract: &Contract,
    goal: &Linear,
    least: bool,
    most: u32,
) -> Result<Bounded, BoundFault>
    requires few { row_count contract.now ≤ 4096 }
    requires most { most ≤ 4096 }
    ensures exact { IsAnswer BoundFault.Memory (spec.bounded_rows contract.now goal.now least most) result }
    ensures shown { IfOk result (IsBest (spec.asked_of contract.now goal.now least)) }
{
    let Ok(asked) = asked(alloc, contract, goal, least) else {
        return Err(BoundFault::Memory);
    };
    let Ok(target) = target(alloc, &asked.goals, least) else {
        return Err(BoundFault::Memory);
    };
    match best(alloc, &asked, &target, most) {
        Ok(bounded) => Ok(bounded),
        Err(halt) => Err(bound_fault(halt)),
    }
}

// The best value of a goal that names ports alone, with what it means.
fn bounded(
    alloc: Global,
    contract: &Contract,
    goal: &Linear,
    least: bool,
    most: u32,
) -> Result<Bounded, BoundFault>
    requires known { first_missing (ports contract.now) goal.now.names ≡ None }
    requires few { row_count contract.now ≤ 4096 }
    requires most { most ≤ 4096 }
    ensures exact { IsAnswer BoundFault.Memory (spec.bounded_rows contract.now goal.now least most) result }
    ensures truth { IfOk result (IsTrueOfBounding contract.now goal.now least) }
    ensures printed { IfOk result (HoldsAsBounded contract.now goal.now least) }
    ensures unlimited { HasFewBases (row_count contract.now) (length (ports contract.now)) most
        → (place : Place) → result ≡ Err (BoundFault.PivotLimit place) → ⊥ }
{
    show_well_formed(contract);
    show_goal(goal);
    best_over(alloc, contract, goal, least, most)
}

/// The best value of a goal at the behaviours that meet a contract's assumptions and guarantees: the least where `least` is
/// true, else the greatest. A value has weights that bound it and a point that has it; where there is none, a point and a
/// direction along which the goal gets better for ever; where the contract has no behaviour, weights that prove `0 <= -1`
/// (duality of linear programming; D. Gale, H. W. Kuhn and A. W. Tucker, Linear Programming and the Theory of Games, 1951).
/// Points and directions are over the contract's ports, weights over its assumptions, followed by its guarantees. At most
/// `most` pivots are made for a problem, which are at most 4,096.
///
/// Refused, in this order, exactly where a name of the goal is no port (`UnknownPort`, the first such name), and where the
/// contract has more than 4,096 rows (`Load`); then `PivotLimit`, and `Wide` exactly where a number passes 126 bits: at a
/// cell of a problem's run, at what is read at its end, which is the value before the point, or at a sum that tests the
/// certificate. The task is `Goal`. `Memory` comes where memory runs out once names and rows refuse
/// nothing, or as the missing name is copied. `PivotLimit` never comes where `most_bases` of the numbers of rows and of ports
/// is at most `most`.
pub fn bound(
    alloc: Global,
    contract: &Contract,
    goal: &Linear,
    least: bool,
    most: u32,
) -> Result<Bounded, BoundFault>
    requires most { most ≤ 4096 }
    ensures answer { IsAnswer BoundFault.Memory (spec.bounded_of contract.now goal.now least most) result }
    ensures truth { IfOk result (IsTrueOfBounding contract.now goal.now least) }
    ensures printed { IfOk result (HoldsAsBounded contract.now goal.now least) }
    ensures refused { IfOk result (λ _. due_bound contract.now goal.now.names ≡ None) }
    ensures memory { IfErr result (λ fault. fault ≡ BoundFault.Memory
        → (due_bound contract.now goal.now.names ≡ None) ⊎ IsSome (first_missing (ports contract.now) goal.now.names)) }
    ensures unlimited { HasFewBases (row_count contract.now) (length (ports contract.now)) most
        → (place : Place) → result ≡ Err (BoundFault.PivotLimit place) → ⊥ }
{
    if let Some(name) = first_missing_port(contract, &goal.names) {
        return match name.copy(alloc) {
            Ok(name) => Err(BoundFault::UnknownPort { name }),
            Err(_) => Err(BoundFault::Memory),
        };
    }
    let count = contract.row_count();
    if count > MOST_ROWS {
        return Err(BoundFault::Load { count });
    }
    bounded(alloc, contract, goal, least, most)
}
