// A contract at a point.
ghost use Rattle.std.specs.Prelude.{◌≡◌, ◌≤◌, ◌<◌, ◌+◌, ◌^◌, ◌⊎◌, ℕ, length, map, All, IfOk, IfErr, position, Some, None, true, false};
ghost use Rattle.std.specs.List.{list_all};
ghost use Rattle.pa_math.specs.Answers.{IsAnswer};
ghost use Rattle.pa_meaning.specs.Contracts.{ports};
ghost use Rattle.pa_contract.specs.Testing as spec;

use crate::{Contract, TestFault};
use pa_frac::Wide;
use pa_row::{Place, Point, Row, Spot, Sub, Task};
use std::alloc::Global;
use std::marker::Model;

/// What a contract is at a point.
#[derive(Drop)]
pub struct Tested {
    /// Whether the point keeps the contract: where it meets all assumptions, it meets all guarantees.
    pub keeps: bool,
    /// Whether it meets each assumption.
    pub assumptions: Vec<bool>,
    /// Whether it meets each guarantee.
    pub guarantees: Vec<bool>,
}

impl Model for Tested {
    ghost use Rattle.pa_contract.specs.Testing.{Tested as TestedValue};

    ghost Value = { TestedValue };

    ghost view = { λ t. record { keeps = t.keeps; assumptions = t.assumptions.items; guarantees = t.guarantees.items } };
}

// Whether the point meets the row with this number.
#[tactic(auto, using(crate::proofs::Words::word_is, crate::proofs::Words::narrow_word, crate::proofs::Words::wide_word))]
fn word(row: &Row, at: &Point, number: u32) -> Result<bool, TestFault>
    requires { length row.now.c ≤ length at.now.p }
    ensures met { IfOk result (λ met. met ≡ spec.is_met at.now row.now) }
    ensures narrow { IfOk result (λ _. spec.passes_at at.now row.now ≡ false) }
    ensures wide { IfErr result (λ fault. (spec.passes_at at.now row.now ≡ true) × (fault ≡ TestFault.Wide (spec.sum_place number))) }
{
    match row.meets(at) {
        Ok(met) => Ok(met),
        Err(Wide) => Err(TestFault::Wide(Place {
            task: Task::Sum { row: number },
            sub: Sub::Main,
            spot: Spot::Check,
        })),
    }
}

// Whether the point meets each row, where the rows are numbered from `first` on.
fn words(alloc: Global, rows: &[Row], at: &Point, first: u32) -> Result<Vec<bool>, TestFault>
    requires columns { All (λ r. length r.c ≤ length at.now.p) rows.now }
    requires numbers { first + length rows.now < 2 ^ 32 }
    ensures met { IfOk result (λ list. list.items ≡ map (spec.is_met at.now) rows.now) }
    ensures narrow { IfOk result (λ _. position (spec.passes_at at.now) rows.now ≡ None) }
    ensures wide { IfErr result (λ fault. (fault ≡ TestFault.Memory) ⊎ ((row : ℕ) × (position (spec.passes_at at.now) rows.now ≡ Some row)
        × (fault ≡ TestFault.Wide (spec.sum_place (first + row))))) }
{
    let Ok(mut list) = Vec::with_capacity(alloc, rows.len()) else {
        return Err(TestFault::Memory);
    };
    let mut number = first;
    for row in rows {
        match word(row, at, number) {
            Ok(met) => {
                if list.push(met).is_err() {
                    return Err(TestFault::Memory);
                }
            }
            Err(fault) => return Err(fault),
        }
        number += 1;
    }
    Ok(list)
}

// Whether all words are true.
fn all_true(words: &[bool]) -> bool
    ensures { result ≡ list_all (λ b. b) words.now }
{
    words.iter().all(|word| *word)
}

// Whether the second words are all true where the first are.
fn keeps_by(assumptions: &[bool], guarantees: &[bool]) -> bool
    ensures { result ≡ spec.keeps_word assumptions.now guarantees.now }
{
    !all_true(assumptions) || all_true(guarantees)
}

// The words of both lists, and whether the second is met where the first is.
fn rows_tested(
    alloc: Global,
    assumptions: &[Row],
    guarantees: &[Row],
    at: &Point,
) -> Result<Tested, TestFault>
    requires assumption_columns { All (λ r. length r.c ≤ length at.now.p) assumptions.now }
    requires guarantee_columns { All (λ r. length r.c ≤ length at.now.p) guarantees.now }
    requires few_assumptions { length assumptions.now < 2 ^ 24 }
    requires few_guarantees { length guarantees.now < 2 ^ 24 }
    ensures { IsAnswer TestFault.Memory (spec.rows_tested assumptions.now guarantees.now at.now) result }
{
    let first = assumptions.len() as u32;
    let assumptions = match words(alloc, assumptions, at, 0) {
        Ok(words) => words,
        Err(fault) => return Err(fault),
    };
    let guarantees = match words(alloc, guarantees, at, first) {
        Ok(words) => words,
        Err(fault) => return Err(fault),
    };
    Ok(Tested {
        keeps: keeps_by(&assumptions, &guarantees),
        assumptions,
        guarantees,
    })
}

/// Tests the contract at a point that has one number for each port: a word for each row, whether the
/// point meets it, and whether the point keeps the contract. An assumption is met by the inputs'
/// columns.
///
/// `Wide` exactly where the sums of a row pass 126 bits, with the first such row; the rows are numbered
/// through, assumptions first. The only other refusal is `Memory`.
pub fn test(alloc: Global, contract: &Contract, at: &Point) -> Result<Tested, TestFault>
    requires { length at.now.p ≡ length (ports contract.now) }
    ensures answer { IsAnswer TestFault.Memory (spec.tested contract.now at.now) result }
    ensures truth { IfOk result (spec.IsTested contract.now at.now) }
    ensures behaviours { IfOk result (spec.SaysOfBehaviours contract.now at.now) }
{
    rows_tested(alloc, &contract.assumptions, &contract.guarantees, at)
}
