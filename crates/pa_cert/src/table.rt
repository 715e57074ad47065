// The contracts by name, the nominal values, and the limits in force.
ghost use Rattle.std.specs.Prelude.{◌≡◌, OnOk, OnErr, length, option_map};
ghost use Rattle.pa_contract.specs.Named.{contract_named};
ghost use Rattle.pa_script.specs.Ops.{IsWellFormedOp, result_of};
ghost use Rattle.pa_cert.specs.Tables as spec;

use crate::limits::{FIRST_PIVOTS, FIRST_ROWS};
use crate::{Answer, LineAnswer};
use pa_contract::{Contract, Contracts, Named, Nominal};
use pa_names::Name;
use pa_row::Limits;
use pa_script::{Op, ScriptLine};
use std::alloc::{AllocError, Global};
use std::marker::Model;

/// The contracts by name, in the order in which they came, the nominal values, and the limits in force.
/// Each line of a script is answered over such a table, and its answer brings the table past the line.
#[derive(Drop)]
pub struct Table {
    contracts: Contracts,
    nominal: Nominal,
    limits: Limits,
}

impl Model for Table {
    ghost use Rattle.pa_cert.specs.Tables.{Table as TableValue};

    ghost Value = { TableValue };

    ghost view = { λ t. record { contracts = t.contracts; nominal = t.nominal; limits = record { rows = t.limits.rows; pivots = t.limits.pivots } } };
}

impl Table {
    /// The table of a diagram: its contracts, then its parts, and its nominal values, with the limits that
    /// no line has set. [`Contracts::with_all`] puts the parts behind the contracts.
    pub fn new(contracts: Contracts, nominal: Nominal) -> Table
        ensures { result ≡ spec.first_table contracts nominal }
    {
        Table {
            contracts,
            nominal,
            limits: Limits {
                rows: FIRST_ROWS,
                pivots: FIRST_PIVOTS,
            },
        }
    }

    /// How many contracts there are.
    pub fn len(&self) -> usize
        ensures { result ≡ length self.now.contracts }
    {
        self.contracts.len()
    }

    /// The contract of a name, if there is one.
    pub fn find(&self, name: &Name) -> Option<&Contract>
        ensures { option_map (λ c. c.now) result ≡ contract_named self.now.contracts name.now }
    {
        self.contracts.find(name)
    }

    /// The nominal values.
    pub fn nominal(&self) -> &Nominal
        ensures { result.now ≡ self.now.nominal }
    {
        &self.nominal
    }

    /// The limits in force.
    pub fn limits(&self) -> Limits
        ensures rows { result.rows ≡ self.now.limits.rows }
        ensures pivots { result.pivots ≡ self.now.limits.pivots }
    {
        self.limits
    }

    // Adds a contract under the name of a line's result, where it has one.
    #[tactic(auto, using(pa_contract::proofs::Lookups::free_name))]
    fn add_result(&mut self, alloc: Global, op: &Op, contract: Contract) -> Result<(), AllocError>
        requires { spec.IsFree self.old (result_of op.now) }
        ensures ok { OnOk result (self.new ≡ spec.with_result self.old (result_of op.now) contract) }
        ensures err { OnErr result (self.new ≡ self.old) }
    {
        match op {
            Op::Merge { result, .. }
            | Op::Hide { result, .. }
            | Op::Compose { result, .. }
            | Op::Quotient { result, .. } => {
                let Ok(name) = result.copy(alloc) else {
                    return Err(AllocError);
                };
                self.contracts.add(alloc, Named { name, contract })
            }
            Op::LimitRows { .. }
            | Op::LimitPivots { .. }
            | Op::Test { .. }
            | Op::Refine { .. }
            | Op::Bound { .. } => Ok(()),
        }
    }

    // Sets the limit of a limit line.
    fn set_limit(&mut self, op: &Op)
        requires { IsWellFormedOp op.now }
        ensures { self.new ≡ spec.with_limit self.old op.now }
    {
        match op {
            Op::LimitRows { most } => {
                self.limits = Limits {
                    rows: *most,
                    pivots: self.limits.pivots,
                }
            }
            Op::LimitPivots { most } => {
                self.limits = Limits {
                    rows: self.limits.rows,
                    pivots: *most,
                }
            }
            Op::Merge { .. }
            | Op::Test { .. }
            | Op::Refine { .. }
            | Op::Bound { .. }
            | Op::Hide { .. }
            | Op::Compose { .. }
            | Op::Quotient { .. } => {}
        }
    }

    // Adds the contract of an answer, where it has one.
    fn add_answer(&mut self, alloc: Global, op: &Op, answer: Answer) -> Result<(), AllocError>
        requires { spec.CanAdd self.old (result_of op.now) (spec.contract_of answer) }
        ensures ok { OnOk result (self.new ≡ spec.with_answer self.old (result_of op.now) (spec.contract_of answer)) }
        ensures err { OnErr result (self.new ≡ self.old) }
    {
        match answer.into_contract() {
            Some(contract) => self.add_result(alloc, op, contract),
            None => Ok(()),
        }
    }

    /// Brings the table past a line by its answer: the contract of the answer moves in under the name of the
    /// line's result, and a limit that was set is in force. After a refusal, and after an answer without a
    /// contract, the table is as it was, and after an `Err` too.
    pub fn advance(
        &mut self,
        alloc: Global,
        line: &ScriptLine,
        answer: LineAnswer,
    ) -> Result<(), AllocError>
        requires well_formed { IsWellFormedOp line.now.op }
        requires free { spec.CanAdvance self.old line.now.op answer }
        ensures ok { OnOk result (self.new ≡ spec.advanced self.old line.now.op answer) }
        ensures err { OnErr result (self.new ≡ self.old) }
    {
        match answer {
            LineAnswer::Set => {
                self.set_limit(&line.op);
                Ok(())
            }
            LineAnswer::Answered { answer } => self.add_answer(alloc, &line.op, answer),
            LineAnswer::Unknown { name: _name } | LineAnswer::Taken { name: _name } => Ok(()),
        }
    }
}
