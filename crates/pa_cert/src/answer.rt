// What script lines are answered.
ghost use Rattle.std.specs.Prelude.{◌≡◌};
ghost use Rattle.pa_cert.specs.Tables.{contract_of, is_refused};

use crate::{
    Discharges, Drops, Heading, Located, Marks, NameRefusal, Proofs, Steps, StuckRow, StuckRows,
};
use pa_contract::{Contract, Tested};
use pa_names::Name;
use pa_row::{Place, Sub, Task, Weights};
use std::marker::Model;

/// A contract without some of its outputs, and the steps of the elimination that gave its guarantees.
#[derive(Drop)]
pub struct Hidden {
    pub contract: Contract,
    pub steps: Steps,
}

impl Model for Hidden {
    ghost use Rattle.pa_cert.specs.Lists.{HiddenAnswer};

    ghost Value = { HiddenAnswer };

    ghost view = { λ h. record { contract = h.contract; steps = h.steps } };
}

/// A composite: how each part was discharged, which assumptions were dropped, and the steps of the
/// elimination of the internal outputs.
#[derive(Drop)]
pub struct Composed {
    pub contract: Contract,
    pub discharges: Discharges,
    pub thin: Drops,
    pub steps: Steps,
}

impl Model for Composed {
    ghost use Rattle.pa_cert.specs.Lists.{ComposedAnswer};

    ghost Value = { ComposedAnswer };

    ghost view = { λ c. record { contract = c.contract; discharges = c.discharges; thin = c.thin; steps = c.steps } };
}

/// A quotient: a mark for each guarantee that narrows the inputs, weights for each guarantee of the
/// dividend, and which guarantees were dropped.
#[derive(Drop)]
pub struct Divided {
    pub contract: Contract,
    pub narrow: Marks,
    pub shifts: Proofs,
    pub thin: Drops,
}

impl Model for Divided {
    ghost use Rattle.pa_cert.specs.Lists.{DividedAnswer};

    ghost Value = { DividedAnswer };

    ghost view = { λ d. record { contract = d.contract; narrow = d.narrow; shifts = d.shifts; thin = d.thin } };
}

/// What a question about contracts is answered.
#[derive(Drop)]
pub enum Answer {
    /// The merge.
    Merged {
        contract: Contract,
    },
    /// What the contract is at the point.
    TestedAs {
        tested: Tested,
    },
    /// The first contract refines the second: weights for each of its assumptions, and for each guarantee
    /// of the second.
    Yes {
        assumptions: Proofs,
        guarantees: Proofs,
    },
    /// It does not: the point breaks this assumption of the first contract.
    NoAssumption {
        row: u32,
        at: Located,
    },
    /// It does not: the point breaks this guarantee of the second contract.
    NoGuarantee {
        row: u32,
        at: Located,
    },
    /// The bound `num / den`, which the weights prove and the point takes.
    Value {
        num: i128,
        den: i128,
        weights: Weights,
        at: Located,
    },
    /// There is no bound: from the point on, the goal gets better for ever in the direction.
    Unbounded {
        at: Located,
        direction: Heading,
    },
    /// No point meets the contract's rows.
    Nothing {
        weights: Weights,
    },
    /// The contract without the hidden outputs.
    Hidden {
        answer: Hidden,
    },
    /// The composite.
    Composed {
        answer: Composed,
    },
    /// The quotient.
    Divided {
        answer: Divided,
    },
    /// Names, ports or counts refuse it.
    Refused {
        refusal: NameRefusal,
    },
    /// No weights bring an assumption of a part to the inputs.
    NoMultipliers {
        stuck: StuckRow,
    },
    /// No weights bring a guarantee of the dividend to the quotient's ports.
    NoMultipliersFor {
        row: u32,
        direction: Heading,
    },
    /// The parts wait for one another.
    Circle {
        stuck: StuckRows,
    },
    /// A step of an elimination would have more rows than the limit.
    RowLimit {
        step: u32,
        count: u64,
    },
    /// A problem takes more pivots than the limit.
    PivotLimit {
        task: Task,
        sub: Sub,
    },
    /// A number passes 126 bits.
    TooWide {
        place: Place,
    },
}

impl Answer {
    // The contract of the answer, where it has one.
    pub(crate) fn into_contract(self) -> Option<Contract>
        ensures { result ≡ contract_of self }
    {
        match self {
            Answer::Merged { contract } => Some(contract),
            Answer::Hidden { answer } => Some(answer.contract),
            Answer::Composed { answer } => Some(answer.contract),
            Answer::Divided { answer } => Some(answer.contract),
            _other => None,
        }
    }
}

/// What a script line is answered.
#[derive(Drop)]
pub enum LineAnswer {
    /// A limit is set.
    Set,
    /// No contract has the name.
    Unknown { name: Name },
    /// A contract has the name of the result.
    Taken { name: Name },
    /// The answer to the line's question.
    Answered { answer: Answer },
}

impl LineAnswer {
    /// Whether the line has no result. That a contract does not refine another one, has no bound or is
    /// met by no point is a result.
    pub fn is_refused(&self) -> bool
        ensures { result ≡ is_refused self.now }
    {
        match self {
            LineAnswer::Set => false,
            LineAnswer::Unknown { .. } | LineAnswer::Taken { .. } => true,
            LineAnswer::Answered { answer } => matches!(
                answer,
                Answer::Refused { .. }
                    | Answer::NoMultipliers { .. }
                    | Answer::NoMultipliersFor { .. }
                    | Answer::Circle { .. }
                    | Answer::RowLimit { .. }
                    | Answer::PivotLimit { .. }
                    | Answer::TooWide { .. }
            ),
        }
    }
}
