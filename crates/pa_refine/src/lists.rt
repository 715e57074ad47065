// The rows of a refinement, over the ports of the first contract.
ghost use Rattle.std.specs.Prelude.{◌≡◌, IfOk};
ghost use Rattle.pa_refine.specs.Refining.{lists_of};

use crate::columns::{assumptions_over, guarantees_over, joined};
use pa_contract::Contract;
use pa_row::Row;
use std::alloc::{AllocError, Global};
use std::marker::Model;

/// The rows of two contracts, over the ports of the first.
#[derive(Drop)]
pub(crate) struct Lists {
    /// The second contract's assumptions, and then the first one's guarantees.
    pub(crate) premises: Vec<Row>,
    /// How many of the premises are assumptions.
    pub(crate) assumed: usize,
    /// The first contract's assumptions.
    pub(crate) assumptions: Vec<Row>,
    /// The second contract's guarantees.
    pub(crate) guarantees: Vec<Row>,
}

impl Model for Lists {
    ghost use Rattle.pa_refine.specs.Refining.{Lists as ListsValue};

    ghost Value = { ListsValue };

    ghost view = { λ l. record { premises = l.premises.items; assumed = l.assumed; assumptions = l.assumptions.items; guarantees = l.guarantees.items } };
}

/// The rows of both contracts.
pub(crate) fn rows_of(alloc: Global, left: &Contract, right: &Contract) -> Result<Lists, AllocError>
    ensures { IfOk result (λ lists. lists ≡ lists_of left.now right.now) }
{
    let assumptions = assumptions_over(alloc, left, left)?;
    let guarantees = guarantees_over(alloc, right, left)?;
    let premises = assumptions_over(alloc, right, left)?;
    let premises = joined(alloc, premises, &left.guarantees)?;
    Ok(Lists {
        premises,
        assumed: right.assumptions.len(),
        assumptions,
        guarantees,
    })
}
