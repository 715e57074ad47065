// The parts of a composition, which are lent.
ghost use Rattle.std.specs.Prelude.{◌≡◌, ◌<◌, ◌≤◌, ◌++◌, ◌∷◌, [], All, OnOk, OnErr, length, sum_by};
ghost use Rattle.pa_contract.specs.Merge.{row_count as row_count_of};
ghost use Rattle.pa_contract.specs.WellFormed.{IsWellFormed};
ghost use Rattle.pa_meaning.specs.Composition.{is_among, all_inputs, part_at};

use crate::names::has;
use pa_contract::Contract;
use pa_names::Name;
use std::alloc::{AllocError, Global};
use std::marker::Model;

/// The contracts of a composition, in the order in which they are named. One may stand more than once.
#[derive(Drop)]
pub struct Parts<'a> {
    parts: Vec<&'a Contract>,
}

impl<'a> Model for Parts<'a> {
    ghost use Rattle.std.specs.Prelude.{List, map};
    ghost use Rattle.pa_meaning.specs.Contracts.{Contract as ContractValue};

    ghost Value = { List ContractValue };

    ghost view = { λ p. map (λ c. c.now) p.parts.items };
}

impl<'a> Parts<'a> {
    /// No parts. Takes no memory.
    pub fn new(alloc: Global) -> Parts<'a>
        ensures { result ≡ [] }
    {
        Parts {
            parts: Vec::new(alloc),
        }
    }

    /// Adds a part at the end. After a refusal there is none more.
    pub fn add(&mut self, part: &'a Contract) -> Result<(), AllocError>
        ensures ok { OnOk result (self.new ≡ self.old ++ part.now ∷ []) }
        ensures err { OnErr result (self.new ≡ self.old) }
    {
        self.parts.push(part)?;
        Ok(())
    }

    /// How many parts there are.
    pub fn len(&self) -> usize
        ensures { result ≡ length self.now }
    {
        self.parts.len()
    }

    /// The part at a place.
    pub fn at(&self, place: usize) -> &'a Contract
        requires { place < length self.now }
        ensures part { result.now ≡ part_at self.now place }
        ensures formed { IsWellFormed result.now }
    {
        let part = self.parts[place];
        let _inputs = &part.inputs;
        part
    }

    /// Whether a part takes the name as an input.
    #[tactic(auto, using(crate::proofs::Turns::takes_here, crate::proofs::Turns::takes_later))]
    pub fn take(&self, name: &Name) -> bool
        ensures { result ≡ is_among (all_inputs self.now) name.now }
    {
        for place in 0..self.len() {
            let part = self.at(place);
            if has(&part.inputs, name) {
                return true;
            }
        }
        false
    }

    /// Shows a proof that each part is well formed, as its type says. Nothing is computed.
    pub fn show_formed(&self)
        ensures { All IsWellFormed self.now }
    {
        for place in 0..self.len() {
            let _part = self.at(place);
        }
    }

    /// How many rows the parts have together.
    pub fn row_count(&self) -> u32
        requires { length self.now ≤ 32 }
        ensures { result ≡ sum_by row_count_of self.now }
    {
        let mut count = 0;
        for place in 0..self.len() {
            count += self.at(place).row_count();
        }
        count
    }
}
