// Contracts by their names.
ghost use Rattle.std.specs.Prelude.{◌≡◌, [], ◌∷◌, ◌++◌, OnOk, OnErr, IfOk, false, map, length, option_map};
ghost use Rattle.std.specs.List.{list_any};
ghost use Rattle.std.specs.Str.{bytes_eq};
ghost use Rattle.pa_contract.specs.Named as spec;

use crate::Contract;
use indexmap::IndexSet;
use pa_names::Name;
use std::alloc::{AllocError, Global};
use std::marker::Model;

/// A contract by its name.
#[derive(Drop)]
pub struct Named {
    pub name: Name,
    pub contract: Contract,
}

impl Model for Named {
    ghost use Rattle.pa_meaning.specs.Contracts.{Named as NamedValue};

    ghost Value = { NamedValue };

    ghost view = { λ n. record { name = n.name; contract = n.contract } };
}

/// Contracts in order, which are found by their names.
#[derive(Drop)]
pub struct Contracts {
    list: Vec<Named>,
    names: IndexSet<Name>,
}

impl Model for Contracts {
    ghost use Rattle.std.specs.Prelude.{◌≡◌, List, map};
    ghost use Rattle.pa_meaning.specs.Contracts.{Named as NamedValue};

    ghost Value = { List NamedValue };

    ghost view = { λ c. c.list.items };

    ghost invariant = { λ c. c.names.keys ≡ map (λ named. named.name) c.list.items };
}

impl Contracts {
    /// No contracts. Takes no memory.
    pub fn new(alloc: Global) -> Contracts
        ensures { result ≡ [] }
    {
        Contracts {
            list: Vec::new(alloc),
            names: IndexSet::new(alloc),
        }
    }

    /// How many contracts there are.
    pub fn len(&self) -> usize
        ensures { result ≡ length self.now }
    {
        self.list.len()
    }

    /// The contract of a name, if there is one. The name is looked up by its hash.
    #[tactic(auto, using(crate::proofs::Lookups::missing_contract))]
    pub fn find(&self, name: &Name) -> Option<&Contract>
        ensures { option_map (λ c. c.now) result ≡ spec.contract_named self.now name.now }
    {
        let Some(place) = self.names.get_index_of(name) else {
            return None;
        };
        Some(&self.list[place].contract)
    }

    /// Whether a contract has this name.
    pub fn has(&self, name: &Name) -> bool
        ensures { result ≡ list_any (bytes_eq name.now) (map (λ other. other.name) self.now) }
    {
        self.names.contains(name)
    }

    /// With one more contract, whose name is new.
    pub fn with(self, alloc: Global, named: Named) -> Result<Contracts, AllocError>
        requires { list_any (bytes_eq named.name) (map (λ other. other.name) self) ≡ false }
        ensures { IfOk result (λ more. more ≡ self ++ named ∷ []) }
    {
        let Contracts {
            mut list,
            mut names,
        } = self;
        let Ok(name) = named.name.copy(alloc) else {
            return Err(AllocError);
        };
        names.insert(name)?;
        list.push(named)?;
        Ok(Contracts { list, names })
    }

    /// Adds a contract under a name that none has. After a refusal there is none more.
    pub fn add(&mut self, alloc: Global, named: Named) -> Result<(), AllocError>
        requires { list_any (bytes_eq named.name) (map (λ other. other.name) self.old) ≡ false }
        ensures ok { OnOk result (self.new ≡ self.old ++ named ∷ []) }
        ensures err { OnErr result (self.new ≡ self.old) }
    {
        let Ok(name) = named.name.copy(alloc) else {
            return Err(AllocError);
        };
        self.list.reserve(1)?;
        self.names.insert(name)?;
        self.list.push_reserved(named);
        Ok(())
    }

    /// These contracts, and then others, none of which has a name of these. Nothing is copied.
    pub fn with_all(self, others: Contracts) -> Result<Contracts, AllocError>
        requires { spec.AreNew self others }
        ensures { IfOk result (λ all. all ≡ self ++ others) }
    {
        let Contracts {
            mut list,
            mut names,
        } = self;
        let Contracts {
            list: other_list,
            names: mut other_names,
        } = others;
        // The count tells that no two names are equal.
        let _count = other_names.len();
        names.append(&mut other_names)?;
        for named in other_list {
            list.push(named)?;
        }
        Ok(Contracts { list, names })
    }
}
