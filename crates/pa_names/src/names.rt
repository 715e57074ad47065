// Lists of distinct names with their places.
ghost use Rattle.std.specs.Prelude.{◌≡◌, ◌≤◌, ◌<◌, ◌++◌, ◌∷◌, [], ◌⊎◌, nat_le, OnOk, OnErr, IfOk, IfErr, Ok, true, length, slice_get, Some, position, if◌then◌else◌};
ghost use Rattle.std.specs.Str.{bytes_eq};
ghost use Rattle.std.specs.List.{IsDistinct, list_any};
ghost use Rattle.pa_math.specs.Answers.{IsAnswer};
ghost use Rattle.pa_math.specs.Lists.{with_new};
ghost use Rattle.pa_names.specs.Names as spec;

use crate::renaming::{new_name, old_names};
use crate::{Name, NameFault};
use indexmap::IndexSet;
use std::alloc::Global;
use std::marker::Model;

/// At most 4,096 distinct names, in the order in which they were added. Places are counted from 0.
#[derive(Drop)]
pub struct Names {
    alloc: Global,
    names: IndexSet<Name>,
}

impl Model for Names {
    ghost use Rattle.std.specs.Prelude.{List, ℕ, length, ◌≤◌};
    ghost use Rattle.std.specs.List.{IsDistinct};
    ghost use Rattle.std.specs.Str.{bytes_eq};
    ghost use Rattle.pa_names.specs.Names.{most_names};

    ghost Value = { List (List ℕ) };

    ghost view = { λ n. n.names.keys };

    ghost invariant = { λ n. (length n.names.keys ≤ most_names) × IsDistinct bytes_eq n.names.keys };
}

impl Names {
    /// How many names a list holds at most.
    pub const MOST: u32 = 4096;

    /// The empty list, which keeps the allocator for the names that are added.
    pub fn new(alloc: Global) -> Names
        ensures { result ≡ [] }
    {
        Names {
            alloc,
            names: IndexSet::new(alloc),
        }
    }

    // Whether the list is as long as it may be.
    fn is_full(&self) -> bool
        ensures { result ≡ nat_le spec.most_names (length self.now) }
    {
        self.names.len() >= Names::MOST as usize
    }

    /// Adds a name at the end, and gives its place. `Taken` exactly where the name is there, and
    /// `Limit` exactly where 4,096 names are there and it is not: `Memory` comes only where neither is
    /// so. A refusal leaves the list as it was.
    pub fn add(&mut self, name: Name) -> Result<u32, NameFault>
        ensures answer { IsAnswer NameFault.Memory (spec.added_place self.old name) result }
        ensures memory { IfErr result (λ fault. fault ≡ NameFault.Memory → spec.added_place self.old name ≡ Ok (length self.old)) }
        ensures ok { OnOk result (self.new ≡ self.old ++ name ∷ []) }
        ensures err { OnErr result (self.new ≡ self.old) }
    {
        if self.names.contains(&name) {
            return Err(NameFault::Taken);
        }
        if self.is_full() {
            return Err(NameFault::Limit);
        }
        let place = self.names.len() as u32;
        match self.names.insert(name) {
            Ok(_) => Ok(place),
            Err(_) => Err(NameFault::Memory),
        }
    }

    // Adds a copy of a name at the end, where the name is not there yet. Nothing is copied before it is
    // known to be new.
    fn add_new(&mut self, name: &Name) -> Result<(), NameFault>
        ensures ok { OnOk result (self.new ≡ with_new bytes_eq self.old name.now) }
        ensures err { OnErr result (self.new ≡ self.old) }
        ensures limit { IfErr result (λ fault. (fault ≡ NameFault.Memory)
            ⊎ ((fault ≡ NameFault.Limit) × (spec.most_names < length (with_new bytes_eq self.old name.now)))) }
    {
        if self.names.contains(name) {
            return Ok(());
        }
        if self.is_full() {
            return Err(NameFault::Limit);
        }
        let name = name.copy(self.alloc)?;
        match self.names.insert(name) {
            Ok(_) => Ok(()),
            Err(_) => Err(NameFault::Memory),
        }
    }

    // This list, and then what is new in another one.
    #[tactic(auto, using(crate::proofs::Unions::union_more))]
    fn with_all(mut self, other: &Names) -> Result<Names, NameFault>
        ensures { IsAnswer NameFault.Memory (spec.union_of self other.now) result }
    {
        for place in 0..other.len() {
            self.add_new(other.at(place))?;
        }
        prove!(self.len() <= Names::MOST);
        Ok(self)
    }

    /// An equal list. The only refusal is `Memory`.
    pub fn copy(&self) -> Result<Names, NameFault>
        ensures { IsAnswer NameFault.Memory (Ok self.now) result }
    {
        match IndexSet::with_capacity(self.alloc, self.len() as usize) {
            Ok(names) => Names {
                alloc: self.alloc,
                names,
            }
            .with_all(self),
            Err(_) => Err(NameFault::Memory),
        }
    }

    /// The names of this list, and then those of another that are new, each in its order. `Limit`
    /// exactly where these are more than 4,096. Each name is copied.
    pub fn union(&self, other: &Names) -> Result<Names, NameFault>
        ensures { IsAnswer NameFault.Memory (spec.union_of self.now other.now) result }
    {
        self.copy()?.with_all(other)
    }

    // Adds a copy of a name at the end, where neither this list nor another one has it.
    fn add_unless(&mut self, other: &Names, name: &Name) -> Result<(), NameFault>
        ensures ok { OnOk result (self.new ≡ (if list_any (bytes_eq name.now) other.now
            then self.old else with_new bytes_eq self.old name.now)) }
        ensures limit { IfErr result (λ fault. (fault ≡ NameFault.Memory)
            ⊎ ((fault ≡ NameFault.Limit) × (spec.most_names < length (if list_any (bytes_eq name.now) other.now
            then self.old else with_new bytes_eq self.old name.now)))) }
    {
        if other.names.contains(name) {
            return Ok(());
        }
        self.add_new(name)
    }

    // This list, and then what is new in another one and not in a third.
    #[tactic(auto, using(crate::proofs::Kept::kept_more))]
    fn with_all_but(mut self, names: &Names, other: &Names) -> Result<Names, NameFault>
        ensures { IsAnswer NameFault.Memory (spec.union_of self (spec.names_without names.now other.now)) result }
    {
        for place in 0..names.len() {
            self.add_unless(other, names.at(place))?;
        }
        prove!(self.len() <= Names::MOST);
        Ok(self)
    }

    /// The names of this list that another one has not, in their order. The only refusal is `Memory`.
    /// Each name is copied.
    pub fn without(&self, other: &Names) -> Result<Names, NameFault>
        ensures { IsAnswer NameFault.Memory (Ok (spec.names_without self.now other.now)) result }
    {
        match IndexSet::with_capacity(self.alloc, self.len() as usize) {
            Ok(names) => Names {
                alloc: self.alloc,
                names,
            }
            .with_all_but(self, other),
            Err(_) => Err(NameFault::Memory),
        }
    }

    // Adds a copy of a name at the end.
    fn add_copy(&mut self, name: &Name) -> Result<(), NameFault>
        requires { length self.old < spec.most_names }
        ensures ok { OnOk result (self.new ≡ self.old ++ name.now ∷ []) }
        ensures err { IfErr result (λ fault. (fault ≡ NameFault.Memory)
            ⊎ ((fault ≡ NameFault.Taken) × (list_any (bytes_eq name.now) self.old ≡ true))) }
    {
        let copy = name.copy(self.alloc)?;
        self.add(copy)?;
        Ok(())
    }

    // The names of another list in order, each renamed, behind an empty one.
    fn with_renamed(
        mut self,
        names: &Names,
        old_names: &IndexSet<Name>,
        pairs: &[(Name, Name)],
    ) -> Result<Names, NameFault>
        requires empty { self ≡ [] }
        requires places { old_names.now.keys ≡ spec.first_names pairs.now }
        ensures ok { IfOk result (λ all. all ≡ spec.all_renamed pairs.now names.now) }
        ensures err { IfErr result (λ fault. (fault ≡ NameFault.Memory)
            ⊎ ((fault ≡ NameFault.Taken) × (¬ IsDistinct bytes_eq (spec.all_renamed pairs.now names.now)))) }
    {
        for place in 0..names.len() {
            self.add_copy(new_name(old_names, pairs, names.at(place)))?;
        }
        Ok(self)
    }

    /// The names in order, each replaced by the second name of the pair that has it first. `Taken` exactly
    /// where two places get one name. The first names of the pairs are distinct. Each name is copied.
    pub fn rename(&self, pairs: &Vec<(Name, Name)>) -> Result<Names, NameFault>
        requires { IsDistinct bytes_eq (spec.first_names pairs.now.items) }
        ensures ok { IfOk result (λ names. names ≡ spec.all_renamed pairs.now.items self.now) }
        ensures distinct { OnOk result (IsDistinct bytes_eq (spec.all_renamed pairs.now.items self.now)) }
        ensures err { IfErr result (λ fault. (fault ≡ NameFault.Memory)
            ⊎ ((fault ≡ NameFault.Taken) × (¬ IsDistinct bytes_eq (spec.all_renamed pairs.now.items self.now)))) }
    {
        let places = old_names(self.alloc, pairs)?;
        Names::new(self.alloc).with_renamed(self, &places, pairs)
    }

    /// The place of a name. `None` exactly where the name is not in the list.
    pub fn place(&self, name: &Name) -> Option<u32>
        ensures { result ≡ position (bytes_eq name.now) self.now }
    {
        self.names.get_index_of(name).map(|place| place as u32)
    }

    /// How many names there are.
    pub fn len(&self) -> u32
        ensures value { result ≡ length self.now }
        ensures most { result ≤ spec.most_names }
        ensures distinct { IsDistinct bytes_eq self.now }
    {
        self.names.len() as u32
    }

    /// The name at a place.
    pub fn at(&self, place: u32) -> &Name
        requires { place < length self.now }
        ensures { slice_get self.now place ≡ Some result.now }
    {
        &self.names.as_slice()[place as usize]
    }
}
