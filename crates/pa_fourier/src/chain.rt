// The places of each group of parallel rows, one behind the other.
ghost use Rattle.std.specs.Prelude.{◌≡◌, ◌<◌, ◌+◌, ℕ, IfOk, length, get_or};
ghost use Rattle.pa_fourier.specs.Chains.{AreLinked, IsNext};

use std::alloc::{AllocError, Global};

// Groups of places, each as a chain in rising order.
#[derive(Drop)]
pub(crate) struct Chains {
    // the number of each place's group
    pub groups: Vec<u32>,
    // the first place of each group, or the number of places for a number that no group has
    pub heads: Vec<u32>,
    // the next place of each place's group, or the number of places
    pub next: Vec<u32>,
}

// Puts one more place before the chains of the places behind it.
fn link(groups: &[u32], heads: &mut [u32], next: &mut [u32], place: usize)
    requires place { place < length groups.now }
    requires few { length groups.now < 4294967295 }
    requires linked { AreLinked groups.now heads.old next.old (place + 1) }
    ensures { AreLinked groups.now heads.new next.new place }
{
    let group = groups[place] as usize;
    next[place] = heads[group];
    heads[group] = place as u32;
}

impl Chains {
    // The chains of the groups with these numbers, one for each place.
    pub fn of(alloc: Global, groups: Vec<u32>) -> Result<Chains, AllocError>
        requires few { length groups.items < 4294967295 }
        requires below { (j : ℕ) → j < length groups.items → get_or groups.items j 0 < length groups.items }
        ensures groups { IfOk result (λ chains. chains.groups.items ≡ groups.items) }
        ensures linked { IfOk result (λ chains. AreLinked chains.groups.items chains.heads.items chains.next.items 0) }
    {
        let count = groups.len();
        let mut heads = Vec::from_elem(alloc, count as u32, count)?;
        let mut next = Vec::from_elem(alloc, count as u32, count)?;
        for i in 0..count {
            link(&groups, &mut heads, &mut next, count - 1 - i);
        }
        Ok(Chains {
            groups,
            heads,
            next,
        })
    }

    // The first place of this place's group.
    pub fn first(&self, place: usize) -> usize
        requires linked { AreLinked self.now.groups.items self.now.heads.items self.now.next.items 0 }
        requires place { place < length self.now.groups.items }
        ensures { IsNext self.now.groups.items (get_or self.now.groups.items place 0) 0 result }
    {
        self.heads[self.groups[place] as usize] as usize
    }

    // The next place of this place's group, or the number of places where this one is the last.
    pub fn after(&self, place: usize) -> usize
        requires linked { AreLinked self.now.groups.items self.now.heads.items self.now.next.items 0 }
        requires place { place < length self.now.groups.items }
        ensures { IsNext self.now.groups.items (get_or self.now.groups.items place 0) (place + 1) result }
    {
        self.next[place] as usize
    }
}
