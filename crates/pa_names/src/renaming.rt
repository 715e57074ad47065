// Names in place of others, by pairs of an old and a new name.
ghost use Rattle.std.specs.Prelude.{◌≡◌, IfOk, IfErr};
ghost use Rattle.std.specs.List.{IsDistinct};
ghost use Rattle.std.specs.Str.{bytes_eq};
ghost use Rattle.pa_math.specs.Lists.{with_new};
ghost use Rattle.pa_names.specs.Names as spec;

use crate::{Name, NameFault};
use indexmap::IndexSet;
use std::alloc::Global;

// The set with a copy of one name more.
fn with_name(
    alloc: Global,
    mut names: IndexSet<Name>,
    name: &Name,
) -> Result<IndexSet<Name>, NameFault>
    ensures ok { IfOk result (λ more. more.keys ≡ with_new bytes_eq names.keys name.now) }
    ensures err { IfErr result (λ fault. fault ≡ NameFault.Memory) }
{
    if names.contains(name) {
        return Ok(names);
    }
    let Ok(copy) = name.copy(alloc) else {
        return Err(NameFault::Memory);
    };
    match names.insert(copy) {
        Ok(_) => Ok(names),
        Err(_) => Err(NameFault::Memory),
    }
}

// The old names, for looking up the place of a pair.
#[tactic(auto, using(crate::proofs::Renamings::firsts_more, crate::proofs::Renamings::firsts_start, crate::proofs::Renamings::firsts_end))]
pub(crate) fn old_names(alloc: Global, pairs: &[(Name, Name)]) -> Result<IndexSet<Name>, NameFault>
    requires { IsDistinct bytes_eq (spec.first_names pairs.now) }
    ensures ok { IfOk result (λ names. names.keys ≡ spec.first_names pairs.now) }
    ensures err { IfErr result (λ fault. fault ≡ NameFault.Memory) }
{
    let mut names = IndexSet::new(alloc);
    for place in 0..pairs.len() {
        names = with_name(alloc, names, &pairs[place].0)?;
    }
    Ok(names)
}

// The new name for an old one, or the name itself.
#[tactic(auto, using(crate::proofs::Renamings::firsts_end))]
pub(crate) fn new_name<'a>(
    old_names: &IndexSet<Name>,
    pairs: &'a [(Name, Name)],
    name: &'a Name,
) -> &'a Name
    requires { old_names.now.keys ≡ spec.first_names pairs.now }
    ensures { result.now ≡ spec.renamed pairs.now name.now }
{
    match old_names.get_index_of(name) {
        Some(place) => &pairs[place].1,
        None => name,
    }
}
