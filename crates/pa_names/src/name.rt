// One name.
ghost use Rattle.std.specs.Prelude.{◌≡◌, IsTrue, IfErr, Ok};
ghost use Rattle.std.specs.List.{list_all};
ghost use Rattle.pa_math.specs.Answers.{IsAnswer};
ghost use Rattle.pa_names.specs.Names as spec;

use crate::NameFault;
use std::alloc::{AllocError, Global};
use std::hash::{Hash, Hasher};
use std::marker::Model;

/// The name of a variable or a contract: 1 to 64 bytes, a letter or `_`, then letters, digits and
/// `_`, all ASCII. The word `keep` is no name.
#[derive(Debug, Drop)]
pub struct Name {
    bytes: Vec<u8>,
}

impl Model for Name {
    ghost use Rattle.std.specs.Prelude.{List, ℕ, IsTrue};

    ghost Value = { List ℕ };

    ghost use Rattle.pa_names.specs.Names.{is_name};

    ghost view = { λ n. n.bytes.items };

    ghost invariant = { λ n. IsTrue (is_name n.bytes.items) };
}

impl PartialEq for Name {
    ghost use Rattle.std.proofs.Common.{rules};
    ghost use Rattle.std.specs.Cmp.Rules.{comparing};
    ghost use Rattle.std.specs.Str.{bytes_eq};

    ghost eq = { bytes_eq };

    ghost laws = { Prim.search (comparing, rules) };

    fn eq(&self, other: &Name) -> bool {
        self.bytes == other.bytes
    }
}

impl Eq for Name {
    ghost use Rattle.std.proofs.Common.{rules};
    ghost use Rattle.std.specs.Cmp.Rules.{comparing};

    ghost laws = { Prim.search (comparing, rules) };
}

impl Hash for Name {
    ghost use Rattle.std.proofs.Common.{rules};
    ghost use Rattle.std.specs.Hash as fed;
    ghost use Rattle.std.specs.Cmp.Rules.{hashing};

    ghost hash_input = { fed.slice fed.u8 };

    ghost respects_eq = { Prim.search (hashing, rules) };

    fn hash<H: Hasher>(&self, state: &mut H) {
        self.bytes.hash(state);
    }
}

// Whether each byte may stand in a name behind its first.
fn all_continue(bytes: &[u8]) -> bool
    ensures { result ≡ list_all spec.continues_name bytes.now }
{
    bytes
        .iter()
        .all(|byte| byte.is_ascii_alphanumeric() || *byte == b'_')
}

fn is_name(bytes: &[u8]) -> bool
    ensures { result ≡ spec.is_name bytes.now }
{
    if bytes.is_empty() || bytes.len() > Name::MOST_BYTES {
        return false;
    }
    if !bytes[0].is_ascii_alphabetic() && bytes[0] != b'_' {
        return false;
    }
    all_continue(bytes) && bytes != b"keep".as_slice()
}

impl Name {
    /// How many bytes a name has at most.
    pub const MOST_BYTES: usize = 64;

    /// The name that the bytes are. `Bad` exactly where they are no name: `Memory` comes only where they
    /// are one.
    pub fn read(alloc: Global, bytes: &[u8]) -> Result<Name, NameFault>
        ensures answer { IsAnswer NameFault.Memory (spec.name_of bytes.now) result }
        ensures memory { IfErr result (λ fault. fault ≡ NameFault.Memory → spec.name_of bytes.now ≡ Ok bytes.now) }
    {
        if !is_name(bytes) {
            return Err(NameFault::Bad);
        }
        match Vec::from_slice(alloc, bytes) {
            Ok(bytes) => Ok(Name { bytes }),
            Err(AllocError) => Err(NameFault::Memory),
        }
    }

    /// An equal name. The only refusal is `Memory`.
    pub fn copy(&self, alloc: Global) -> Result<Name, NameFault>
        ensures { IsAnswer NameFault.Memory (Ok self.now) result }
    {
        match Vec::from_slice(alloc, &self.bytes) {
            Ok(bytes) => Ok(Name { bytes }),
            Err(AllocError) => Err(NameFault::Memory),
        }
    }

    /// The bytes of the name.
    pub fn bytes(&self) -> &[u8]
        ensures value { result.now ≡ self.now }
        ensures name { IsTrue (spec.is_name self.now) }
    {
        &self.bytes
    }
}
