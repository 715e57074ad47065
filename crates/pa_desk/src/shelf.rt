// Where the inputs come from: files by their paths.
ghost use Rattle.std.specs.Prelude.{◌≡◌, ◌≤◌, ℕ, Option, IfOk};
ghost use Rattle.pa_desk.specs.Causes.{HasCause};
ghost use Rattle.pa_desk.specs.Files.{Files, GivesFront, IsMissing, most_fetched};

use std::alloc::Global;
use thiserror::Error;

/// Why a fetch gave no bytes.
#[derive(Clone, Copy, Debug, PartialEq, Eq, Error)]
pub enum FetchFault {
    /// Want of memory.
    #[error("out of memory")]
    Memory,
    /// The shelf could not give the content, and has counted a fault, or nothing is at the path.
    #[error("no file could be read")]
    Failed,
}

/// The greatest `most` that a fetch may be given.
pub const MOST_FETCHED: u64 = 67_108_864;

/// Files by their paths.
pub trait Shelf {
    /// The files, where the shelf tells them.
    ghost holds: { Self → Option Files };

    /// How many faults there were. The count never falls, and stops at the end of a `u64`.
    ghost faults: { Self → ℕ };

    /// The whole content at `path` where it has at most `most` bytes, and its first `most + 1` bytes
    /// otherwise, so that a caller sees that it is too long. The shelf holds the same files after it. A
    /// caller asks for at most [`MOST_FETCHED`] bytes.
    ///
    /// Fails with [`FetchFault::Failed`] only where the count of faults rose in this call, or where
    /// the shelf tells its files and none is at the path.
    fn fetch(&mut self, alloc: Global, path: &str, most: u64) -> Result<Vec<u8>, FetchFault>
        requires { most ≤ most_fetched }
        ensures content { IfOk result (λ bytes. GivesFront (holds self.old) path.now most bytes.items) }
        ensures same { holds self.new ≡ holds self.old }
        ensures cause { HasCause FetchFault.Failed (IsMissing (holds self.old) path.now)
            (faults self.old) (faults self.new) result };
}
