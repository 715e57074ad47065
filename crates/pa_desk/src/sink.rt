// Where the output goes: bytes in order.
ghost use Rattle.std.specs.Prelude.{◌≡◌, ℕ, List, Option, OnOk, OnErr};
ghost use Rattle.pa_desk.specs.Causes.{HasCause};
ghost use Rattle.pa_desk.specs.Taken.{TakesFront, TookPrefix, with_bytes};

use thiserror::Error;

/// Why a put took nothing.
#[derive(Clone, Copy, Debug, PartialEq, Eq, Error)]
pub enum SinkFault {
    /// Want of memory.
    #[error("out of memory")]
    Memory,
    /// The sink took nothing, and has counted a fault.
    #[error("the output was refused")]
    Failed,
}

/// Why not all bytes were put.
#[derive(Clone, Copy, Debug, PartialEq, Eq, Error)]
pub enum PutFault {
    /// Want of memory.
    #[error("out of memory")]
    Memory,
    /// The sink refused a part of the bytes, and has counted a fault.
    #[error("the output was refused")]
    Failed,
}

/// What takes bytes in order.
pub trait Sink {
    /// The bytes that were taken, where the sink tells them.
    ghost took: { Self → Option (List ℕ) };

    /// How many faults there were. The count never falls, and stops at the end of a `u64`.
    ghost faults: { Self → ℕ };

    /// Takes a front of `piece`, and answers how many bytes that is: at least one of a piece that is
    /// not empty. After a fault nothing of the piece was taken.
    ///
    /// Fails with [`SinkFault::Failed`] only where the count of faults rose in this call.
    fn put(&mut self, piece: &[u8]) -> Result<usize, SinkFault>
        ensures taken { TakesFront (took self.old) (took self.new) result piece.now }
        ensures cause { HasCause SinkFault.Failed ⊥ (faults self.old) (faults self.new) result };
}

/// Puts all the bytes in order, by as many puts as it takes. After a fault a front of them was
/// taken. It takes no memory of its own.
///
/// Fails with [`PutFault::Failed`] only where the sink's count of faults rose in this call.
pub fn put_all<O: Sink>(out: &mut O, bytes: &[u8]) -> Result<(), PutFault>
    ensures all { OnOk result (O.took out.new ≡ with_bytes (O.took out.old) bytes.now) }
    ensures front { OnErr result (TookPrefix (O.took out.old) (O.took out.new) bytes.now) }
    ensures cause { HasCause PutFault.Failed ⊥ (O.faults out.old) (O.faults out.new) result }
{
    let mut at = 0;
    while at < bytes.len() {
        match out.put(&bytes[at..]) {
            Ok(count) => at += count,
            Err(SinkFault::Memory) => return Err(PutFault::Memory),
            Err(SinkFault::Failed) => return Err(PutFault::Failed),
        }
    }
    Ok(())
}
