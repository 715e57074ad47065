// The files and an output of the system. They tell no content.
ghost use Rattle.std.specs.Prelude.{◌≡◌, ◌≤◌, ℕ, None, IfOk, IfSome, take};
ghost use Rattle.std.specs.Io.KnownBytes.{WriteAppends};
ghost use Rattle.std.specs.Io.{WritesAtMost};
ghost use Rattle.pa_desk.specs.Causes.{HasCause, CountsEach};
ghost use Rattle.pa_desk.specs.Files.{GivesFront, IsMissing, most_fetched};
ghost use Rattle.pa_desk.specs.Taken.{TakesFront};
ghost use Rattle.pa_desk.specs.System.{WriterState};

use crate::{FetchFault, Shelf, Sink, SinkFault};
use std::alloc::Global;
use std::io::{ErrorKind, Read, Write};
use std::marker::Model;
use std::rt::Files;
use std::{fs, io};

/// The files of the system. A clause sees it as its count of faults.
#[derive(Drop)]
pub struct FileShelf<R: Files + Drop> {
    rt: R,
    faults: u64,
}

impl<R: Files + Drop> Model for FileShelf<R> {
    ghost Value = { ℕ };

    ghost view = { λ s. s.faults };
}

impl<R: Files + Drop> FileShelf<R> {
    /// The files that `rt` reaches, with no fault yet.
    pub fn new(rt: R) -> Self
        ensures { result ≡ 0 }
    {
        FileShelf { rt, faults: 0 }
    }
}

// The bytes that the source has left, or its first `room` bytes.
fn read_front<S: Read + Drop>(alloc: Global, source: S, room: u64) -> io::Result<Vec<u8>>
    ensures { IfOk result (λ bytes. IfSome (S.remaining source) (λ left. bytes.items ≡ take room left)) }
{
    let mut bytes = Vec::new(alloc);
    source.take(room).read_to_end(&mut bytes)?;
    Ok(bytes)
}

impl<R: Files + Drop> Shelf for FileShelf<R> {
    ghost holds = { λ _. None };

    ghost faults = { λ s. s };

    /// As [`Shelf::fetch`] says. The file is opened, and read to its end or for `most + 1` bytes; a
    /// read that was interrupted is tried again.
    ///
    /// Every error of the system but want of memory, a path at which nothing is included, is a
    /// counted fault.
    fn fetch(&mut self, alloc: Global, path: &str, most: u64) -> Result<Vec<u8>, FetchFault>
        requires { most ≤ most_fetched }
        ensures content { IfOk result (λ bytes. GivesFront None path.now most bytes.items) }
        ensures cause { HasCause FetchFault.Failed (IsMissing None path.now) self.old self.new result }
        ensures counted { CountsEach FetchFault.Failed self.old self.new result }
    {
        let read = fs::open(&self.rt, path).and_then(|file| read_front(alloc, file, most + 1));
        match read {
            Ok(bytes) => Ok(bytes),
            Err(error) if error.kind() == ErrorKind::OutOfMemory => Err(FetchFault::Memory),
            Err(_) => {
                self.faults = self.faults.saturating_add(1);
                Err(FetchFault::Failed)
            }
        }
    }
}

/// An output of the system. A clause sees what its writer holds, where the writer knows it, and the
/// count of faults.
#[derive(Drop)]
pub struct OutSink<W: Write + Drop> {
    out: W,
    faults: u64,
}

impl<W: Write + Drop> Model for OutSink<W> {
    ghost Value = { WriterState };

    ghost view = { λ s. record { written = W.contents s.out; faults = s.faults } };
}

impl<W: Write + Drop> OutSink<W> {
    /// A sink that hands its bytes to `out`, with no fault yet.
    pub fn new(out: W) -> Self
        ensures { result ≡ record { written = W.contents out; faults = 0 } }
    {
        OutSink { out, faults: 0 }
    }
}

// One write, tried again where it was interrupted.
fn write_front<W: Write>(out: &mut W, piece: &[u8]) -> io::Result<usize>
    ensures within { WritesAtMost result piece.now }
    ensures bytes { WriteAppends (W.contents out.old) (W.contents out.new) result piece.now }
{
    for _ in 0..u64::MAX {
        match out.write(piece) {
            Err(error) if error.kind() == ErrorKind::Interrupted => {}
            result => return result,
        }
    }
    Err(io::Error::from(ErrorKind::Interrupted))
}

impl<W: Write + Drop> Sink for OutSink<W> {
    ghost took = { λ _. None };

    ghost faults = { λ s. s.faults };

    /// As [`Sink::put`] says. A write that was interrupted is tried again, up to the end of a `u64`.
    ///
    /// Every other error of the writer but want of memory is a counted fault, and so is a write that
    /// takes nothing of a piece that is not empty. Where the writer knows what it holds, it has grown by the front that
    /// was taken, and after a fault by nothing.
    fn put(&mut self, piece: &[u8]) -> Result<usize, SinkFault>
        ensures taken { TakesFront None None result piece.now }
        ensures cause { HasCause SinkFault.Failed ⊥ self.old.faults self.new.faults result }
        ensures counted { CountsEach SinkFault.Failed self.old.faults self.new.faults result }
        ensures written { WriteAppends self.old.written self.new.written result piece.now }
    {
        match write_front(&mut self.out, piece) {
            Ok(count) if count > 0 || piece.is_empty() => Ok(count),
            Err(error) if error.kind() == ErrorKind::OutOfMemory => Err(SinkFault::Memory),
            _ => {
                self.faults = self.faults.saturating_add(1);
                Err(SinkFault::Failed)
            }
        }
    }
}
