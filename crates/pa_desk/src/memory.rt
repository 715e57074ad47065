// A shelf and a sink in memory, whose calls fail by their numbers.
ghost use Rattle.std.specs.Prelude.{◌≡◌, ◌≤◌, ◌+◌, ◌⊎◌, ◌↔◌, min, option_map, [], List, ℕ, Some, IfOk, take, length};
ghost use Rattle.std.specs.Prelude.{IsErrOf, Contains};
ghost use Rattle.pa_desk.specs.Causes.{HasCause, next_count};
ghost use Rattle.pa_desk.specs.Files.{content_at, GivesFront, IsMissing, most_fetched};
ghost use Rattle.pa_desk.specs.Taken.{TakesFront};
ghost use Rattle.pa_desk.specs.Memory.{listed_below, AllBelowEnd, ShelfState, SinkState};

use crate::{FetchFault, Shelf, Sink, SinkFault};
use std::alloc::{AllocError, Global};
use std::marker::Model;

/// A file of a [`MemShelf`]: the bytes of its path, and its content.
#[derive(Drop)]
pub struct MemFile {
    pub path: Vec<u8>,
    pub bytes: Vec<u8>,
}

impl Model for MemFile {
    ghost Value = { List ℕ × List ℕ };

    ghost view = { λ file. (file.path.items, file.bytes.items) };
}

/// A shelf in memory, which tells what it holds.
///
/// Its fetches are numbered from 0, up to the end of a `u64`, and those whose numbers it was given
/// fail. Each of these is a fault; a path at which nothing is counts as none.
#[derive(Drop)]
pub struct MemShelf {
    files: Vec<MemFile>,
    fails: Vec<u64>,
    fetches: u64,
}

impl Model for MemShelf {
    ghost Value = { ShelfState };

    ghost view = { λ s. record { files = s.files.items; fails = s.fails.items; fetches = s.fetches } };

    ghost invariant = { λ s. AllBelowEnd s.fails.items };
}

impl MemShelf {
    /// A shelf of these files, of which the fetches with the numbers `fails` are to fail. Of several
    /// files with one path the first counts.
    pub fn new(files: Vec<MemFile>, fails: Vec<u64>) -> MemShelf
        requires { AllBelowEnd fails.items }
        ensures { result ≡ record { files = files.items; fails = fails.items; fetches = 0 } }
    {
        MemShelf {
            files,
            fails,
            fetches: 0,
        }
    }
}

// The content at a path.
fn content_of<'a>(files: &'a [MemFile], path: &[u8]) -> Option<&'a Vec<u8>>
    ensures { option_map (λ v. v.now.items) result ≡ content_at path.now files.now }
{
    let file = files.iter().find(|file| file.path.as_slice() == path)?;
    Some(&file.bytes)
}

// The first `most + 1` bytes.
fn front_of(alloc: Global, bytes: &[u8], most: u64) -> Result<Vec<u8>, AllocError>
    requires { most ≤ most_fetched }
    ensures { IfOk result (λ front. front.items ≡ take (most + 1) bytes.now) }
{
    let end = bytes.len().min(most as usize + 1);
    Vec::from_slice(alloc, &bytes[..end])
}

impl Shelf for MemShelf {
    ghost holds = { λ s. Some s.files };

    ghost faults = { λ s. listed_below s.fails s.fetches };

    /// As [`Shelf::fetch`] says. Fails with [`FetchFault::Failed`] exactly where the number of this
    /// fetch is one of those that fail, or nothing is at the path.
    fn fetch(&mut self, alloc: Global, path: &str, most: u64) -> Result<Vec<u8>, FetchFault>
        requires { most ≤ most_fetched }
        ensures content { IfOk result (λ bytes. GivesFront (Some self.old.files) path.now most bytes.items) }
        ensures same { Some self.new.files ≡ Some self.old.files }
        ensures cause { HasCause FetchFault.Failed (IsMissing (Some self.old.files) path.now)
            (listed_below self.old.fails self.old.fetches) (listed_below self.new.fails self.new.fetches) result }

        // The calls are counted, and which of them fail is settled.
        ensures counted { self.new ≡ record self.old { fetches = next_count self.old.fetches } }
        ensures failed { IsErrOf result FetchFault.Failed
            ↔ (Contains self.old.fails self.old.fetches ⊎ (content_at path.now self.old.files ≡ None)) }
    {
        let number = self.fetches;
        self.fetches = number.saturating_add(1);
        if self.fails.contains(&number) {
            return Err(FetchFault::Failed);
        }
        match content_of(&self.files, path.as_bytes()) {
            None => Err(FetchFault::Failed),
            Some(bytes) => match front_of(alloc, bytes, most) {
                Ok(front) => Ok(front),
                Err(AllocError) => Err(FetchFault::Memory),
            },
        }
    }
}

/// A sink in memory, which tells what it took.
///
/// Its puts are numbered from 0, up to the end of a `u64`, and those whose numbers it was given
/// fail. Each of these is a fault. It keeps its own allocator, and a put that finds no memory
/// answers [`SinkFault::Memory`].
#[derive(Drop)]
pub struct MemSink {
    bytes: Vec<u8>,
    fails: Vec<u64>,
    most: usize,
    puts: u64,
}

impl Model for MemSink {
    ghost Value = { SinkState };

    ghost view = { λ s. record { bytes = s.bytes.items; fails = s.fails.items; most = s.most; puts = s.puts } };

    ghost invariant = { λ s. (1 ≤ s.most) × AllBelowEnd s.fails.items };
}

impl MemSink {
    /// A sink that took nothing yet, of which the puts with the numbers `fails` are to fail, and
    /// which takes at most `most` bytes at a put.
    pub fn new(alloc: Global, fails: Vec<u64>, most: usize) -> MemSink
        requires most { 1 ≤ most }
        requires fails { AllBelowEnd fails.items }
        ensures { result ≡ record { bytes = []; fails = fails.items; most = most; puts = 0 } }
    {
        MemSink {
            bytes: Vec::new(alloc),
            fails,
            most,
            puts: 0,
        }
    }

    /// The bytes that it took, in order.
    pub fn bytes(&self) -> &[u8]
        ensures { result.now ≡ self.now.bytes }
    {
        &self.bytes
    }
}

impl Sink for MemSink {
    ghost took = { λ s. Some s.bytes };

    ghost faults = { λ s. listed_below s.fails s.puts };

    /// As [`Sink::put`] says. Fails with [`SinkFault::Failed`] exactly where the number of this put
    /// is one of those that fail, and takes as many bytes as there are, up to its `most`.
    fn put(&mut self, piece: &[u8]) -> Result<usize, SinkFault>
        ensures taken { TakesFront (Some self.old.bytes) (Some self.new.bytes) result piece.now }
        ensures cause { HasCause SinkFault.Failed ⊥ (listed_below self.old.fails self.old.puts)
            (listed_below self.new.fails self.new.puts) result }

        // The calls are counted, which of them fail is settled, and how many bytes are taken.
        ensures counted { self.new ≡ record self.old { bytes = self.new.bytes; puts = next_count self.old.puts } }
        ensures failed { IsErrOf result SinkFault.Failed ↔ Contains self.old.fails self.old.puts }
        ensures amount { IfOk result (λ count. count ≡ min (length piece.now) self.old.most) }
    {
        let number = self.puts;
        self.puts = number.saturating_add(1);
        if self.fails.contains(&number) {
            return Err(SinkFault::Failed);
        }
        let count = piece.len().min(self.most);
        match self.bytes.extend_from_slice(&piece[..count]) {
            Ok(()) => Ok(count),
            Err(AllocError) => Err(SinkFault::Memory),
        }
    }
}
