// A store and a sink in memory that never fail: their count of faults is the constant 0.
ghost use Rattle.std.specs.Prelude.{◌≡◌, Some, [], map};
ghost use Rattle.qk_store.specs.Answers.{answer};
ghost use Rattle.qk_store.specs.Held.{held};

use crate::held::{find_file, note, put_file};
use crate::{Found, Seen, Sink, SinkFault, Store, StoreFault};
use std::alloc::Global;

/// Files in memory. It tells its files and its answers, and refuses nothing but memory.
#[derive(Drop)]
pub struct NoFailStore {
    alloc: Global,
    files: Vec<(String, Vec<u8>)>,
    seen: Vec<Seen>,
}

impl NoFailStore {
    /// A store of these files. Where a name stands twice, its first entry is the file.
    pub fn new(alloc: Global, files: Vec<(String, Vec<u8>)>) -> NoFailStore
        ensures files { ⟦<NoFailStore as Store>⟧.files result ≡ Some (held files.items) }
        ensures answers { ⟦<NoFailStore as Store>⟧.answers result ≡ Some [] }
    {
        NoFailStore {
            alloc,
            files,
            seen: Vec::new(alloc),
        }
    }
}

impl Store for NoFailStore {
    ghost files = { λ s. Some (held s.files.items) };

    ghost answers = { λ s. Some (map answer s.seen.items) };

    ghost faults = { λ s. 0 };

    fn read(&mut self, name: &str, most: usize) -> Result<Found, StoreFault> {
        let found = find_file(self.alloc, &self.files, name, most)?;
        note(self.alloc, &mut self.seen, name, most, &found)?;
        Ok(found)
    }

    #[tactic(auto, using(crate::proofs::FileLemmas::others_kept))]
    fn write(&mut self, name: &str, bytes: &[u8]) -> Result<(), StoreFault> {
        put_file(self.alloc, &mut self.files, name, bytes)?;
        Ok(())
    }
}

/// A sink in memory. It tells its bytes, and refuses nothing but memory.
#[derive(Drop)]
pub struct NoFailSink {
    bytes: Vec<u8>,
}

impl NoFailSink {
    /// A sink that nothing was put into.
    pub fn new(alloc: Global) -> NoFailSink
        ensures { ⟦<NoFailSink as Sink>⟧.bytes result ≡ Some [] }
    {
        NoFailSink {
            bytes: Vec::new(alloc),
        }
    }

    /// All that was put.
    pub fn bytes(&self) -> &[u8]
        ensures { ⟦<NoFailSink as Sink>⟧.bytes self.now ≡ Some result.now }
    {
        self.bytes.as_slice()
    }
}

impl Sink for NoFailSink {
    ghost bytes = { λ s. Some s.bytes.items };

    ghost faults = { λ s. 0 };

    fn put(&mut self, piece: &[u8]) -> Result<(), SinkFault> {
        self.bytes.extend_from_slice(piece)?;
        Ok(())
    }
}
