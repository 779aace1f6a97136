ghost use Rattle.std.specs.Prelude.{◌≡◌, Some, [], ◌++◌, ◌/◌, length, take, OnOk, IsErrOf};
ghost use Rattle.qk_store.specs.Calls.{IsNumbered};
ghost use Rattle.qk_store.specs.Causes.{HasCause};
ghost use Rattle.qk_store.specs.Pieces.{AppendsFront};
ghost use Rattle.qk_store.specs.Memory.{sink_bytes, sink_calls};

use crate::calls::Calls;
use crate::{Sink, SinkFault};
use std::alloc::Global;

/// A sink in memory, whose calls fail where a test wants it. It tells its bytes. Its calls are numbered from 1; a call whose number is listed
/// appends the first half of the piece, rounded down, and answers `Failed`. A call refused for want of memory takes no number.
#[derive(Drop)]
pub struct MemSink {
    bytes: Vec<u8>,
    calls: Calls,
}

impl MemSink {
    /// A sink that nothing was put into.
    pub fn new(alloc: Global, failing: Vec<u64>) -> MemSink
        ensures bytes { sink_bytes result ≡ [] }
        ensures calls { sink_calls result ≡ record { failing = failing; made = 0; faults = 0 } }
    {
        MemSink {
            bytes: Vec::new(alloc),
            calls: Calls::new(failing),
        }
    }

    /// All that was put.
    pub fn bytes(&self) -> &[u8]
        ensures { result.now ≡ sink_bytes self.now }
    {
        self.bytes.as_slice()
    }
}

impl Sink for MemSink {
    ghost bytes = { λ s. Some (sink_bytes s) };

    ghost faults = { λ s. (sink_calls s).faults };

    #[tactic(auto, using(crate::proofs::Faults::sink_failed))]
    fn put(&mut self, piece: &[u8]) -> Result<(), SinkFault>
        ensures appended { OnOk result (sink_bytes self.new ≡ sink_bytes self.old ++ piece.now) }
        // The first half, rounded down.
        ensures half { IsErrOf result SinkFault.Failed →
            sink_bytes self.new ≡ sink_bytes self.old ++ take (length piece.now / 2) piece.now }
        ensures memory { IsErrOf result SinkFault.Memory → sink_bytes self.new ≡ sink_bytes self.old }
        ensures numbered { IsNumbered SinkFault.Failed SinkFault.Memory (sink_calls self.old) (sink_calls self.new) result }
        ensures front { AppendsFront piece.now (Some (sink_bytes self.old)) (Some (sink_bytes self.new)) }
        ensures cause { HasCause SinkFault.Failed SinkFault.Memory (sink_calls self.old).faults (sink_calls self.new).faults result }
    {
        if self.calls.next_fails() {
            self.bytes.extend_from_slice(&piece[..piece.len() / 2])?;
            self.calls.failed();
            return Err(SinkFault::Failed);
        }
        self.bytes.extend_from_slice(piece)?;
        self.calls.answered();
        Ok(())
    }
}
