ghost use Rattle.std.specs.Prelude.{◌≡◌, ℕ, Option, List, OnOk, IsErrOf};
ghost use Rattle.std.specs.Option.{option_map};
ghost use Rattle.qk_store.specs.declared.sink.SinkFault.TheVariants.{Memory};
ghost use Rattle.qk_store.specs.Causes.{HasCause};
ghost use Rattle.qk_store.specs.Pieces.{with_piece, AppendsFront};

use std::alloc::{AllocError, AllocFailed};
use std::error::Error;
use std::fmt;

/// Why a sink refused a piece.
#[derive(Clone, Copy, Debug, PartialEq, Eq)]
pub enum SinkFault {
    /// The outside failed, and the sink has counted it.
    Failed,
    /// Memory ran out, and nothing was put.
    Memory,
}

impl fmt::Display for SinkFault {
    ghost use Rattle.std.specs.Prelude.{Some};
    ghost use Rattle.qk_store.specs.Texts.{sink_fault_text};

    ghost output = { λ fault. Some (sink_fault_text fault) };

    fn fmt<W: fmt::Write>(&self, f: &mut fmt::Formatter<W>) -> fmt::Result {
        match self {
            SinkFault::Failed => write!(f, "the sink failed"),
            SinkFault::Memory => write!(f, "out of memory"),
        }
    }
}

impl Error for SinkFault {}

impl From<AllocError> for SinkFault {
    ghost from_gives = { λ _ e. e ≡ Memory };

    fn from(_: AllocError) -> Self {
        SinkFault::Memory
    }
}

impl<T: Drop> From<AllocFailed<T>> for SinkFault {
    ghost from_gives = { λ _ e. e ≡ Memory };

    fn from(_: AllocFailed<T>) -> Self {
        SinkFault::Memory
    }
}

/// Where printed bytes go.
pub trait Sink {
    /// All the bytes that were put, where the sink tells them. No call changes whether it does.
    ghost bytes: { Self → Option (List ℕ) };

    /// How often the outside has failed. It never falls.
    ghost faults: { Self → ℕ };

    /// Appends the piece. After `Failed` a front of it was appended.
    fn put(&mut self, piece: &[u8]) -> Result<(), SinkFault>
        ensures appended { OnOk result (bytes self.new ≡ option_map (with_piece piece.now) (bytes self.old)) }
        // Whatever it answers.
        ensures front { AppendsFront piece.now (bytes self.old) (bytes self.new) }
        ensures memory { IsErrOf result SinkFault.Memory → bytes self.new ≡ bytes self.old }
        ensures cause { HasCause SinkFault.Failed SinkFault.Memory (faults self.old) (faults self.new) result };
}
