//! Why running stops, and why a code gives nothing.

ghost use Rattle.std.specs.Prelude.{◌≡◌};
ghost use Rattle.qk_code.specs.Stops.{stop_by, stop_of, stop_on};
ghost use Rattle.qk_code.specs.declared.stop.Stop.TheVariants.{Memory as Stop_memory, Fault as Stop_fault};
ghost use Rattle.qk_code.specs.declared.stop.CodeFault.TheVariants.{Memory as Code_memory};

use qk_heap::{HeapStop, WatchFault};
use qk_ops::OpStop;
use qk_shared::Text;
use qk_value::Fault;
use std::alloc::{AllocError, AllocFailed};

/// Why a code gives nothing: a file that it needs is missing or isn't one of its kind, or the store failed. The text is the file.
#[derive(Drop)]
pub enum CodeFault {
    Missing(Text),
    Bad(Text),
    Store,
    Memory,
}

/// Why running stops without a value: by a fault of the program, because the budget ended, or because the code gave nothing.
#[derive(Drop)]
pub enum Stop {
    Fault(Fault),
    Ended,
    Code(CodeFault),
    Memory,
}

impl From<AllocError> for CodeFault {
    ghost from_gives = { λ _ s. s ≡ Code_memory };

    fn from(_: AllocError) -> CodeFault {
        CodeFault::Memory
    }
}

impl<T: Drop> From<AllocFailed<T>> for CodeFault {
    ghost from_gives = { λ _ s. s ≡ Code_memory };

    fn from(_: AllocFailed<T>) -> CodeFault {
        CodeFault::Memory
    }
}

impl From<AllocError> for Stop {
    ghost from_gives = { λ _ s. s ≡ Stop_memory };

    fn from(_: AllocError) -> Stop {
        Stop::Memory
    }
}

impl<T: Drop> From<AllocFailed<T>> for Stop {
    ghost from_gives = { λ _ s. s ≡ Stop_memory };

    fn from(_: AllocFailed<T>) -> Stop {
        Stop::Memory
    }
}

impl From<WatchFault> for Stop {
    ghost from_gives = { λ _ s. s ≡ Stop_memory };

    fn from(_: WatchFault) -> Stop {
        Stop::Memory
    }
}

impl From<Fault> for Stop {
    ghost from_gives = { λ f s. s ≡ Stop_fault f };

    fn from(f: Fault) -> Stop {
        Stop::Fault(f)
    }
}

impl From<HeapStop> for Stop {
    ghost from_gives = { λ e s. s ≡ stop_of e };

    fn from(e: HeapStop) -> Stop {
        match e {
            HeapStop::Fault(f) => Stop::Fault(f),
            HeapStop::Memory => Stop::Memory,
        }
    }
}

impl From<OpStop> for Stop {
    ghost from_gives = { λ e s. s ≡ stop_on e };

    fn from(e: OpStop) -> Stop {
        match e {
            OpStop::Fault(f) => Stop::Fault(f),
            OpStop::Memory => Stop::Memory,
        }
    }
}

impl From<CodeFault> for Stop {
    ghost from_gives = { λ e s. s ≡ stop_by e };

    fn from(e: CodeFault) -> Stop {
        match e {
            CodeFault::Missing(file) => Stop::Code(CodeFault::Missing(file)),
            CodeFault::Bad(file) => Stop::Code(CodeFault::Bad(file)),
            CodeFault::Store => Stop::Code(CodeFault::Store),
            CodeFault::Memory => Stop::Memory,
        }
    }
}
