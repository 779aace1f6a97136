//! Why a call isn't printed.

ghost use Rattle.std.specs.Prelude.{◌≡◌};
ghost use Rattle.qk_call.specs.declared.stop.Stop.TheVariants.{Memory as Stop_memory};

use qk_code::CodeFault;
use std::alloc::{AllocError, AllocFailed};

/// Why a call isn't printed.
#[derive(Clone, Copy, Debug, PartialEq, Eq)]
pub(crate) enum Stop {
    /// The words name no call.
    Words,
    /// There is no file of that name, it derives no module, the module breaks a rule or imports from another one, or it has no root arrow of that name.
    NoArrow,
    StoreFailed,
    SinkFailed,
    /// Memory ran out.
    Memory,
}

impl Stop {
    /// The status with which the program ends.
    pub(crate) fn status(self) -> u8 {
        match self {
            Stop::Words => 1,
            Stop::NoArrow => 2,
            Stop::StoreFailed => 6,
            Stop::SinkFailed => 7,
            Stop::Memory => 8,
        }
    }
}

impl From<AllocError> for Stop {
    ghost from_gives = { λ _ s. s ≡ Stop_memory };

    fn from(_: AllocError) -> Stop {
        Stop::Memory
    }
}

impl<T: Drop> From<AllocFailed<T>> for Stop {
    ghost from_gives = { λ _ s. s ≡ Stop_memory };

    fn from(_: AllocFailed<T>) -> Stop {
        Stop::Memory
    }
}

impl From<CodeFault> for Stop {
    fn from(fault: CodeFault) -> Stop {
        match fault {
            CodeFault::Memory => Stop::Memory,
            _other => Stop::NoArrow,
        }
    }
}
