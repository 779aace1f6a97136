//! What a call came to.

ghost use Rattle.std.specs.Prelude.{◌≡◌};
ghost use Rattle.qk_call.specs.Playing.{ending_of};

use qk_heap::Heap;
use qk_shared::{Builder, Text};
use qk_value::{Fault, Value};

/// How a call came out: by a value, by a fault, or because the budget ended.
#[derive(Drop)]
pub(crate) enum Came {
    Value(Value),
    Fault(Fault),
    Ended,
}

/// How a call came out, without its value or fault.
#[derive(Clone, Copy, Debug, Drop, PartialEq, Eq)]
pub(crate) enum Ending {
    Value,
    Fault,
    Ended,
}

impl Came {
    pub(crate) fn ending(&self) -> Ending
        ensures { result ≡ ending_of self.now }
    {
        match self {
            Came::Value(_) => Ending::Value,
            Came::Fault(_) => Ending::Fault,
            Came::Ended => Ending::Ended,
        }
    }
}

impl Ending {
    /// The status with which the program ends, as `qwk` does.
    pub(crate) fn status(self) -> u8 {
        match self {
            Ending::Value => 0,
            Ending::Fault => 3,
            Ending::Ended => 4,
        }
    }
}

/// The console lines of a call, how it came out, and the objects that stand then.
#[derive(Drop)]
pub(crate) struct Played {
    pub(crate) lines: Builder<Text>,
    pub(crate) came: Came,
    pub(crate) heap: Heap,
}
