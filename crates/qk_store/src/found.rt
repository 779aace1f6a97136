ghost use Rattle.std.specs.Prelude.{◌≡◌};
ghost use Rattle.qk_store.specs.declared.found.StoreFault.TheVariants.{Memory};

use std::alloc::{AllocError, AllocFailed};
use std::error::Error;
use std::fmt;

/// What a read found under a name.
#[derive(Debug, PartialEq, Eq, Drop)]
pub enum Found {
    /// There is no such file.
    Gone,
    /// The file is longer than the most that was asked for.
    TooLong,
    /// All the bytes of the file.
    Bytes(Vec<u8>),
}

/// A read that was answered: the name, the most bytes that were asked for, and the answer.
#[derive(Debug, PartialEq, Eq, Drop)]
pub struct Seen {
    pub name: String,
    pub most: usize,
    pub found: Found,
}

/// Why a store refused a call.
#[derive(Clone, Copy, Debug, PartialEq, Eq)]
pub enum StoreFault {
    /// The outside failed, and the store has counted it.
    Failed,
    /// Memory ran out, and nothing has changed.
    Memory,
}

impl fmt::Display for StoreFault {
    ghost use Rattle.std.specs.Prelude.{Some};
    ghost use Rattle.qk_store.specs.Texts.{store_fault_text};

    ghost output = { λ fault. Some (store_fault_text fault) };

    fn fmt<W: fmt::Write>(&self, f: &mut fmt::Formatter<W>) -> fmt::Result {
        match self {
            StoreFault::Failed => write!(f, "the store failed"),
            StoreFault::Memory => write!(f, "out of memory"),
        }
    }
}

impl Error for StoreFault {}

impl From<AllocError> for StoreFault {
    ghost from_gives = { λ _ e. e ≡ Memory };

    fn from(_: AllocError) -> Self {
        StoreFault::Memory
    }
}

impl<T: Drop> From<AllocFailed<T>> for StoreFault {
    ghost from_gives = { λ _ e. e ≡ Memory };

    fn from(_: AllocFailed<T>) -> Self {
        StoreFault::Memory
    }
}
