//! Who is told of each location that is read or changes.
ghost use Rattle.std.specs.Prelude.{◌∷◌, [], List, OnOk, OnErr};
ghost use Rattle.qk_heap.specs.Told.{Told, Was_read, Has_changed, Hears};
ghost use Rattle.qk_heap.specs.Seen.{loc_seen};

use crate::location::Loc;
use std::alloc::AllocError;

/// Why a watch isn't told: want of memory alone.
#[derive(Debug, Drop)]
pub enum WatchFault {
    Memory,
}

impl From<AllocError> for WatchFault {
    fn from(_: AllocError) -> WatchFault {
        WatchFault::Memory
    }
}

/// Who watches a heap. Its meaning is which lists of what it was told it stands for; it needn't store one.
///
/// What it is told is behind each of these lists then. Want of memory tells nothing.
pub trait Watch {
    ghost stands_for: { Self → List Told → Type 0 };

    /// A location was read.
    fn read(&mut self, l: &Loc) -> Result<(), WatchFault>
        ensures told { OnOk result (Hears stands_for self.old (Was_read (loc_seen l.now) ∷ []) self.new) }
        ensures untold { OnErr result (Hears stands_for self.old [] self.new) };

    /// A location changes.
    fn changed(&mut self, l: &Loc) -> Result<(), WatchFault>
        ensures told { OnOk result (Hears stands_for self.old (Has_changed (loc_seen l.now) ∷ []) self.new) }
        ensures untold { OnErr result (Hears stands_for self.old [] self.new) };
}
