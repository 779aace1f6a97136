//! A watch that counts, and a host that keeps the last line.

use qk_code::{HookAnswer, HookKind, Host, Part};
use qk_heap::{Heap, HeapStop, Loc, Watch, WatchFault};
use qk_shared::Text;
use qk_value::{Addr, Value};

/// How many reads and changes were told, and the last console line. It stands for every list, so nothing is claimed of it.
#[derive(Drop)]
pub(crate) struct Heard {
    pub(crate) reads: u64,
    pub(crate) changes: u64,
    pub(crate) line: Option<Text>,
}

impl Heard {
    /// Nothing was told yet.
    pub(crate) fn new() -> Heard {
        Heard {
            reads: 0,
            changes: 0,
            line: None,
        }
    }
}

impl Watch for Heard {
    ghost stands_for = { λ _ _. Unit {0} };

    fn read(&mut self, _: &Loc) -> Result<(), WatchFault> {
        self.reads = self.reads.saturating_add(1);
        Ok(())
    }

    fn changed(&mut self, _: &Loc) -> Result<(), WatchFault> {
        self.changes = self.changes.saturating_add(1);
        Ok(())
    }
}

impl Host for Heard {
    fn line(&mut self, text: Text) -> Result<(), WatchFault> {
        self.line = Some(text);
        Ok(())
    }

    fn enter(&mut self, _: Part) -> Result<(), WatchFault> {
        Ok(())
    }

    fn leave(&mut self, _: Part) {}

    fn hook(&mut self, _heap: &mut Heap, _: HookKind, _: &[Value]) -> Result<HookAnswer, HeapStop> {
        Ok(HookAnswer::Nothing)
    }

    fn kept(&mut self, _: Addr) -> Result<Option<Value>, WatchFault> {
        Ok(None)
    }

    fn began(&mut self, _: Addr) -> Result<(), WatchFault> {
        Ok(())
    }

    fn finished(&mut self, _: Addr, _: &Value) -> Result<(), WatchFault> {
        Ok(())
    }
}
