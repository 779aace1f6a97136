//! A host that keeps the console lines.
#![tactic(auto, using(crate::proofs::Lines::hears_line, crate::proofs::Lines::hears_other, crate::proofs::Lines::hears_nothing))]

ghost use Rattle.std.specs.Prelude.{◌≡◌, [], ◌∷◌};
ghost use Rattle.qk_call.specs.Lines.{lines_told};

use qk_code::{HookAnswer, HookKind, Host, Part};
use qk_heap::{Heap, HeapStop, Loc, Watch, WatchFault};
use qk_shared::{Builder, Text};
use qk_value::{Addr, Value};
use std::alloc::Global;

/// Keeps the console lines, in order. Hook calls are given nothing, and all else that it is told is forgotten.
#[derive(Drop)]
pub(crate) struct Console {
    pub(crate) lines: Builder<Text>,
}

impl Console {
    /// No lines yet. It takes no memory.
    pub(crate) fn new(alloc: Global) -> Console
        ensures { result.lines ≡ [] }
    {
        Console {
            lines: Builder::new(alloc),
        }
    }
}

impl Watch for Console {
    ghost stands_for = { λ console list. lines_told list ≡ console.lines };

    fn read(&mut self, _: &Loc) -> Result<(), WatchFault> {
        Ok(())
    }

    fn changed(&mut self, _: &Loc) -> Result<(), WatchFault> {
        Ok(())
    }
}

impl Host for Console {
    fn line(&mut self, text: Text) -> Result<(), WatchFault> {
        self.lines.push(text)?;
        Ok(())
    }

    fn enter(&mut self, _: Part) -> Result<(), WatchFault> {
        Ok(())
    }

    fn leave(&mut self, _: Part) {}

    fn hook(&mut self, _: &mut Heap, _: HookKind, _: &[Value]) -> Result<HookAnswer, HeapStop> {
        Ok(HookAnswer::Nothing)
    }

    fn kept(&mut self, _: Addr) -> Result<Option<Value>, WatchFault> {
        Ok(None)
    }

    fn began(&mut self, _: Addr) -> Result<(), WatchFault> {
        Ok(())
    }

    fn finished(&mut self, _: Addr, _: &Value) -> Result<(), WatchFault> {
        Ok(())
    }
}
