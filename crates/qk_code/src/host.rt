//! Who is told of what code does, and answers its hook calls.

ghost use Rattle.std.specs.Prelude.{◌≡◌, ◌∷◌, [], List, None, IfOk, IfErr, OnOk, OnErr};
ghost use Rattle.qk_ast.specs.Texts as texts;
ghost use Rattle.qk_meaning.specs.Value.{Site};
ghost use Rattle.qk_meaning.specs.Happening.{Did_print, Began, Left, Computing, Computed_so};
ghost use Rattle.qk_value.specs.View.{seen};
ghost use Rattle.qk_heap.specs.Told.{Besides, Hears};
ghost use Rattle.qk_code.specs.Modes.{part_seen};
ghost use Rattle.qk_code.specs.Hooks.{Answers, RefusesOnly};

use crate::mode::Part;
use qk_heap::{Heap, HeapStop, Watch, WatchFault};
use qk_shared::Text;
use qk_value::{Addr, Fun, Value};

/// The hooks that a component calls.
#[derive(Clone, Copy, Debug, Drop, PartialEq, Eq)]
pub enum HookKind {
    Signal,
    Store,
    Computed,
    Task,
    Provider,
    Context,
}

/// The answer to a hook call: a value, a task's function that runs there, or nothing.
#[derive(Drop)]
pub enum HookAnswer {
    Value(Value),
    RunTask(Fun),
    Nothing,
}

/// Who watches what code reads and changes, is told of its console lines, its parts and its computeds, and answers its hook calls.
///
/// All of it stands in the one list of a watch, in order: `Besides` tells what isn't a read or a change. Values are told as they are seen,
/// whatever the arrow of a site captures.
pub trait Host: Watch {
    /// A console line.
    fn line(&mut self, text: Text) -> Result<(), WatchFault>
        ensures told { OnOk result (Hears Self.stands_for self.old (Besides (Did_print text) ∷ []) self.new) }
        ensures untold { OnErr result (Hears Self.stands_for self.old [] self.new) };

    /// A part of an execution begins.
    fn enter(&mut self, part: Part) -> Result<(), WatchFault>
        ensures told { OnOk result (Hears Self.stands_for self.old (Besides (Began (part_seen part)) ∷ []) self.new) }
        ensures untold { OnErr result (Hears Self.stands_for self.old [] self.new) };

    /// A part that began is left, as its function has given a value.
    fn leave(&mut self, part: Part)
        ensures { Hears Self.stands_for self.old (Besides (Left (part_seen part)) ∷ []) self.new };

    /// A hook is called with these arguments. Objects are made for the answer alone: all that stood in the heap stays.
    fn hook(
        &mut self,
        heap: &mut Heap,
        kind: HookKind,
        arguments: &[Value],
    ) -> Result<HookAnswer, HeapStop>
        ensures answers { Answers (Self.stands_for self.old) (Self.stands_for self.new) kind arguments.now heap.old heap.new result }
        ensures refuses { IfErr result (λ e. (f : _) → e ≡ HeapStop.Fault f → RefusesOnly kind arguments.now f) };

    /// The value that is kept of a computed, which then isn't called. So far none is.
    fn kept(&mut self, a: Addr) -> Result<Option<Value>, WatchFault>
        ensures none { IfOk result (λ v. v ≡ None) }
        ensures told { OnOk result (Hears Self.stands_for self.old [] self.new) }
        ensures untold { OnErr result (Hears Self.stands_for self.old [] self.new) };

    /// The function of a computed is about to be called.
    fn began(&mut self, a: Addr) -> Result<(), WatchFault>
        ensures told { OnOk result (Hears Self.stands_for self.old (Besides (Computing a.0) ∷ []) self.new) }
        ensures untold { OnErr result (Hears Self.stands_for self.old [] self.new) };

    /// The function of a computed has given this value.
    fn finished(&mut self, a: Addr, v: &Value) -> Result<(), WatchFault>
        ensures told { OnOk result ((names : Site → List texts.Text) → Hears Self.stands_for self.old (Besides (Computed_so a.0 (seen names v.now)) ∷ []) self.new) }
        ensures untold { OnErr result (Hears Self.stands_for self.old [] self.new) };
}
