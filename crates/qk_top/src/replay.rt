ghost use Rattle.std.specs.Prelude.{◌≡◌, ◌≤◌, Some, [], ◌∷◌, map, length, string_bytes, IfSome, IfNone, IsErrOf, ◌↔◌, Err};
ghost use Rattle.qk_script.specs.Answer.{event_of};
ghost use Rattle.qk_top.specs.Stops.{EndsForFaults};
ghost use Rattle.qk_modules.specs.Gathering.{Gathers};
ghost use Rattle.qk_first.specs.Kept.{IsCounterOf};
ghost use Rattle.qk_top.specs.Answers.{IsUsage, IsPlayed};
ghost use Rattle.qk_top.specs.Coming.{EventsCome, CommandComes};
ghost use Rattle.qk_top.specs.Reads.{ReadsInOrder};

use crate::play::play;
use crate::refusal::Kind;
use crate::script::events;
use crate::sources::{read_application, read_script};
use crate::stop::{ScriptRefusal, Stop};
use crate::stopping::refused_root;
use crate::words::script_word;
use qk_application::Application;
use qk_first::shape::{Counter, first_counter};
use qk_script::Event;
use qk_store::{Sink, SinkFault, Store};
use std::alloc::Global;

/// Plays the script that the words name on the application of the store.
pub(crate) fn replay<S: Store, K: Sink>(
    alloc: Global,
    words: &[String],
    store: &mut S,
    out: &mut K,
) -> Result<(), Stop>
    ensures comes { (told : _) → S.files store.old ≡ Some told → CommandComes (map string_bytes words.now) told (K.bytes out.old) (K.bytes out.new) result }
    ensures usage { (result ≡ Err Stop.Usage) ↔ IsUsage (map string_bytes words.now) }
    ensures unput { IsErrOf result Stop.Usage → K.bytes out.new ≡ K.bytes out.old }
    ensures files { S.files store.new ≡ S.files store.old }
    ensures order { ReadsInOrder (map string_bytes words.now) (S.files store.old) (S.answers store.old) (S.answers store.new) }
    ensures store { EndsForFaults Stop.StoreFailed (S.faults store.old) (S.faults store.new) result }
    ensures sink { EndsForFaults Stop.SinkFailed (K.faults out.old) (K.faults out.new) result }
{
    let Some(script) = script_word(words) else {
        return Err(Stop::Usage);
    };
    let items = read_script(alloc, store, script)?;
    match events(alloc, items.as_slice()) {
        Ok(Some(events)) => replay_events(alloc, store, events.as_slice(), out),
        Ok(None) => Err(Stop::Script(ScriptRefusal::NotBuilt)),
        Err(_) => Err(Stop::Memory),
    }
}

/// Plays these events on the application of the store.
fn replay_events<S: Store, K: Sink>(
    alloc: Global,
    store: &mut S,
    events: &[&Event],
    out: &mut K,
) -> Result<(), Stop>
    requires { length events.now ≤ 65536 }
    ensures comes { (told : _) → S.files store.old ≡ Some told → EventsCome told (map (λ e. event_of e.now) events.now) (K.bytes out.old) (K.bytes out.new) result }
    ensures command { ¬ IsErrOf result Stop.Usage }
    ensures files { S.files store.new ≡ S.files store.old }
    ensures reads { (gathered : _) × Gathers (S.files store.old) (S.answers store.old) (S.answers store.new) gathered }
    ensures store { EndsForFaults Stop.StoreFailed (S.faults store.old) (S.faults store.new) result }
    ensures sink { EndsForFaults Stop.SinkFailed (K.faults out.old) (K.faults out.new) result }
{
    let application = read_application(alloc, store)?;
    let Some(counter) = only_counter(&application) else {
        return Err(refused_root(alloc, Kind::NotBuilt));
    };
    match play(alloc, &counter, events, out) {
        Ok(()) => Ok(()),
        Err(SinkFault::Failed) => Err(Stop::SinkFailed),
        Err(SinkFault::Memory) => Err(Stop::Memory),
    }
}

/// The counter that is the only module of the application.
fn only_counter(application: &Application) -> Option<Counter<'_>>
    ensures some { IfSome result (λ kept. (m : _) × (map (λ n. n.module) application.now.modules.list ≡ m ∷ []) × IsCounterOf kept m) }
    ensures none { IfNone result ((m : _) → ¬ IsPlayed application.now m) }
{
    match application.modules.list.as_slice() {
        [] => None,
        [root] => first_counter(&root.module),
        [_, _, ..] => None,
    }
}
