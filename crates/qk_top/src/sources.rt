//! What is read of the store.

ghost use Rattle.std.specs.Prelude.{◌≡◌, ◌≤◌, Some, None, IfOk, OnErr, IfErr, IsErrOf, ◌⊎◌, length, map};
ghost use Rattle.std.specs.Option.{option_map};
ghost use Rattle.qk_store.specs.Answers.{content, reading, with_answer, IsWithin, bytes as content_bytes};
ghost use Rattle.qk_script.specs.Answer.{item_of};
ghost use Rattle.qk_top.specs.Stops.{EndsForFaults};
ghost use Rattle.qk_top.specs.Script.{SpellsItems};
ghost use Rattle.qk_modules.specs.Gathering.{Gathers};
ghost use Rattle.qk_top.specs.Sources.{TextComes, ScriptComes, ApplicationComes};
ghost use Rattle.qk_top.specs.Reads.{IsRead, MayRead};

use crate::stop::{ScriptRefusal, Stop};
use crate::stopping::stop_for;
use qk_application::{Application, accept};
use qk_base::limits;
use qk_script::{ScriptFault, ScriptItem, parse_script};
use qk_store::{Found, Store, StoreFault};
use std::alloc::Global;
use std::str::from_utf8;

/// The items of the script of this name.
pub(crate) fn read_script<S: Store>(
    alloc: Global,
    store: &mut S,
    name: &str,
) -> Result<Vec<ScriptItem>, Stop>
    ensures found { (told : _) → S.files store.old ≡ Some told → ScriptComes told name.now result }
    // Whether or not the store tells its files.
    ensures read { IfOk result (λ items. (text : _) × SpellsItems text (map item_of items.items) × IsRead name.now (content_bytes text) (S.answers store.old) (S.answers store.new)) }
    ensures reads { MayRead name.now (S.answers store.old) (S.answers store.new) }
    ensures files { S.files store.new ≡ S.files store.old }
    ensures cause { EndsForFaults Stop.StoreFailed (S.faults store.old) (S.faults store.new) result }
    ensures sink { ¬ IsErrOf result Stop.SinkFailed }
    ensures command { ¬ IsErrOf result Stop.Usage }
{
    match read_file(store, name, limits::SCRIPT_BYTES)? {
        Found::Gone => Err(Stop::Script(ScriptRefusal::Missing)),
        Found::TooLong => Err(Stop::Script(ScriptRefusal::TooLong)),
        Found::Bytes(bytes) => script_items(alloc, bytes.as_slice()),
    }
}

/// The items that a script's text spells.
fn script_items(alloc: Global, text: &[u8]) -> Result<Vec<ScriptItem>, Stop>
    requires { length text.now ≤ 1048576 }
    ensures { TextComes text.now result }
{
    let Ok(text) = from_utf8(text) else {
        return Err(Stop::Script(ScriptRefusal::NotUtf8));
    };
    match parse_script(alloc, text) {
        Ok(items) => Ok(items),
        Err(ScriptFault::Line(number)) => Err(Stop::Script(ScriptRefusal::Line(number))),
        Err(ScriptFault::TooMany) => Err(Stop::Script(ScriptRefusal::TooMany)),
        Err(ScriptFault::Memory) => Err(Stop::Memory),
    }
}

/// The application of the store, which keeps all rules.
pub(crate) fn read_application<S: Store>(alloc: Global, store: &mut S) -> Result<Application, Stop>
    ensures found { (told : _) → S.files store.old ≡ Some told → ApplicationComes told result }
    ensures reads { (gathered : _) × Gathers (S.files store.old) (S.answers store.old) (S.answers store.new) gathered }
    ensures files { S.files store.new ≡ S.files store.old }
    ensures cause { EndsForFaults Stop.StoreFailed (S.faults store.old) (S.faults store.new) result }
    ensures sink { ¬ IsErrOf result Stop.SinkFailed }
    ensures command { ¬ IsErrOf result Stop.Usage }
{
    match accept(alloc, store) {
        Ok(application) => Ok(application),
        Err(fault) => Err(stop_for(alloc, fault)),
    }
}

/// What the store finds under the name.
fn read_file<S: Store>(store: &mut S, name: &str, most: usize) -> Result<Found, Stop>
    ensures found { IfOk result (λ found. (told : _) → S.files store.old ≡ Some told → content found ≡ reading (told name.now) most) }
    ensures within { IfOk result (λ found. IsWithin most (content found)) }
    ensures answered { IfOk result (λ found. S.answers store.new ≡ option_map (with_answer name.now most (content found)) (S.answers store.old)) }
    ensures refused { OnErr result (S.answers store.new ≡ S.answers store.old) }
    ensures files { S.files store.new ≡ S.files store.old }
    ensures cause { EndsForFaults Stop.StoreFailed (S.faults store.old) (S.faults store.new) result }
    ensures stops { IfErr result (λ stop. (stop ≡ Stop.StoreFailed) ⊎ (stop ≡ Stop.Memory)) }
{
    match store.read(name, most) {
        Ok(found) => Ok(found),
        Err(StoreFault::Failed) => Err(Stop::StoreFailed),
        Err(StoreFault::Memory) => Err(Stop::Memory),
    }
}
