ghost use Rattle.std.specs.Prelude.{◌≡◌, ◌≤◌, ◌<◌, ◌⊎◌, Some, [], ◌∷◌, map, string_bytes, codes};
ghost use Rattle.std.specs.Option.{option_map};
ghost use Rattle.qk_store.specs.Causes.{Rose};
ghost use Rattle.qk_store.specs.Pieces.{with_piece, AppendsFront, IsPut};
ghost use Rattle.qk_meaning.specs.Output.{line};
ghost use Rattle.qk_top.specs.Answers.{IsUsage};
ghost use Rattle.qk_top.specs.Stops.{PutsLastLine, Finishes};
ghost use Rattle.qk_top.specs.Reads.{ReadsInOrder};
ghost use Rattle.qk_top.specs.Run.{Headline, Complete, Printed, PrintedFront, Comes, ScriptLine, ApplicationLine, IsOneOf};

use crate::replay::replay;
use crate::stop::Stop;
use qk_store::{Sink, SinkFault, Store};
use std::alloc::Global;

/// Does all that the program does. `words` are the words after the program's name; what is printed is put into `out`, each block and each
/// last line as one piece; the answer is the exit status.
///
/// The words `replay SCRIPT` play the script on the application whose root module is the file `root.jsx` of the store, where it keeps all rules, and
/// print the block of each item. The statuses are 0 where all was played, 1 for words that are no command, 2 for an application that is refused, 5 for a
/// script that is refused, 6 where a call of the store failed, 7 where a call of the sink failed, and 8 for want of memory.
pub fn run<S: Store, K: Sink>(alloc: Global, words: &[String], store: &mut S, out: &mut K) -> u8
    ensures headline { Headline (map string_bytes words.now) (S.files store.old) (K.bytes out.old) (K.bytes out.new) result }
    ensures complete { Complete (map string_bytes words.now) (S.files store.old) (S.faults store.old) (S.faults store.new) (K.faults out.old) (K.faults out.new) result }
    ensures printed { Printed (map string_bytes words.now) (S.files store.old) (K.bytes out.old) (K.bytes out.new) result }
    ensures printed_front { PrintedFront (map string_bytes words.now) (S.files store.old) (K.bytes out.old) (K.bytes out.new) result }

    // Which answer comes: by the told files, and for the words by themselves.
    ensures comes { (told : _) → S.files store.old ≡ Some told → Comes (map string_bytes words.now) told result }
    ensures usage { IsUsage (map string_bytes words.now) → IsOneOf result (1 ∷ 7 ∷ 8 ∷ []) }
    ensures usage_line { result ≡ 1 → IsPut (line (codes "usage")) (K.bytes out.old) (K.bytes out.new) }
    ensures usage_only { result ≡ 1 → IsUsage (map string_bytes words.now) }
    ensures script_line { ScriptLine (map string_bytes words.now) (S.files store.old) (K.bytes out.old) (K.bytes out.new) result }
    ensures application_line { ApplicationLine (map string_bytes words.now) (S.files store.old) (K.bytes out.old) (K.bytes out.new) result }
    ensures statuses { IsOneOf result (0 ∷ 1 ∷ 2 ∷ 5 ∷ 6 ∷ 7 ∷ 8 ∷ []) }

    // A fault of the outside is answered only where its count rose; where one rose, no other status hides it.
    ensures store_failed { result ≡ 6 → Rose (S.faults store.old) (S.faults store.new) }
    ensures store_shown { S.faults store.old < S.faults store.new → IsOneOf result (6 ∷ 7 ∷ 8 ∷ []) }
    ensures sink_failed { result ≡ 7 → Rose (K.faults out.old) (K.faults out.new) }
    ensures sink_shown { K.faults out.old < K.faults out.new → result ≡ 7 }
    ensures never_fall { (S.faults store.old ≤ S.faults store.new) × (K.faults out.old ≤ K.faults out.new) }

    ensures files { S.files store.new ≡ S.files store.old }
    ensures order { ReadsInOrder (map string_bytes words.now) (S.files store.old) (S.answers store.old) (S.answers store.new) }
{
    match replay(alloc, words, store, out) {
        Ok(()) => 0,
        Err(stop) => finish(alloc, stop, out),
    }
}

/// Puts the last line, and answers the status.
fn finish<K: Sink>(alloc: Global, stop: Stop, out: &mut K) -> u8
    ensures { Finishes stop (K.bytes out.old) (K.bytes out.new) (K.faults out.old) (K.faults out.new) result }
{
    match stop {
        Stop::SinkFailed => 7,
        stop => put_last_line(alloc, &stop, out),
    }
}

fn put_last_line<K: Sink>(alloc: Global, stop: &Stop, out: &mut K) -> u8
    ensures { PutsLastLine stop.now (K.bytes out.old) (K.bytes out.new) (K.faults out.old) (K.faults out.new) result }
{
    let Ok(line) = stop.last_line(alloc) else {
        return 8;
    };
    match out.put(line.as_str().as_bytes()) {
        Ok(()) => stop.status(),
        Err(SinkFault::Failed) => 7,
        Err(SinkFault::Memory) => 8,
    }
}
