ghost use Rattle.std.specs.Prelude.{◌≡◌, ◌≤◌, ◌<◌, ◌+◌, ◌^◌, ℤ, Option, List, ℕ, map, length, IfOk, OnOk, IsErrOf};
ghost use Rattle.std.specs.Option.{option_map};
ghost use Rattle.qk_store.specs.Causes.{HasCause};
ghost use Rattle.qk_store.specs.Pieces.{with_piece, AppendsFront};
ghost use Rattle.qk_script.specs.Answer.{event_of};
ghost use Rattle.qk_first.specs.Kept.{counter_in};
ghost use Rattle.qk_top.specs.Blocks.{number_after, first_text, event_text, played_text, PutsBlocks, PutsPartOfBlock};
ghost use lib.Signed.{mag};

use crate::blocks::{push_event, push_first};
use qk_first::shape::Counter;
use qk_script::Event;
use qk_store::{Sink, SinkFault};
use std::alloc::Global;

/// Plays these events: puts the block of the first render, then the block of each event, each as one piece.
pub(crate) fn play<K: Sink>(
    alloc: Global,
    counter: &Counter,
    events: &[&Event],
    out: &mut K,
) -> Result<(), SinkFault>
    requires initial { mag counter.now.initial ≤ 1000000 }
    requires short { length events.now ≤ 65536 }
    ensures played { OnOk result (K.bytes out.new ≡ option_map (with_piece (played_text (counter_in counter.now) (map (λ e. event_of e.now) events.now))) (K.bytes out.old)) }
    ensures failed { IsErrOf result SinkFault.Failed → PutsPartOfBlock (counter_in counter.now) (map (λ e. event_of e.now) events.now) (K.bytes out.old) (K.bytes out.new) }
    ensures want { IsErrOf result SinkFault.Memory → PutsBlocks (counter_in counter.now) (map (λ e. event_of e.now) events.now) (K.bytes out.old) (K.bytes out.new) }
    ensures cause { HasCause SinkFault.Failed SinkFault.Memory (K.faults out.old) (K.faults out.new) result }
{
    let mut block = String::new(alloc);
    put_first(counter, &mut block, out)?;
    let mut number = counter.initial;
    for (index, event) in events.iter().enumerate() {
        number = put_event(counter, index as u64 + 1, event, number, &mut block, out)?;
    }
    Ok(())
}

/// Puts the block of the first render.
fn put_first<K: Sink>(counter: &Counter, block: &mut String, out: &mut K) -> Result<(), SinkFault>
    ensures played { OnOk result (K.bytes out.new ≡ option_map (with_piece (first_text (counter_in counter.now))) (K.bytes out.old)) }
    ensures front { AppendsFront (first_text (counter_in counter.now)) (K.bytes out.old) (K.bytes out.new) }
    ensures want { IsErrOf result SinkFault.Memory → K.bytes out.new ≡ K.bytes out.old }
    ensures cause { HasCause SinkFault.Failed SinkFault.Memory (K.faults out.old) (K.faults out.new) result }
{
    block.clear();
    push_first(counter, block)?;
    out.put(block.as_bytes())
}

/// Puts the block of an event, which is this item, where the number was this before it, and gives the number after it.
fn put_event<K: Sink>(
    counter: &Counter,
    item: u64,
    event: &Event,
    number: i64,
    block: &mut String,
    out: &mut K,
) -> Result<i64, SinkFault>
    requires { mag number < 2 ^ 40 }
    ensures number { IfOk result (λ after. after ≡ number_after (counter_in counter.now) number (event_of event.now)) }
    ensures played { OnOk result (K.bytes out.new ≡ option_map (with_piece (event_text (counter_in counter.now) item number (event_of event.now))) (K.bytes out.old)) }
    ensures front { AppendsFront (event_text (counter_in counter.now) item number (event_of event.now)) (K.bytes out.old) (K.bytes out.new) }
    ensures want { IsErrOf result SinkFault.Memory → K.bytes out.new ≡ K.bytes out.old }
    ensures cause { HasCause SinkFault.Failed SinkFault.Memory (K.faults out.old) (K.faults out.new) result }
{
    block.clear();
    let after = push_event(counter, item, event, number, block)?;
    out.put(block.as_bytes())?;
    Ok(after)
}
