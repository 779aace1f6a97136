ghost use Rattle.std.specs.Prelude.{◌≡◌, map, Contains, IfOk, IfSome, IfNone};
ghost use Rattle.qk_meaning.specs.Run.{Happens, Pauses};
ghost use Rattle.qk_script.specs.Answer.{event_of, item_of};

use qk_script::{Event, ScriptItem};
use std::alloc::{AllocError, Global};

/// The events of a script; none where it has a pause.
pub(crate) fn events(alloc: Global, items: &[ScriptItem]) -> Result<Option<Vec<&Event>>, AllocError>
    ensures some { IfOk result (λ o. IfSome o (λ events. map item_of items.now ≡ map Happens (map (λ e. event_of e.now) events.items))) }
    ensures none { IfOk result (λ o. IfNone o (Contains (map item_of items.now) Pauses)) }
{
    let mut events = Vec::new(alloc);
    for item in items {
        match item {
            ScriptItem::Event(event) => events.push(event)?,
            ScriptItem::Pause => return Ok(None),
        }
    }
    Ok(Some(events))
}
