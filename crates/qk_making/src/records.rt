//! Records.

ghost use Rattle.std.specs.Prelude.{◌≡◌, IfOk};
ghost use Rattle.qk_meaning.specs.Value as M;
ghost use Rattle.qk_meaning.specs.Value.{end};
ghost use Rattle.qk_meaning.specs.World as W;
ghost use Rattle.qk_meaning.specs.Parts.{names_of, in_listing_order};
ghost use Rattle.qk_meaning.specs.Making as making;
ghost use Rattle.qk_meaning.specs.Running.{made_object};
ghost use Rattle.qk_meaning.specs.Setting.{Setting, captures};
ghost use Rattle.qk_value.specs.View.{seen_fields};
ghost use Rattle.qk_environment.specs.Scoping.{Captures};
ghost use Rattle.qk_heap.specs.Seen.{heap_seen};
ghost use Rattle.qk_making.specs.Acting.{Leaves, Makes, MakesIn, seen_in};

use crate::fixed::{MOST, fixed};
use qk_code::{Mode, Stop};
use qk_heap::{Fields, Heap, Object};
use qk_shared::{List, Text};
use qk_value::{Fault, Value, is_forbidden, put_field};
use std::alloc::{AllocError, Global};

/// A record with these fields as they are written: a fresh state object in the mode Effect, else a fixed value.
///
/// # Errors
///
/// `NoProperty` of a key that no value has, `ListTooLong` of more than 65,536 fields; of a fixed value, `TreeTooLarge` and `TreeTooDeep`.
pub fn make_record(
    alloc: Global,
    mode: Mode,
    heap: &mut Heap,
    fields: &[(Text, Value)],
) -> Result<Value, Stop>
    ensures { MakesIn mode seen_in (λ here. making.made_record here (seen_fields (captures here) fields.now)) heap.old result heap.new }
{
    if any_forbidden(fields) {
        return Err(Stop::Fault(Fault::NoProperty));
    }
    if fields.len() > MOST {
        return Err(Stop::Fault(Fault::ListTooLong));
    }
    match mode {
        Mode::Effect => make_plain(alloc, heap, fields),
        Mode::Pure => fixed_record(alloc, fields),
        Mode::Track => fixed_record(alloc, fields),
    }
}

/// Whether one of the keys is one that no value has.
fn any_forbidden(fields: &[(Text, Value)]) -> bool
    ensures { (names : Captures) → result ≡ making.any_forbidden (names_of (seen_fields names fields.now)) }
{
    for field in fields {
        if is_forbidden(field.0.as_str()) {
            return true;
        }
    }
    false
}

/// A fresh plain object with these fields.
fn make_plain(alloc: Global, heap: &mut Heap, fields: &[(Text, Value)]) -> Result<Value, Stop>
    ensures { (here : Setting) → Makes (seen_in here) (made_object (W.Plain (in_listing_order end (seen_fields (captures here) fields.now)))) (heap_seen (captures here) heap.old) result (heap_seen (captures here) heap.new) }
{
    let held = kept_fields(alloc, fields)?;
    let address = heap.make(Object::Plain(held))?;
    Ok(Value::Ref(address))
}

/// Each name with its last value, in the order in which the names come first.
fn kept_fields(alloc: Global, fields: &[(Text, Value)]) -> Result<Fields, AllocError>
    ensures { IfOk result (λ held. (names : Captures) → in_listing_order end (seen_fields names held) ≡ in_listing_order end (seen_fields names fields.now)) }
{
    let mut held = Fields::new(alloc);
    for field in fields {
        held.put(field.0.share()?, field.1.share()?)?;
    }
    Ok(held)
}

/// A fixed record with these fields.
fn fixed_record(alloc: Global, fields: &[(Text, Value)]) -> Result<Value, Stop>
    ensures { (here : Setting) → Leaves (seen_in here) (making.made here (M.Record (in_listing_order end (seen_fields (captures here) fields.now)))) result }
{
    fixed(Value::Record(listed_fields(alloc, fields)?))
}

/// Each name with its last value, in the order of listing.
fn listed_fields(alloc: Global, fields: &[(Text, Value)]) -> Result<List<(Text, Value)>, AllocError>
    ensures { IfOk result (λ listed. (names : Captures) → seen_fields names listed ≡ in_listing_order end (seen_fields names fields.now)) }
{
    let mut listed = Vec::new(alloc);
    for field in fields {
        put_field(&mut listed, field.0.share()?, field.1.share()?)?;
    }
    List::from_vec(alloc, listed)
}
