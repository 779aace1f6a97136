//! Lists.

ghost use Rattle.std.specs.Prelude.{◌≡◌, map, false};
ghost use Rattle.qk_meaning.specs.Making as making;
ghost use Rattle.qk_meaning.specs.Setting.{Setting, is_effect};
ghost use Rattle.qk_code.specs.declared.mode.Mode.TheVariants as mode;
ghost use Rattle.qk_making.specs.Acting.{Leaves, MakesIn, seen_in};

use crate::fixed::{MOST, fixed};
use qk_code::{Mode, Stop};
use qk_heap::{Heap, Items, Object};
use qk_shared::Builder;
use qk_value::{Fault, Value};
use std::alloc::Global;

/// A list of these items: a fresh state object in the mode Effect, else a fixed value.
///
/// # Errors
///
/// `ListTooLong` of more than 65,536 items; of a fixed value, `TreeTooLarge` and `TreeTooDeep`.
pub fn make_list(
    alloc: Global,
    mode: Mode,
    heap: &mut Heap,
    items: Builder<Value>,
) -> Result<Value, Stop>
    ensures { MakesIn mode seen_in (λ here. making.made_list here (map (seen_in here) items)) heap.old result heap.new }
{
    match mode {
        Mode::Effect => make_array(heap, items),
        Mode::Pure => fixed_list(alloc, items),
        Mode::Track => fixed_list(alloc, items),
    }
}

/// A fresh array of these items.
fn make_array(heap: &mut Heap, items: Builder<Value>) -> Result<Value, Stop>
    ensures { MakesIn mode.Effect seen_in (λ here. making.made_list here (map (seen_in here) items)) heap.old result heap.new }
{
    let Some(items) = Items::from_vec(items.into_vec()) else {
        return Err(Stop::Fault(Fault::ListTooLong));
    };
    let address = heap.make(Object::Array(items))?;
    Ok(Value::Ref(address))
}

/// A fixed list of these items.
fn fixed_list(alloc: Global, items: Builder<Value>) -> Result<Value, Stop>
    ensures { (here : Setting) → is_effect here.mode ≡ false → Leaves (seen_in here) (making.made_list here (map (seen_in here) items)) result }
{
    if items.len() > MOST {
        return Err(Stop::Fault(Fault::ListTooLong));
    }
    fixed(Value::List(items.into_list(alloc)?))
}
