//! The items of lists and arrays.

ghost use Rattle.std.specs.Prelude.{◌≡◌, map, slice_get, IfOk};
ghost use Rattle.std.specs.Option.{option_copied};
ghost use Rattle.qk_meaning.specs.Value as M;
ghost use Rattle.qk_meaning.specs.Methods as methods;
ghost use Rattle.qk_meaning.specs.Setting.{Setting, captures};
ghost use Rattle.qk_heap.specs.Seen.{heap_seen};
ghost use Rattle.qk_making.specs.Acting.{Acts, seen_in};
ghost use Rattle.qk_acts.specs.Lists.{array_in};

use qk_code::{Host, Stop};
use qk_heap::{Heap, Items, Object};
use qk_shared::{Builder, List};
use qk_value::{Addr, Fault, Value};
use std::alloc::{AllocError, Global};

/// The items of a list or array, as they are now; the host is told that an array is read whole.
///
/// # Errors
///
/// `TypeMismatch` of all else.
pub fn items_of<H: Host>(
    alloc: Global,
    heap: &Heap,
    v: &Value,
    host: &mut H,
) -> Result<List<Value>, Stop>
    ensures { (here : Setting) → Acts (map (seen_in here)) (methods.all_items (seen_in here v.now)) (heap_seen (captures here) heap.now) (H.stands_for host.old) result (heap_seen (captures here) heap.now) (H.stands_for host.new) }
{
    match v {
        Value::List(items) => Ok(items.share()?),
        Value::Ref(a) => items_at(alloc, heap, *a, host),
        Value::Undefined => Err(Stop::Fault(Fault::TypeMismatch)),
        Value::Null => Err(Stop::Fault(Fault::TypeMismatch)),
        Value::Bool(_) => Err(Stop::Fault(Fault::TypeMismatch)),
        Value::Int(_) => Err(Stop::Fault(Fault::TypeMismatch)),
        Value::Text(_) => Err(Stop::Fault(Fault::TypeMismatch)),
        Value::Record(_) => Err(Stop::Fault(Fault::TypeMismatch)),
        Value::Elem(_) => Err(Stop::Fault(Fault::TypeMismatch)),
        Value::Fun(_) => Err(Stop::Fault(Fault::TypeMismatch)),
    }
}

/// The items of the array at an address, which is read whole.
fn items_at<H: Host>(alloc: Global, heap: &Heap, a: Addr, host: &mut H) -> Result<List<Value>, Stop>
    ensures { (here : Setting) → Acts (map (seen_in here)) (methods.all_items (M.Ref a.0)) (heap_seen (captures here) heap.now) (H.stands_for host.old) result (heap_seen (captures here) heap.now) (H.stands_for host.new) }
{
    let Some(items) = array_at(heap, a) else {
        return Err(Stop::Fault(Fault::TypeMismatch));
    };
    heap.read_whole(a, host)?;
    let all = shared(alloc, items.as_slice())?;
    Ok(all.into_list(alloc)?)
}

/// The array at an address; `None` exactly where none is there.
fn array_at(heap: &Heap, a: Addr) -> Option<&Items>
    ensures { option_copied result ≡ array_in (slice_get heap.now a.0) }
{
    match heap.object(a)? {
        Object::Array(items) => Some(items),
        Object::Plain(_) => None,
        Object::Signal(_) => None,
        Object::Computed(_) => None,
        Object::Props(_) => None,
    }
}

/// These values once more, which aren't copied.
pub(crate) fn shared(alloc: Global, items: &[Value]) -> Result<Builder<Value>, AllocError>
    ensures { IfOk result (λ all. all ≡ items.now) }
{
    let mut all = Builder::new(alloc);
    for item in items {
        all.push(item.share()?)?;
    }
    Ok(all)
}
