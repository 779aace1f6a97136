//! The methods that change an array.

ghost use Rattle.std.specs.Prelude.{◌≡◌, List, map, IfOk};
ghost use Rattle.qk_ast.specs.Texts as texts;
ghost use Rattle.qk_meaning.specs.Value.{Site};
ghost use Rattle.qk_meaning.specs.Heap.{object_at};
ghost use Rattle.qk_meaning.specs.Methods as methods;
ghost use Rattle.qk_heap.specs.Seen.{object_seen, heap_seen};
ghost use Rattle.qk_making.specs.Acting.{ActsIn, seen_in};

use crate::arguments::{only, two_integers};
use crate::way::way_to;
use qk_code::{Host, Mode, Stop};
use qk_heap::{Heap, Object};
use qk_making::make_list;
use qk_shared::Builder;
use qk_value::{Addr, Fault, Value};
use std::alloc::{AllocError, Global};

/// `push` of a value with these arguments: one item more at the end of an array; its new length.
///
/// # Errors
///
/// As for a write; then `TypeMismatch` unless there is one argument, and `ListTooLong`.
pub fn push<H: Host>(
    mode: Mode,
    heap: &mut Heap,
    v: &Value,
    arguments: &[Value],
    host: &mut H,
) -> Result<Value, Stop>
    ensures { ActsIn mode seen_in (λ here. methods.method_called here methods.Push (seen_in here v.now) (map (seen_in here) arguments.now)) heap.old (H.stands_for host.old) result heap.new (H.stands_for host.new) }
{
    let a = way_to(mode, heap, v)?;
    let Some(item) = only(arguments) else {
        return Err(Stop::Fault(Fault::TypeMismatch));
    };
    if !holds_array(heap, a) {
        return Err(Stop::Fault(Fault::TypeMismatch));
    }
    let count = heap.push(a, item.share()?, host)?;
    Ok(Value::Int(count as i64))
}

/// `pop` of a value with these arguments: the last item of an array goes and is given; undefined where there is none.
///
/// # Errors
///
/// As for a write; then `TypeMismatch` where there is an argument.
pub fn pop<H: Host>(
    mode: Mode,
    heap: &mut Heap,
    v: &Value,
    arguments: &[Value],
    host: &mut H,
) -> Result<Value, Stop>
    ensures { ActsIn mode seen_in (λ here. methods.method_called here methods.Pop (seen_in here v.now) (map (seen_in here) arguments.now)) heap.old (H.stands_for host.old) result heap.new (H.stands_for host.new) }
{
    let a = way_to(mode, heap, v)?;
    if !arguments.is_empty() {
        return Err(Stop::Fault(Fault::TypeMismatch));
    }
    if !holds_array(heap, a) {
        return Err(Stop::Fault(Fault::TypeMismatch));
    }
    heap.read_whole(a, host)?;
    Ok(heap.pop(a, host)?)
}

/// `splice` of a value with these arguments: so many items of an array go from a place on; a new list of them.
///
/// # Errors
///
/// As for a write; then `TypeMismatch` unless the arguments are two integers.
pub fn splice<H: Host>(
    alloc: Global,
    mode: Mode,
    heap: &mut Heap,
    v: &Value,
    arguments: &[Value],
    host: &mut H,
) -> Result<Value, Stop>
    ensures { ActsIn mode seen_in (λ here. methods.method_called here methods.Splice (seen_in here v.now) (map (seen_in here) arguments.now)) heap.old (H.stands_for host.old) result heap.new (H.stands_for host.new) }
{
    let a = way_to(mode, heap, v)?;
    let Some((start, count)) = two_integers(arguments) else {
        return Err(Stop::Fault(Fault::TypeMismatch));
    };
    if !holds_array(heap, a) {
        return Err(Stop::Fault(Fault::TypeMismatch));
    }
    heap.read_whole(a, host)?;
    let cut = heap.splice(a, start, count, host)?;
    make_list(alloc, mode, heap, builder_of(alloc, cut)?)
}

/// Whether the object at an address is an array.
fn holds_array(heap: &Heap, a: Addr) -> bool
    ensures { (names : Site → List texts.Text) → result ≡ methods.is_array (object_at (heap_seen names heap.now) a.0) }
{
    match heap.object(a) {
        Some(object) => is_array(object),
        None => false,
    }
}

fn is_array(object: &Object) -> bool
    ensures { (names : Site → List texts.Text) → result ≡ methods.is_array (object_seen names object.now) }
{
    match object {
        Object::Array(_) => true,
        Object::Plain(_) => false,
        Object::Signal(_) => false,
        Object::Computed(_) => false,
        Object::Props(_) => false,
    }
}

/// These values as a list that is being made.
fn builder_of(alloc: Global, all: Vec<Value>) -> Result<Builder<Value>, AllocError>
    ensures { IfOk result (λ items. items ≡ all.items) }
{
    let mut items = Builder::new(alloc);
    for v in all {
        items.push(v)?;
    }
    Ok(items)
}
