//! The known calls.

ghost use Rattle.std.specs.Prelude.{◌≡◌, List, map, IfOk};
ghost use Rattle.qk_ast.specs.Texts as texts;
ghost use Rattle.qk_meaning.specs.Value as M;
ghost use Rattle.qk_meaning.specs.Value.{Site};
ghost use Rattle.qk_meaning.specs.Parts.{names_of};
ghost use Rattle.qk_meaning.specs.Methods.{as_values};
ghost use Rattle.qk_meaning.specs.Calls as calls;
ghost use Rattle.qk_meaning.specs.Setting.{Setting, captures};
ghost use Rattle.qk_value.specs.View.{seen, seen_fields};
ghost use Rattle.qk_heap.specs.declared.object.Object.{Object as Held};
ghost use Rattle.qk_heap.specs.Seen.{heap_seen};
ghost use Rattle.qk_making.specs.Acting.{Acts, ActsIn, Leaves, seen_in};
ghost use Rattle.qk_acts.specs.Keying.{keys_read};

use crate::arguments::only;
use qk_ast::Known;
use qk_code::{Host, Mode, Stop};
use qk_heap::{Heap, Key, Loc};
use qk_making::make_list;
use qk_ops::{text_of, trunc};
use qk_shared::{Builder, Text};
use qk_value::{Addr, Fault, Value};
use std::alloc::{AllocError, Global};

/// `console.log`, `Object.keys`, `String` or `Math.trunc` with these arguments.
///
/// # Errors
///
/// `TypeMismatch` for another number of arguments; `RenderLog` of a line in another mode than Effect, then `NotText`; what the call refuses.
pub fn call_known<H: Host>(
    alloc: Global,
    mode: Mode,
    heap: &mut Heap,
    known: Known,
    arguments: &[Value],
    host: &mut H,
) -> Result<Value, Stop>
    ensures { ActsIn mode seen_in (λ here. calls.known_called here known (map (seen_in here) arguments.now)) heap.old (H.stands_for host.old) result heap.new (H.stands_for host.new) }
{
    match known {
        Known::Log => log_line(alloc, mode, arguments, host),
        Known::Keys => list_keys(alloc, mode, heap, arguments, host),
        Known::Str => as_text(alloc, arguments),
        Known::Trunc => truncated(arguments),
    }
}

/// `console.log`.
fn log_line<H: Host>(
    alloc: Global,
    mode: Mode,
    arguments: &[Value],
    host: &mut H,
) -> Result<Value, Stop>
    ensures { (objects : List Held) → ActsIn mode seen_in (λ here. calls.known_called here Known.Log (map (seen_in here) arguments.now)) objects (H.stands_for host.old) result objects (H.stands_for host.new) }
{
    let Some(v) = only(arguments) else {
        return Err(Stop::Fault(Fault::TypeMismatch));
    };
    if mode != Mode::Effect {
        return Err(Stop::Fault(Fault::RenderLog));
    }
    let line = text_of(alloc, v)?;
    host.line(line)?;
    Ok(Value::Undefined)
}

/// `Object.keys`.
fn list_keys<H: Host>(
    alloc: Global,
    mode: Mode,
    heap: &mut Heap,
    arguments: &[Value],
    host: &mut H,
) -> Result<Value, Stop>
    ensures { ActsIn mode seen_in (λ here. calls.known_called here Known.Keys (map (seen_in here) arguments.now)) heap.old (H.stands_for host.old) result heap.new (H.stands_for host.new) }
{
    let Some(v) = only(arguments) else {
        return Err(Stop::Fault(Fault::TypeMismatch));
    };
    let names = key_names(alloc, heap, v, host)?;
    make_list(alloc, mode, heap, names)
}

/// The names of a record, a plain object or props; the host is told that an object's key list is read.
fn key_names<H: Host>(
    alloc: Global,
    heap: &Heap,
    v: &Value,
    host: &mut H,
) -> Result<Builder<Value>, Stop>
    ensures { (here : Setting) → Acts (map (seen_in here)) (keys_read (seen_in here v.now)) (heap_seen (captures here) heap.now) (H.stands_for host.old) result (heap_seen (captures here) heap.now) (H.stands_for host.new) }
{
    match v {
        Value::Record(fields) => Ok(field_names(alloc, fields.as_slice())?),
        Value::Ref(a) => object_names(alloc, heap, *a, host),
        Value::Undefined => Err(Stop::Fault(Fault::TypeMismatch)),
        Value::Null => Err(Stop::Fault(Fault::TypeMismatch)),
        Value::Bool(_) => Err(Stop::Fault(Fault::TypeMismatch)),
        Value::Int(_) => Err(Stop::Fault(Fault::TypeMismatch)),
        Value::Text(_) => Err(Stop::Fault(Fault::TypeMismatch)),
        Value::List(_) => Err(Stop::Fault(Fault::TypeMismatch)),
        Value::Elem(_) => Err(Stop::Fault(Fault::TypeMismatch)),
        Value::Fun(_) => Err(Stop::Fault(Fault::TypeMismatch)),
    }
}

/// The names of the object at an address.
fn object_names<H: Host>(
    alloc: Global,
    heap: &Heap,
    a: Addr,
    host: &mut H,
) -> Result<Builder<Value>, Stop>
    ensures { (here : Setting) → Acts (map (seen_in here)) (keys_read (M.Ref a.0)) (heap_seen (captures here) heap.now) (H.stands_for host.old) result (heap_seen (captures here) heap.now) (H.stands_for host.new) }
{
    let Some(object) = heap.object(a) else {
        return Err(Stop::Fault(Fault::TypeMismatch));
    };
    let Some(names) = object.names(alloc)? else {
        return Err(Stop::Fault(Fault::TypeMismatch));
    };
    let keys = Loc {
        addr: a,
        key: Key::Keys,
    };
    host.read(&keys)?;
    Ok(text_values(alloc, names)?)
}

/// The names of fields as values.
fn field_names(alloc: Global, fields: &[(Text, Value)]) -> Result<Builder<Value>, AllocError>
    ensures { IfOk result (λ all. (names : Site → List texts.Text) → map (seen names) all ≡ as_values (names_of (seen_fields names fields.now))) }
{
    let mut names = Builder::new(alloc);
    for (name, _) in fields {
        names.push(Value::Text(name.share()?))?;
    }
    Ok(names)
}

/// Texts as values.
fn text_values(alloc: Global, names: Vec<Text>) -> Result<Builder<Value>, AllocError>
    ensures { IfOk result (λ all. (captured : Site → List texts.Text) → map (seen captured) all ≡ as_values names.items) }
{
    let mut all = Builder::new(alloc);
    for name in names {
        all.push(Value::Text(name))?;
    }
    Ok(all)
}

/// `String`.
fn as_text(alloc: Global, arguments: &[Value]) -> Result<Value, Stop>
    ensures { (here : Setting) → Leaves (seen_in here) (calls.known_called here Known.Str (map (seen_in here) arguments.now)) result }
{
    let Some(v) = only(arguments) else {
        return Err(Stop::Fault(Fault::TypeMismatch));
    };
    Ok(Value::Text(text_of(alloc, v)?))
}

/// `Math.trunc` of a quotient.
fn truncated(arguments: &[Value]) -> Result<Value, Stop>
    ensures { (here : Setting) → Leaves (seen_in here) (calls.known_called here Known.Trunc (map (seen_in here) arguments.now)) result }
{
    let [a, b] = arguments else {
        return Err(Stop::Fault(Fault::TypeMismatch));
    };
    Ok(trunc(a, b)?)
}
