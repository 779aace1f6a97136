//! What stands in the way of a change.

ghost use Rattle.std.specs.Prelude.{◌≡◌, List};
ghost use Rattle.qk_ast.specs.Texts as texts;
ghost use Rattle.qk_meaning.specs.Value.{Site};
ghost use Rattle.qk_meaning.specs.Writing as writing;
ghost use Rattle.qk_heap.specs.Seen.{object_seen};
ghost use Rattle.qk_acts.specs.Ways.{WayTo};

use qk_code::Mode;
use qk_heap::{Heap, Object};
use qk_value::{Addr, Fault, Value};

/// The address of the state object that a value is, where nothing stands in the way of a change of it.
///
/// # Errors
///
/// `NoProperty` of a value that has no properties, `FixedWrite` of fixed values, props and computeds, `RenderWrite` in another mode than Effect.
pub(crate) fn way_to(mode: Mode, heap: &Heap, v: &Value) -> Result<Addr, Fault>
    ensures { WayTo mode heap.now v.now result }
{
    match v {
        Value::Ref(a) => way_at(mode, heap, *a),
        Value::List(_) => Err(Fault::FixedWrite),
        Value::Record(_) => Err(Fault::FixedWrite),
        Value::Elem(_) => Err(Fault::FixedWrite),
        Value::Fun(_) => Err(Fault::FixedWrite),
        Value::Undefined => Err(Fault::NoProperty),
        Value::Null => Err(Fault::NoProperty),
        Value::Bool(_) => Err(Fault::NoProperty),
        Value::Int(_) => Err(Fault::NoProperty),
        Value::Text(_) => Err(Fault::NoProperty),
    }
}

/// The same of an address.
fn way_at(mode: Mode, heap: &Heap, a: Addr) -> Result<Addr, Fault>
    ensures { WayTo mode heap.now (Value.Ref a) result }
{
    let Some(object) = heap.object(a) else {
        return Err(Fault::NoProperty);
    };
    if !is_state(object) {
        return Err(Fault::FixedWrite);
    }
    match mode {
        Mode::Effect => Ok(a),
        Mode::Pure => Err(Fault::RenderWrite),
        Mode::Track => Err(Fault::RenderWrite),
    }
}

/// Whether it is a state object: a plain one, an array or a signal.
fn is_state(object: &Object) -> bool
    ensures { (names : Site → List texts.Text) → result ≡ writing.is_state (object_seen names object.now) }
{
    match object {
        Object::Plain(_) => true,
        Object::Array(_) => true,
        Object::Signal(_) => true,
        Object::Computed(_) => false,
        Object::Props(_) => false,
    }
}
