//! Methods by their names.

ghost use Rattle.std.specs.Prelude.{◌≡◌, List, option_map};
ghost use Rattle.qk_ast.specs.Texts as texts;
ghost use Rattle.qk_meaning.specs.Value as M;
ghost use Rattle.qk_meaning.specs.Value.{Site};
ghost use Rattle.qk_meaning.specs.Heap.{object_at};
ghost use Rattle.qk_meaning.specs.Methods as methods;
ghost use Rattle.qk_value.specs.View.{seen};
ghost use Rattle.qk_heap.specs.Seen.{heap_seen};
ghost use Rattle.qk_acts.specs.Naming.{method_seen};

use qk_heap::{Heap, Object};
use qk_ops::as_text;
use qk_shared::Text;
use qk_value::{Addr, Value};

/// The methods of lists, arrays and texts.
#[derive(Clone, Copy, Debug, Drop, PartialEq, Eq)]
pub enum Method {
    Map,
    Filter,
    Slice,
    Join,
    Push,
    Pop,
    Splice,
    Includes,
    StartsWith,
}

/// The method that a key names of a value; `None` exactly where it names none.
pub fn method_of(heap: &Heap, object: &Value, key: &Value) -> Option<Method>
    ensures { (names : Site → List texts.Text) → option_map method_seen result ≡ methods.method_of (heap_seen names heap.now) (seen names object.now) (seen names key.now) }
{
    let name = as_text(key)?;
    method_named(heap, object, name)
}

/// The method of that name of a value.
fn method_named(heap: &Heap, object: &Value, name: &Text) -> Option<Method>
    ensures { (names : Site → List texts.Text) → option_map method_seen result ≡ methods.method_of (heap_seen names heap.now) (seen names object.now) (M.Words name.now) }
{
    match object {
        Value::List(_) => list_method(name.as_str()),
        Value::Ref(a) => object_method(heap, *a, name.as_str()),
        Value::Text(_) => text_method(name.as_str()),
        Value::Undefined => None,
        Value::Null => None,
        Value::Bool(_) => None,
        Value::Int(_) => None,
        Value::Record(_) => None,
        Value::Elem(_) => None,
        Value::Fun(_) => None,
    }
}

/// The method of that name of the object at an address; only arrays have some.
fn object_method(heap: &Heap, a: Addr, name: &str) -> Option<Method>
    ensures { (names : Site → List texts.Text) → option_map method_seen result ≡ methods.object_method (object_at (heap_seen names heap.now) a.0) name.now }
{
    match heap.object(a)? {
        Object::Array(_) => list_method(name),
        Object::Plain(_) => None,
        Object::Signal(_) => None,
        Object::Computed(_) => None,
        Object::Props(_) => None,
    }
}

/// The method of that name of lists and arrays.
fn list_method(name: &str) -> Option<Method>
    ensures { option_map method_seen result ≡ methods.looked_up name.now methods.list_methods }
{
    match name {
        "map" => Some(Method::Map),
        "filter" => Some(Method::Filter),
        "slice" => Some(Method::Slice),
        "join" => Some(Method::Join),
        "push" => Some(Method::Push),
        "pop" => Some(Method::Pop),
        "splice" => Some(Method::Splice),
        _ => None,
    }
}

/// The method of that name of texts.
fn text_method(name: &str) -> Option<Method>
    ensures { option_map method_seen result ≡ methods.looked_up name.now methods.text_methods }
{
    match name {
        "includes" => Some(Method::Includes),
        "startsWith" => Some(Method::StartsWith),
        _ => None,
    }
}
