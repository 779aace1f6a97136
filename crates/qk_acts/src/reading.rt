//! What stands at a key of a value.

ghost use Rattle.std.specs.Prelude.{◌≡◌, ◌<◌, ◌≤◌, ℕ, pos, [], codes, OnOk, IfOk, IfErr, IfSome, IfNone};
ghost use Rattle.std.specs.Option.{option_copied, option_map};
ghost use Rattle.qk_meaning.specs.Value as M;
ghost use Rattle.qk_meaning.specs.World as W;
ghost use Rattle.qk_meaning.specs.Texts as texts;
ghost use Rattle.qk_meaning.specs.Parts.{listed, found, or_undefined, value_at};
ghost use Rattle.qk_meaning.specs.Heap as meaning;
ghost use Rattle.qk_value.specs.View.{seen, seen_all, seen_fields};
ghost use Rattle.qk_heap.specs.declared.object.Object as kinds;
ghost use Rattle.qk_heap.specs.Seen.{key_seen, object_seen, heap_seen};
ghost use Rattle.qk_heap.specs.Told.{Hears, all_read};
ghost use Rattle.qk_environment.specs.Scoping.{Captures};
ghost use Rattle.qk_code.specs.declared.stop.Stop.TheVariants.{Memory};
ghost use Rattle.qk_acts.specs.Looking.{Reads, LooksUp, locations_of, key_location, item_location, unless_refused};

use qk_code::{Host, Stop};
use qk_heap::{Fields, Heap, Key, Loc, Object, key_name};
use qk_ops::{as_int, as_text, utf16_length};
use qk_shared::Text;
use qk_value::{Addr, Fault, Fun, Value};
use std::alloc::{AllocError, Global};

/// Every index of a list is below this.
const MOST: i64 = 65536;

/// What stands at a key of a value: a value with the location that is read, or a computed by its function.
#[derive(Drop)]
pub enum Look {
    Found(Value, Option<Loc>),
    Runs(Addr, Fun),
}

/// What stands at this key of this value.
///
/// # Errors
///
/// `NoProperty` where the value has no such property, `TypeMismatch` of a key that is neither a name nor an integer.
pub fn look_up(alloc: Global, heap: &Heap, object: &Value, key: &Value) -> Result<Look, Stop>
    ensures { LooksUp heap.now object.now key.now result }
{
    match object {
        Value::Record(fields) => look_in_record(alloc, fields.as_slice(), key),
        Value::List(items) => look_in_list(items.as_slice(), None, key),
        Value::Text(text) => look_in_text(text.as_str(), key),
        Value::Ref(a) => look_at_address(alloc, heap, *a, key),
        Value::Undefined => Err(Stop::Fault(Fault::NoProperty)),
        Value::Null => Err(Stop::Fault(Fault::NoProperty)),
        Value::Bool(_) => Err(Stop::Fault(Fault::NoProperty)),
        Value::Int(_) => Err(Stop::Fault(Fault::NoProperty)),
        Value::Elem(_) => Err(Stop::Fault(Fault::NoProperty)),
        Value::Fun(_) => Err(Stop::Fault(Fault::NoProperty)),
    }
}

/// A field of a record; no location is read.
fn look_in_record(alloc: Global, fields: &[(Text, Value)], key: &Value) -> Result<Look, Stop>
    ensures { Reads (λ captured. meaning.at_name (λ t. meaning.Found (value_at t (seen_fields captured fields.now)) []) (seen captured key.now)) result }
{
    let name = key_name(alloc, key)?;
    let v = shared_or_undefined(first_named(fields, &name))?;
    Ok(Look::Found(v, None))
}

/// The value of the first field of that name.
fn first_named<'a>(fields: &'a [(Text, Value)], name: &Text) -> Option<&'a Value>
    ensures { (captured : Captures) → option_map (seen captured) (option_copied result) ≡ found name.now (seen_fields captured fields.now) }
{
    for (other, v) in fields {
        if other.is_same(name) {
            return Some(v);
        }
    }
    None
}

/// The value once more, undefined where there is none.
fn shared_or_undefined(v: Option<&Value>) -> Result<Value, AllocError>
    ensures { IfOk result (λ w. (captured : Captures) → seen captured w ≡ or_undefined (option_map (seen captured) (option_copied v.entry))) }
{
    match v {
        Some(v) => v.share(),
        None => Ok(Value::Undefined),
    }
}

/// The length or an item of a list; of an array, at its address.
fn look_in_list(items: &[Value], array: Option<Addr>, key: &Value) -> Result<Look, Stop>
    ensures { Reads (λ captured. meaning.read_list (listed (seen_all captured items.now)) (item_location array) (key_location array W.Length) (seen captured key.now)) result }
{
    if let Some(name) = as_text(key) {
        if name.as_str() != "length" {
            return Err(Stop::Fault(Fault::NoProperty));
        }
        let count = Value::Int(items.len() as i64);
        return Ok(Look::Found(count, location(array, Key::Length)));
    }
    match as_int(key) {
        Some(n) => look_at_index(items, array, n),
        None => Err(Stop::Fault(Fault::TypeMismatch)),
    }
}

/// The item at an index of a list, undefined past its end; at what is no index there is no location either.
fn look_at_index(items: &[Value], array: Option<Addr>, n: i64) -> Result<Look, Stop>
    ensures { Reads (λ captured. meaning.Found (meaning.at_index (listed (seen_all captured items.now)) n) (item_location array n)) result }
{
    let Some(index) = index_of(n) else {
        return Ok(Look::Found(Value::Undefined, None));
    };
    let v = shared_or_undefined(items.get(index as usize))?;
    Ok(Look::Found(v, location(array, Key::Index(index))))
}

/// The index that an integer is.
fn index_of(n: i64) -> Option<u32>
    ensures some { IfSome result (λ index. n ≡ pos index) }
    ensures small { IfSome result (λ index. index < 65536) }
    ensures none { IfNone result ((index : ℕ) → n ≡ pos index → 65536 ≤ index) }
{
    if n < 0 || n >= MOST {
        return None;
    }
    Some(n as u32)
}

/// The location of a key of an array.
fn location(array: Option<Addr>, key: Key) -> Option<Loc>
    ensures { locations_of result ≡ key_location array (key_seen key) }
{
    let addr = array?;
    Some(Loc { addr, key })
}

/// The length of a text, in UTF-16 code units.
fn look_in_text(text: &str, key: &Value) -> Result<Look, Stop>
    ensures { Reads (λ captured. meaning.only (codes "length") (meaning.Found (M.Int (pos (texts.utf16_length text.now))) []) (seen captured key.now)) result }
{
    only("length", key)?;
    Ok(Look::Found(Value::Int(code_units(text)), None))
}

fn code_units(text: &str) -> i64
    ensures { result ≡ pos (texts.utf16_length text.now) }
{
    utf16_length(text) as i64
}

/// The key, where it is the one name that a value has.
fn only<'a>(name: &str, key: &'a Value) -> Result<&'a Text, Fault>
    ensures read { (captured : Captures) (read : meaning.Member_read) → meaning.only name.now read (seen captured key.now) ≡ unless_refused result read }
    ensures name { IfOk result (λ t. t.now ≡ name.now) }
{
    if let Some(t) = as_text(key) {
        return if t.as_str() == name {
            Ok(t)
        } else {
            Err(Fault::NoProperty)
        };
    }
    match as_int(key) {
        Some(_) => Err(Fault::NoProperty),
        None => Err(Fault::TypeMismatch),
    }
}

/// What stands at a key of the object at an address.
fn look_at_address(alloc: Global, heap: &Heap, a: Addr, key: &Value) -> Result<Look, Stop>
    ensures { Reads (λ captured. meaning.read_member (heap_seen captured heap.now) (M.Ref a.0) (seen captured key.now)) result }
{
    match heap.object(a) {
        Some(object) => look_in_object(alloc, object, a, key),
        None => Err(Stop::Fault(Fault::NoProperty)),
    }
}

/// What stands at a key of an object.
fn look_in_object(alloc: Global, object: &Object, a: Addr, key: &Value) -> Result<Look, Stop>
    ensures { Reads (λ captured. meaning.read_object a.0 (object_seen captured object.now) (seen captured key.now)) result }
{
    match object {
        Object::Plain(fields) => look_in_fields(alloc, fields, a, key),
        Object::Props(fields) => look_in_fields(alloc, fields, a, key),
        Object::Array(items) => look_in_list(items.as_slice(), Some(a), key),
        Object::Signal(v) => {
            let name = only("value", key)?.share()?;
            let l = Loc {
                addr: a,
                key: Key::Prop(name),
            };
            Ok(Look::Found(v.share()?, Some(l)))
        }
        Object::Computed(f) => {
            only("value", key)?;
            Ok(Look::Runs(a, f.share()?))
        }
    }
}

/// A field of a plain object or of props.
fn look_in_fields(alloc: Global, fields: &Fields, a: Addr, key: &Value) -> Result<Look, Stop>
    ensures plain { Reads (λ captured. meaning.read_object a.0 (object_seen captured (kinds.Object.Plain fields.now)) (seen captured key.now)) result }
    ensures props { Reads (λ captured. meaning.read_object a.0 (object_seen captured (kinds.Object.Props fields.now)) (seen captured key.now)) result }
{
    let name = key_name(alloc, key)?;
    let v = shared_or_undefined(fields.get(&name))?;
    let l = Loc {
        addr: a,
        key: Key::Prop(name),
    };
    Ok(Look::Found(v, Some(l)))
}

/// Tells that a location is read, where there is one.
pub fn tell_read<H: Host>(location: &Option<Loc>, host: &mut H) -> Result<(), Stop>
    ensures told { OnOk result (Hears H.stands_for host.old (all_read (locations_of location.now)) host.new) }
    ensures memory { IfErr result (λ e. e ≡ Memory) }
{
    match location {
        None => Ok(()),
        Some(l) => {
            host.read(l)?;
            Ok(())
        }
    }
}
