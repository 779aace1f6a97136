//! The attributes of JSX values.

ghost use Rattle.std.specs.Prelude.{◌≡◌, IfOk};
ghost use Rattle.std.specs.Option.{option_copied, option_map};
ghost use Rattle.qk_ast.specs.Texts as texts;
ghost use Rattle.qk_meaning.specs.Parts as parts;
ghost use Rattle.qk_meaning.specs.Texts as keys;
ghost use Rattle.qk_meaning.specs.Markup as meaning;
ghost use Rattle.qk_value.specs.Faults.{fault_of};
ghost use Rattle.qk_value.specs.View.{seen, seen_fields};
ghost use Rattle.qk_environment.specs.Scoping.{Captures};
ghost use Rattle.qk_making.specs.Trying.{Tried};
ghost use Rattle.qk_making.specs.Attributes.{text_under, is_own};

use qk_code::Stop;
use qk_ops::{as_text, is_function, is_nullish, is_primitive};
use qk_shared::{Builder, List, Text};
use qk_value::{Fault, Value, is_forbidden};
use std::alloc::{AllocError, Global};

/// Tries attributes in their order: those of an element, or else those of a component, a fragment or a slot.
///
/// # Errors
///
/// The first fault: `NotText`, `NotCallable` or `NoProperty`.
pub(crate) fn try_attributes(element: bool, attributes: &[(Text, Value)]) -> Result<(), Stop>
    ensures { (names : Captures) → Tried (meaning.attributes_fault element (seen_fields names attributes.now)) result }
{
    for attribute in attributes {
        try_attribute(element, &attribute.0, &attribute.1)?;
    }
    Ok(())
}

fn try_attribute(element: bool, name: &Text, v: &Value) -> Result<(), Stop>
    ensures { (names : Captures) → Tried (meaning.attribute_fault element name.now (seen names v.now)) result }
{
    if name.as_str() == "key" {
        return only_if(is_key(v), Fault::NotText);
    }
    if element {
        return try_on_element(name, v);
    }
    only_if(!is_forbidden(name.as_str()), Fault::NoProperty)
}

/// A listener's attribute ends in `$`.
fn try_on_element(name: &Text, v: &Value) -> Result<(), Stop>
    ensures { (names : Captures) → Tried (meaning.element_attribute_fault name.now (seen names v.now)) result }
{
    if ends_in_dollar(name.as_str().as_bytes()) {
        return only_if(is_function(v) || is_nullish(v), Fault::NotCallable);
    }
    only_if(is_primitive(v), Fault::NotText)
}

/// A fault, unless this holds.
fn only_if(holds: bool, fault: Fault) -> Result<(), Stop>
    ensures { Tried (meaning.unless holds (fault_of fault)) result }
{
    if holds {
        Ok(())
    } else {
        Err(Stop::Fault(fault))
    }
}

fn ends_in_dollar(name: &[u8]) -> bool
    ensures { result ≡ texts.ends_in_dollar name.now }
{
    match name.last() {
        Some(last) => *last == b'$',
        None => false,
    }
}

/// Whether a value can be a key.
fn is_key(v: &Value) -> bool
    ensures { (names : Captures) → result ≡ meaning.is_key_value (seen names v.now) }
{
    match v {
        Value::Int(_) => true,
        Value::Text(_) => true,
        Value::Undefined => false,
        Value::Null => false,
        Value::Bool(_) => false,
        Value::Ref(_) => false,
        Value::List(_) => false,
        Value::Record(_) => false,
        Value::Elem(_) => false,
        Value::Fun(_) => false,
    }
}

/// The first value of a name.
fn found<'a>(attributes: &'a [(Text, Value)], name: &str) -> Option<&'a Value>
    ensures { (names : Captures) → option_map (seen names) (option_copied result) ≡ parts.found name.now (seen_fields names attributes.now) }
{
    for attribute in attributes {
        if attribute.0.as_str() == name {
            return Some(&attribute.1);
        }
    }
    None
}

/// The text of the key, where there is one.
pub(crate) fn key_among(
    alloc: Global,
    attributes: &[(Text, Value)],
) -> Result<Option<Text>, AllocError>
    ensures { IfOk result (λ key. (names : Captures) → key ≡ meaning.key_among (seen_fields names attributes.now)) }
{
    match found(attributes, "key") {
        Some(v) => key_text(alloc, v),
        None => Ok(None),
    }
}

fn key_text(alloc: Global, v: &Value) -> Result<Option<Text>, AllocError>
    ensures { IfOk result (λ key. (names : Captures) → key ≡ meaning.key_text (seen names v.now)) }
{
    match v {
        Value::Int(n) => Ok(Some(integer_text(alloc, *n)?)),
        Value::Text(text) => Ok(Some(text.share()?)),
        Value::Undefined => Ok(None),
        Value::Null => Ok(None),
        Value::Bool(_) => Ok(None),
        Value::Ref(_) => Ok(None),
        Value::List(_) => Ok(None),
        Value::Record(_) => Ok(None),
        Value::Elem(_) => Ok(None),
        Value::Fun(_) => Ok(None),
    }
}

fn integer_text(alloc: Global, n: i64) -> Result<Text, AllocError>
    ensures { IfOk result (λ text. text ≡ keys.integer_text n) }
{
    let mut buffer = itoa::Buffer::new();
    Text::from_str(alloc, buffer.format(n))
}

/// The text of the first attribute of that name, and the empty text where there is none.
pub(crate) fn text_among(
    alloc: Global,
    attributes: &[(Text, Value)],
    name: &str,
) -> Result<Text, AllocError>
    ensures { IfOk result (λ text. (names : Captures) → text ≡ text_under name.now (seen_fields names attributes.now)) }
{
    match found(attributes, name) {
        Some(v) => text_in(alloc, v),
        None => Text::from_str(alloc, ""),
    }
}

/// The text that a value is, and the empty text of another one.
fn text_in(alloc: Global, v: &Value) -> Result<Text, AllocError>
    ensures { IfOk result (λ text. (names : Captures) → text ≡ meaning.words_of (seen names v.now)) }
{
    match as_text(v) {
        Some(text) => text.share(),
        None => Text::from_str(alloc, ""),
    }
}

/// The attributes that are no parts of their own.
pub(crate) fn shown_attributes(
    alloc: Global,
    attributes: &[(Text, Value)],
) -> Result<List<(Text, Value)>, AllocError>
    ensures { IfOk result (λ shown. (names : Captures) → seen_fields names shown ≡ meaning.shown_attributes (seen_fields names attributes.now)) }
{
    let mut shown = Builder::new(alloc);
    for attribute in attributes {
        if is_own_part(&attribute.0) {
            continue;
        }
        shown.push((attribute.0.share()?, attribute.1.share()?))?;
    }
    shown.into_list(alloc)
}

/// Whether an attribute of this name is kept as a part of its own: as the key, or as the name of the slot.
fn is_own_part(name: &Text) -> bool
    ensures { result ≡ is_own name.now }
{
    name.as_str() == "key" || name.as_str() == "q:slot"
}
