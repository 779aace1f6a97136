//! Answers as texts, so that what is wanted stands in a table.

use qk_code::Stop;
use qk_heap::{Fields, Heap, Object};
use qk_ops::{OpStop, append_text};
use qk_shared::Text;
use qk_value::{Elem, ElemTag, Fun, FunCode, Value};
use std::alloc::{AllocError, Global};

/// A value with what it is made of, or the name of a fault.
pub(crate) fn shown(
    alloc: Global,
    heap: &Heap,
    answer: &Result<Value, Stop>,
) -> Result<String, AllocError> {
    let mut text = String::new(alloc);
    match answer {
        Ok(v) => show(&mut text, heap, v)?,
        Err(Stop::Fault(f)) => text.push_str(f.name())?,
        Err(_) => text.push_str("stopped")?,
    }
    Ok(text)
}

/// An object is shown by what it holds.
pub(crate) fn show(to: &mut String, heap: &Heap, v: &Value) -> Result<(), AllocError> {
    match v {
        Value::List(items) => show_all(to, "list", items.as_slice()),
        Value::Record(fields) => show_fields(to, "record", fields.as_slice()),
        Value::Elem(element) => show_element(to, element.get()),
        Value::Fun(function) => show_function(to, function),
        Value::Ref(a) => match heap.object(*a) {
            Some(object) => show_object(to, object),
            None => to.push_str("nothing"),
        },
        _ => show_word(to, v),
    }
}

/// The text of a primitive.
fn show_word(to: &mut String, v: &Value) -> Result<(), AllocError> {
    match append_text(v, to) {
        Ok(_) => Ok(()),
        Err(OpStop::Fault(f)) => to.push_str(f.name()),
        Err(OpStop::Memory) => Err(AllocError),
    }
}

fn show_all(to: &mut String, kind: &str, all: &[Value]) -> Result<(), AllocError> {
    to.push_str(kind)?;
    for v in all {
        to.push_str(" ")?;
        show_word(to, v)?;
    }
    Ok(())
}

fn show_field(to: &mut String, name: &Text, v: &Value) -> Result<(), AllocError> {
    to.push_str(" ")?;
    to.push_str(name.as_str())?;
    to.push_str("=")?;
    show_word(to, v)
}

fn show_fields(to: &mut String, kind: &str, fields: &[(Text, Value)]) -> Result<(), AllocError> {
    to.push_str(kind)?;
    for (name, v) in fields {
        show_field(to, name, v)?;
    }
    Ok(())
}

fn show_held(to: &mut String, kind: &str, fields: &Fields) -> Result<(), AllocError> {
    to.push_str(kind)?;
    for at in 0..fields.len() {
        if let Some((name, v)) = fields.nth(at) {
            show_field(to, name, v)?;
        }
    }
    Ok(())
}

fn show_object(to: &mut String, object: &Object) -> Result<(), AllocError> {
    match object {
        Object::Array(items) => show_all(to, "array", items.as_slice()),
        Object::Plain(fields) => show_held(to, "plain", fields),
        Object::Props(fields) => show_held(to, "props", fields),
        Object::Signal(v) => {
            to.push_str("signal ")?;
            show_word(to, v)
        }
        Object::Computed(_) => to.push_str("computed"),
    }
}

fn show_function(to: &mut String, function: &Fun) -> Result<(), AllocError> {
    let mark = if function.hidden { "hidden " } else { "" };
    to.push_str(mark)?;
    match &function.code {
        FunCode::Symbol(symbol) => show_all(to, symbol.as_str(), function.captures.as_slice()),
        FunCode::Plain { file, number } => {
            write!(to, "{number} of ")?;
            show_all(to, file.as_str(), function.captures.as_slice())
        }
    }
}

fn show_element(to: &mut String, element: &Elem) -> Result<(), AllocError> {
    let kind = match &element.tag {
        ElemTag::Element(tag) => tag.as_str(),
        ElemTag::Component(symbol) => symbol.as_str(),
        ElemTag::Slot(name) => name.as_str(),
        ElemTag::Fragment => "fragment",
    };
    show_fields(to, kind, element.attrs.as_slice())?;
    if let Some(key) = &element.key {
        write!(to, " key {}", key.as_str())?;
    }
    write!(to, " slot {}", element.slot.as_str())?;
    show_all(to, ":", element.children.as_slice())
}
