//! The attributes of an element: what they show.

ghost use Rattle.std.specs.Prelude.{◌≡◌, ◌++◌, List, codes};
ghost use Rattle.std.specs.Option.{option_copied, option_map};
ghost use Rattle.qk_ast.specs.Texts as texts;
ghost use Rattle.qk_meaning.specs.Value.{Site};
ghost use Rattle.qk_meaning.specs.Parts as parts;
ghost use Rattle.qk_meaning.specs.Texts.{integer_text};
ghost use Rattle.qk_meaning.specs.Html as meaning;
ghost use Rattle.qk_value.specs.View.{seen, seen_fields};
ghost use Rattle.qk_html.specs.Appends.{Appends};

use crate::escaping::attribute_text;
use crate::writing::{HtmlFault, push, put};
use itoa::Buffer;
use qk_shared::Text;
use qk_value::Value;

/// What an attribute of this value shows: the digits of an integer stand in the buffer. `None` where it isn't shown.
pub(crate) fn shown_as<'a>(v: &'a Value, digits: &'a mut Buffer) -> Option<&'a str>
    ensures { (names : Site → List texts.Text) → option_copied result ≡ meaning.shown_as (seen names v.now) }
{
    match v {
        Value::Text(text) => Some(text.as_str()),
        Value::Int(n) => Some(integer_text(*n, digits)),
        Value::Bool(true) => Some(""),
        Value::Bool(false) => None,
        Value::Undefined => None,
        Value::Null => None,
        Value::Ref(_) => None,
        Value::List(_) => None,
        Value::Record(_) => None,
        Value::Elem(_) => None,
        Value::Fun(_) => None,
    }
}

fn integer_text(n: i64, digits: &mut Buffer) -> &str
    ensures { result.now ≡ integer_text n }
{
    digits.format(n)
}

/// Appends the attributes of an element that are shown.
pub(crate) fn attributes_html(
    all: &[(Text, Value)],
    most: usize,
    out: &mut Vec<u8>,
) -> Result<(), HtmlFault>
    ensures { (names : Site → List texts.Text) → Appends (meaning.attributes_html (seen_fields names all.now)) most out.old.items out.new.items result }
{
    for attribute in all {
        attribute_html(&attribute.0, &attribute.1, most, out)?;
    }
    Ok(())
}

/// Appends an attribute where it is shown: a listener isn't, nor what has no text.
fn attribute_html(name: &Text, v: &Value, most: usize, out: &mut Vec<u8>) -> Result<(), HtmlFault>
    ensures { (names : Site → List texts.Text) → Appends (meaning.attribute_html name.now (seen names v.now)) most out.old.items out.new.items result }
{
    if ends_in_dollar(name.as_str().as_bytes()) {
        return Ok(());
    }
    let mut digits = Buffer::new();
    match shown_as(v, &mut digits) {
        Some(text) => shown_attribute(name, text.as_bytes(), most, out),
        None => Ok(()),
    }
}

fn ends_in_dollar(name: &[u8]) -> bool
    ensures { result ≡ texts.ends_in_dollar name.now }
{
    match name.last() {
        Some(last) => *last == b'$',
        None => false,
    }
}

/// Appends an attribute that shows this text.
fn shown_attribute(
    name: &Text,
    text: &[u8],
    most: usize,
    out: &mut Vec<u8>,
) -> Result<(), HtmlFault>
    ensures { Appends (codes " " ++ (name.now ++ (codes "=\"" ++ (meaning.written meaning.attribute_char text.now ++ codes "\"")))) most out.old.items out.new.items result }
{
    push(b" ", most, out)?;
    put(name, most, out)?;
    push(b"=\"", most, out)?;
    attribute_text(text, most, out)?;
    push(b"\"", most, out)
}

/// The first value of a name.
pub(crate) fn found<'a>(all: &'a [(Text, Value)], name: &str) -> Option<&'a Value>
    ensures { (names : Site → List texts.Text) → option_map (seen names) (option_copied result) ≡ parts.found name.now (seen_fields names all.now) }
{
    for attribute in all {
        if attribute.0.as_str() == name {
            return Some(&attribute.1);
        }
    }
    None
}
