//! The text of a value, and the methods of texts.

ghost use Rattle.std.specs.Prelude.{◌≡◌, ◌++◌, Bool, List, string_bytes, codes, length};
ghost use Rattle.std.specs.Option.{option_copied};
ghost use Rattle.qk_ast.specs.Texts as texts;
ghost use Rattle.qk_meaning.specs.Value as M;
ghost use Rattle.qk_meaning.specs.Value.{Site};
ghost use Rattle.qk_meaning.specs.Texts as meant;
ghost use Rattle.qk_meaning.specs.Parts.{listed};
ghost use Rattle.qk_meaning.specs.Operators as meaning;
ghost use Rattle.qk_meaning.specs.Methods.{looked_up, text_methods};
ghost use Rattle.qk_value.specs.View.{seen, seen_all};
ghost use Rattle.qk_ops.specs.Answering.{Gave};
ghost use Rattle.qk_ops.specs.Appending.{Appended};
ghost use Rattle.qk_ops.specs.Kinds.{as_operand, one_word, text_called};

use crate::kinds::as_text;
use crate::stop::OpStop;
use memchr::memmem;
use qk_shared::Text;
use qk_value::{Fault, Value};
use std::alloc::{AllocError, Global};

/// The most bytes of a text.
const MOST_BYTES: usize = 1048576;

/// The text of a primitive. A text is shared.
pub fn text_of(alloc: Global, v: &Value) -> Result<Text, OpStop>
    ensures { (names : Site → List texts.Text) → Gave (λ t. t) (meaning.text_of (seen names v.now)) result }
{
    if let Some(t) = as_text(v) {
        return match t.share() {
            Ok(t) => Ok(t),
            Err(_) => Err(OpStop::Memory),
        };
    }
    let mut text = String::new(alloc);
    append_text(v, &mut text)?;
    match Text::from_string(alloc, text) {
        Ok(t) => Ok(t),
        Err(_) => Err(OpStop::Memory),
    }
}

/// Appends the text of a primitive.
///
/// # Errors
///
/// `NotText` of any other value, and then nothing is appended.
pub fn append_text(v: &Value, to: &mut String) -> Result<(), OpStop>
    ensures { (names : Site → List texts.Text) → Appended (meaning.text_of (seen names v.now)) (string_bytes to.old) (string_bytes to.new) result }
{
    match v {
        Value::Undefined => push("undefined", to),
        Value::Null => push("null", to),
        Value::Bool(b) => {
            if *b {
                push("true", to)
            } else {
                push("false", to)
            }
        }
        Value::Int(n) => push_integer(*n, to),
        Value::Text(t) => push(t.as_str(), to),
        Value::Ref(_) => Err(OpStop::Fault(Fault::NotText)),
        Value::List(_) => Err(OpStop::Fault(Fault::NotText)),
        Value::Record(_) => Err(OpStop::Fault(Fault::NotText)),
        Value::Elem(_) => Err(OpStop::Fault(Fault::NotText)),
        Value::Fun(_) => Err(OpStop::Fault(Fault::NotText)),
    }
}

fn push(text: &str, to: &mut String) -> Result<(), OpStop>
    ensures { Appended (meaning.Is text.now) (string_bytes to.old) (string_bytes to.new) result }
{
    match to.push_str(text) {
        Ok(_) => Ok(()),
        Err(_) => Err(OpStop::Memory),
    }
}

fn push_integer(n: i64, to: &mut String) -> Result<(), OpStop>
    ensures { Appended (meaning.Is (meant.integer_text n)) (string_bytes to.old) (string_bytes to.new) result }
{
    let mut buffer = itoa::Buffer::new();
    push(buffer.format(n), to)
}

/// The texts of two values one after the other, of which one is a text.
pub(crate) fn joined(alloc: Global, a: &Value, b: &Value) -> Result<Value, OpStop>
    ensures { (names : Site → List texts.Text) → Gave (seen names) (meaning.texts_joined (meaning.text_of (seen names a.now)) (meaning.text_of (seen names b.now))) result }
{
    let Ok(mut text) = String::with_capacity(alloc, room(a).saturating_add(room(b))) else {
        return Err(OpStop::Memory);
    };
    append_operand(a, &mut text)?;
    append_operand(b, &mut text)?;
    short_text(alloc, text)
}

/// The most bytes that the text of a primitive has: an integer has at most 20, and no word is as long.
fn room(v: &Value) -> usize {
    match v {
        Value::Text(t) => t.len(),
        _ => 20,
    }
}

/// Appends the text of an operand; one that has none is a mismatch.
fn append_operand(v: &Value, to: &mut String) -> Result<(), OpStop>
    ensures { (names : Site → List texts.Text) → Appended (as_operand (meaning.text_of (seen names v.now))) (string_bytes to.old) (string_bytes to.new) result }
{
    match append_text(v, to) {
        Ok(()) => Ok(()),
        Err(OpStop::Fault(_)) => Err(OpStop::Fault(Fault::TypeMismatch)),
        Err(OpStop::Memory) => Err(OpStop::Memory),
    }
}

/// A text as a value, where it has at most 1 MiB.
pub fn short_text(alloc: Global, text: String) -> Result<Value, OpStop>
    ensures { (names : Site → List texts.Text) → Gave (seen names) (meaning.short_text (string_bytes text)) result }
{
    if text.len() > MOST_BYTES {
        return Err(OpStop::Fault(Fault::TextTooLong));
    }
    match Text::from_string(alloc, text) {
        Ok(t) => Ok(Value::Text(t)),
        Err(_) => Err(OpStop::Memory),
    }
}

/// The method of that name of a text, called with these arguments. It takes no memory.
///
/// # Errors
///
/// `NoProperty` where no method of texts has that name, and `TypeMismatch` where the arguments aren't one text.
pub fn text_call(name: &str, t: &str, args: &[Value]) -> Result<Value, OpStop>
    ensures { (names : Site → List texts.Text) → Gave (seen names) (text_called (looked_up name.now text_methods) t.now (listed (seen_all names args.now))) result }
{
    if name == "includes" {
        return match one_text(args) {
            Some(piece) => Ok(Value::Bool(includes(t, piece.as_str()))),
            None => Err(OpStop::Fault(Fault::TypeMismatch)),
        };
    }
    if name == "startsWith" {
        return match one_text(args) {
            Some(piece) => Ok(Value::Bool(starts_with(t, piece.as_str()))),
            None => Err(OpStop::Fault(Fault::TypeMismatch)),
        };
    }
    Err(OpStop::Fault(Fault::NoProperty))
}

/// The one argument that has to be a text.
fn one_text(args: &[Value]) -> Option<&Text>
    ensures { (names : Site → List texts.Text) → option_copied result ≡ one_word (listed (seen_all names args.now)) }
{
    if args.len() == 1 {
        as_text(&args[0])
    } else {
        None
    }
}

/// Whether a text has this piece, in the time of one walk over both.
fn includes(t: &str, piece: &str) -> bool
    ensures { result ≡ meant.includes t.now piece.now }
{
    memmem::find(t.as_bytes(), piece.as_bytes()).is_some()
}

/// Whether a text begins with this piece.
fn starts_with(t: &str, piece: &str) -> bool
    ensures { result ≡ meant.starts_with t.now piece.now }
{
    begins(t.as_bytes(), piece.as_bytes())
}

fn begins(text: &[u8], piece: &[u8]) -> bool
    ensures { result ≡ meant.starts_with text.now piece.now }
{
    text.starts_with(piece)
}

/// How many UTF-16 code units a text has.
pub fn utf16_length(t: &str) -> u64
    ensures { result ≡ meant.utf16_length t.now }
{
    let mut units = 0;
    for byte in t.as_bytes() {
        units += units_at(*byte);
    }
    units
}

/// The code units of the character that begins with this byte, and 0 for a byte inside a character.
fn units_at(byte: u8) -> u64
    ensures { result ≡ meant.units_at byte }
{
    if byte < 128 {
        1
    } else if byte < 192 {
        0
    } else if byte < 240 {
        1
    } else {
        2
    }
}
