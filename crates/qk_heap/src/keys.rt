//! The keys by which values are read and written.
ghost use Rattle.std.specs.Prelude.{◌≡◌, List, IfOk, IfErr};
ghost use Rattle.qk_ast.specs.Texts as texts;
ghost use Rattle.qk_meaning.specs.Value.{Site};
ghost use Rattle.qk_meaning.specs.Texts as meaning;
ghost use Rattle.qk_meaning.specs.Heap.{name_of_key, Name_is};
ghost use Rattle.qk_value.specs.View.{seen};
ghost use Rattle.qk_heap.specs.Keys.{NoName};

use crate::fault::HeapStop;
use qk_shared::Text;
use qk_value::{Fault, Value, is_forbidden};
use std::alloc::{AllocError, Global};

/// An integer in digits.
fn digits(alloc: Global, n: i64) -> Result<Text, AllocError>
    ensures { IfOk result (λ t. t ≡ meaning.integer_text n) }
{
    let mut buffer = itoa::Buffer::new();
    Text::from_str(alloc, buffer.format(n))
}

/// The name that a key is for records, plain objects and props; an integer is one by its digits.
pub fn key_name(alloc: Global, k: &Value) -> Result<Text, HeapStop>
    ensures name { IfOk result (λ t. (names : Site → List texts.Text) → name_of_key (seen names k.now) ≡ Name_is t) }
    ensures none { IfErr result (λ e. (names : Site → List texts.Text) → NoName e (name_of_key (seen names k.now))) }
{
    match k {
        Value::Text(name) => {
            if is_forbidden(name.as_str()) {
                return Err(HeapStop::Fault(Fault::NoProperty));
            }
            Ok(name.share()?)
        }
        Value::Int(n) => Ok(digits(alloc, *n)?),
        Value::Undefined => Err(HeapStop::Fault(Fault::TypeMismatch)),
        Value::Null => Err(HeapStop::Fault(Fault::TypeMismatch)),
        Value::Bool(_) => Err(HeapStop::Fault(Fault::TypeMismatch)),
        Value::Ref(_) => Err(HeapStop::Fault(Fault::TypeMismatch)),
        Value::List(_) => Err(HeapStop::Fault(Fault::TypeMismatch)),
        Value::Record(_) => Err(HeapStop::Fault(Fault::TypeMismatch)),
        Value::Elem(_) => Err(HeapStop::Fault(Fault::TypeMismatch)),
        Value::Fun(_) => Err(HeapStop::Fault(Fault::TypeMismatch)),
    }
}
