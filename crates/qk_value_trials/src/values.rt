//! Values for trials, by words.

use qk_code::{Mode, Stop};
use qk_heap::{Heap, Object};
use qk_making::{make_list, make_record};
use qk_shared::{Builder, List, Text};
use qk_value::{Addr, Fun, FunCode, Value};
use std::alloc::{AllocError, Global};

/// Objects to try calls on: `array`, `plain`, `signal` and `computed`, in that order.
pub(crate) fn world(alloc: Global) -> Result<Heap, Stop> {
    let mut heap = Heap::new(alloc);
    make_array(alloc, &mut heap)?;
    make_plain(alloc, &mut heap)?;
    heap.make(Object::Signal(Value::Int(5)))?;
    heap.make(Object::Computed(function(alloc)?))?;
    Ok(heap)
}

fn make_array(alloc: Global, heap: &mut Heap) -> Result<Value, Stop> {
    let items = values(alloc, "1 2 3")?;
    make_list(alloc, Mode::Effect, heap, items)
}

fn make_plain(alloc: Global, heap: &mut Heap) -> Result<Value, Stop> {
    let all = fields(alloc, "b 10 2 b")?;
    make_record(alloc, Mode::Effect, heap, all.as_slice())
}

/// The values of these words.
pub(crate) fn values(alloc: Global, words: &str) -> Result<Builder<Value>, AllocError> {
    let mut all = Builder::new(alloc);
    for word in words.split_whitespace() {
        all.push(value(alloc, word)?)?;
    }
    Ok(all)
}

/// The value that a word names; a numeral is an integer, and any other word a text.
pub(crate) fn value(alloc: Global, word: &str) -> Result<Value, AllocError> {
    match word {
        "undefined" => Ok(Value::Undefined),
        "null" => Ok(Value::Null),
        "true" => Ok(Value::Bool(true)),
        "array" => Ok(Value::Ref(Addr(0))),
        "plain" => Ok(Value::Ref(Addr(1))),
        "signal" => Ok(Value::Ref(Addr(2))),
        "computed" => Ok(Value::Ref(Addr(3))),
        "list" => list(alloc),
        "record" => record(alloc),
        "function" => Ok(Value::Fun(function(alloc)?)),
        _ => integer_or_text(alloc, word),
    }
}

fn integer_or_text(alloc: Global, word: &str) -> Result<Value, AllocError> {
    match word.parse::<i64>() {
        Ok(n) => Ok(Value::Int(n)),
        Err(_) => text(alloc, word),
    }
}

pub(crate) fn text(alloc: Global, t: &str) -> Result<Value, AllocError> {
    Ok(Value::Text(Text::from_str(alloc, t)?))
}

fn list(alloc: Global) -> Result<Value, AllocError> {
    let mut items = Builder::new(alloc);
    items.push(Value::Int(1))?;
    items.push(Value::Undefined)?;
    items.push(Value::Null)?;
    items.push(text(alloc, "x")?)?;
    Ok(Value::List(items.into_list(alloc)?))
}

fn record(alloc: Global) -> Result<Value, AllocError> {
    Ok(Value::Record(List::from_vec(alloc, fields(alloc, "a")?)?))
}

/// A function of a symbol that captures nothing.
fn function(alloc: Global) -> Result<Fun, AllocError> {
    Ok(Fun {
        code: FunCode::Symbol(Text::from_str(alloc, "root_s1")?),
        captures: List::from_vec(alloc, Vec::new(alloc))?,
        hidden: false,
    })
}

/// Fields of these names, each with its place as its value.
pub(crate) fn fields(alloc: Global, names: &str) -> Result<Vec<(Text, Value)>, AllocError> {
    let mut all = Vec::new(alloc);
    let mut place: i64 = 0;
    for name in names.split_whitespace() {
        all.push((Text::from_str(alloc, name)?, Value::Int(place)))?;
        place = place.saturating_add(1);
    }
    Ok(all)
}
