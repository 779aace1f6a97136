//! Single steps of code: members, items, methods, known calls.

use crate::heard::Heard;
use crate::showing::{show, shown};
use crate::values::{values, world};
use qk_acts::{
    Look, Method, call_known, items_of, join, look_up, method_of, pop, push, remove_member, slice,
    splice, tell_read, text_method, write_member,
};
use qk_ast::Known;
use qk_code::{Mode, Stop};
use qk_heap::Heap;
use qk_value::{Fault, Value};
use std::alloc::{AllocError, Global};
use std::test::Fail;

/// What is done with some values: the first has the member, the items or the method, and the second is the key; a known call takes all of them.
#[derive(Clone, Copy, Debug, Drop)]
enum Act {
    Read,
    Write,
    Delete,
    Items,
    Method,
    Known(Known),
}

/// The value that stands at a key, whose location is told. A computed isn't called.
fn read(
    alloc: Global,
    heap: &Heap,
    object: &Value,
    key: &Value,
    host: &mut Heard,
) -> Result<Value, Stop> {
    match look_up(alloc, heap, object, key)? {
        Look::Found(v, location) => {
            tell_read(&location, host)?;
            Ok(v)
        }
        Look::Runs(_, function) => Ok(Value::Fun(function)),
    }
}

/// The method that a key names is called; none that calls functions.
fn call_method(
    alloc: Global,
    mode: Mode,
    heap: &mut Heap,
    object: &Value,
    key: &Value,
    arguments: &[Value],
    host: &mut Heard,
) -> Result<Value, Stop> {
    match method_of(heap, object, key) {
        Some(Method::Push) => push(mode, heap, object, arguments, host),
        Some(Method::Pop) => pop(mode, heap, object, arguments, host),
        Some(Method::Splice) => splice(alloc, mode, heap, object, arguments, host),
        Some(Method::Slice) => slice(alloc, mode, heap, object, arguments, host),
        Some(Method::Join) => join(alloc, mode, heap, object, arguments, host),
        Some(Method::Includes) => text_method(false, object, arguments),
        Some(Method::StartsWith) => text_method(true, object, arguments),
        _ => Err(Stop::Fault(Fault::NotCallable)),
    }
}

fn done(
    alloc: Global,
    what: Act,
    mode: Mode,
    heap: &mut Heap,
    all: &[Value],
    host: &mut Heard,
) -> Result<Value, Stop> {
    match (what, all) {
        (Act::Known(known), _) => call_known(alloc, mode, heap, known, all, host),
        (Act::Read, [object, key]) => read(alloc, heap, object, key, host),
        (Act::Write, [object, key, v]) => {
            write_member(mode, heap, object, key, v.share()?, host)?;
            Ok(Value::Undefined)
        }
        (Act::Delete, [object, key]) => {
            remove_member(alloc, mode, heap, object, key, host)?;
            Ok(Value::Undefined)
        }
        (Act::Items, [object]) => Ok(Value::List(items_of(alloc, heap, object, host)?)),
        (Act::Method, [object, key, arguments @ ..]) => {
            call_method(alloc, mode, heap, object, key, arguments, host)
        }
        _ => Ok(Value::Null),
    }
}

/// The answer, the first value as it is then, how many reads and changes were told, and the line that was printed.
fn told(
    alloc: Global,
    heap: &Heap,
    first: Option<&Value>,
    answer: &Result<Value, Stop>,
    host: &Heard,
) -> Result<String, AllocError> {
    let mut text = shown(alloc, heap, answer)?;
    if let Some(v) = first {
        text.push_str("; ")?;
        show(&mut text, heap, v)?;
    }
    write!(&mut text, "; {} {}", host.reads, host.changes)?;
    if let Some(line) = &host.line {
        text.push_str(" ")?;
        text.push_str(line.as_str())?;
    }
    Ok(text)
}

/// What comes of an act with the values of these words.
fn outcome(alloc: Global, what: Act, mode: Mode, words: &str) -> Result<String, Fail> {
    let Ok(mut heap) = world(alloc) else {
        return Err(Fail::new("no objects"));
    };
    let all = values(alloc, words)?;
    let mut host = Heard::new();
    let answer = done(alloc, what, mode, &mut heap, all.as_slice(), &mut host);
    let text = told(alloc, &heap, all.get(0), &answer, &host)?;
    Ok(text)
}

/// In the mode Effect.
const EFFECT: [(Act, &str, &str); 43] = [
    (
        Act::Read,
        "a\u{E9}\u{1F600} length",
        "4; a\u{E9}\u{1F600}; 0 0",
    ),
    (Act::Read, "list length", "4; list 1 undefined null x; 0 0"),
    (Act::Read, "array length", "3; array 1 2 3; 1 0"),
    (Act::Read, "array 2", "3; array 1 2 3; 1 0"),
    (Act::Read, "array -1", "undefined; array 1 2 3; 0 0"),
    (Act::Read, "array true", "TypeMismatch; array 1 2 3; 0 0"),
    (Act::Read, "record a", "0; record a=0; 0 0"),
    (Act::Read, "record b", "undefined; record a=0; 0 0"),
    (Act::Read, "record toString", "NoProperty; record a=0; 0 0"),
    (Act::Read, "plain 10", "1; plain b=3 10=1 2=2; 1 0"),
    (Act::Read, "signal value", "5; signal 5; 1 0"),
    (Act::Read, "signal length", "NoProperty; signal 5; 0 0"),
    (Act::Read, "computed value", "root_s1; computed; 0 0"),
    (Act::Read, "undefined length", "NoProperty; undefined; 0 0"),
    (
        Act::Write,
        "plain b 3",
        "undefined; plain b=3 10=1 2=2; 0 0",
    ),
    (
        Act::Write,
        "plain b 7",
        "undefined; plain b=7 10=1 2=2; 0 1",
    ),
    (
        Act::Write,
        "plain c 7",
        "undefined; plain b=3 10=1 2=2 c=7; 0 2",
    ),
    (
        Act::Write,
        "plain c undefined",
        "undefined; plain b=3 10=1 2=2 c=undefined; 0 1",
    ),
    (Act::Write, "array 1 2", "undefined; array 1 2 3; 0 0"),
    (Act::Write, "array 1 7", "undefined; array 1 7 3; 0 1"),
    (Act::Write, "array 3 7", "undefined; array 1 2 3 7; 0 2"),
    (Act::Write, "array 4 7", "IndexPastEnd; array 1 2 3; 0 0"),
    (Act::Write, "array -1 7", "IndexPastEnd; array 1 2 3; 0 0"),
    (Act::Write, "array null 7", "TypeMismatch; array 1 2 3; 0 0"),
    (Act::Delete, "plain b", "undefined; plain 10=1 2=2; 0 2"),
    (Act::Delete, "plain c", "undefined; plain b=3 10=1 2=2; 0 0"),
    (
        Act::Delete,
        "plain toString",
        "NoProperty; plain b=3 10=1 2=2; 0 0",
    ),
    (Act::Delete, "array a", "TypeMismatch; array 1 2 3; 0 0"),
    (Act::Items, "array", "list 1 2 3; array 1 2 3; 4 0"),
    (Act::Method, "array push 9", "4; array 1 2 3 9; 0 2"),
    (Act::Method, "array pop", "3; array 1 2; 4 2"),
    (Act::Method, "array splice 1 1", "array 2; array 1 3; 4 3"),
    (Act::Method, "array splice -1 5", "array 3; array 1 2; 4 2"),
    (
        Act::Method,
        "list slice -2",
        "array null x; list 1 undefined null x; 0 0",
    ),
    (
        Act::Method,
        "list slice 3 1",
        "array; list 1 undefined null x; 0 0",
    ),
    (
        Act::Method,
        "list join -",
        "1---x; list 1 undefined null x; 0 0",
    ),
    (Act::Method, "abcd includes bc", "true; abcd; 0 0"),
    (Act::Method, "abcd includes bd", "false; abcd; 0 0"),
    (Act::Method, "abcd startsWith bc", "false; abcd; 0 0"),
    (Act::Known(Known::Log), "-3", "undefined; -3; 0 0 -3"),
    (
        Act::Known(Known::Keys),
        "plain",
        "array 2 10 b; plain b=3 10=1 2=2; 1 0",
    ),
    (Act::Known(Known::Trunc), "-7 2", "-3; -7; 0 0"),
    (Act::Known(Known::Trunc), "1 0", "ZeroDivisor; 1; 0 0"),
];

/// In the mode Pure: nothing is written, and what is made is fixed.
const PURE: [(Act, &str, &str); 10] = [
    (Act::Write, "array 0 7", "RenderWrite; array 1 2 3; 0 0"),
    (
        Act::Write,
        "list 0 7",
        "FixedWrite; list 1 undefined null x; 0 0",
    ),
    (Act::Write, "abcd 0 7", "NoProperty; abcd; 0 0"),
    (
        Act::Delete,
        "plain b",
        "RenderWrite; plain b=3 10=1 2=2; 0 0",
    ),
    (Act::Method, "array pop", "RenderWrite; array 1 2 3; 0 0"),
    (Act::Method, "array slice 1 -1", "list 2; array 1 2 3; 4 0"),
    (
        Act::Known(Known::Log),
        "list",
        "RenderLog; list 1 undefined null x; 0 0",
    ),
    (Act::Known(Known::Keys), "record", "list a; record a=0; 0 0"),
    (
        Act::Known(Known::Str),
        "undefined",
        "undefined; undefined; 0 0",
    ),
    (
        Act::Known(Known::Str),
        "list",
        "NotText; list 1 undefined null x; 0 0",
    ),
];

#[test]
fn acts(rt: HostRuntime) -> Result<(), Fail> {
    let alloc = rt.alloc();
    for (what, words, wanted) in &EFFECT {
        let found = outcome(alloc, *what, Mode::Effect, words)?;
        assert_eq!(rt; found.as_str(), *wanted, "{what:?} {words}");
    }
    for (what, words, wanted) in &PURE {
        let found = outcome(alloc, *what, Mode::Pure, words)?;
        assert_eq!(rt; found.as_str(), *wanted, "{what:?} {words}");
    }
    Ok(())
}
