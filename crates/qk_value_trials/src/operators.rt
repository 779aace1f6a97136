//! Operators on primitives and lists, and keys.

use crate::showing::shown;
use crate::values::{value, values};
use qk_ast::Bin;
use qk_code::Stop;
use qk_heap::Heap;
use qk_ops::binary;
use qk_value::{Value, array_index, depth, weight};
use std::alloc::{AllocError, Global};
use std::test::Fail;

fn of_two(alloc: Global, op: Bin, all: &[Value]) -> Result<Value, Stop> {
    match all {
        [a, b] => Ok(binary(alloc, op, a, b)?),
        _ => Ok(Value::Null),
    }
}

/// What an operator gives for the values of two words.
fn found(alloc: Global, op: Bin, words: &str) -> Result<String, AllocError> {
    let all = values(alloc, words)?;
    let answer = of_two(alloc, op, all.as_slice());
    shown(alloc, &Heap::new(alloc), &answer)
}

const OPERATORS: [(Bin, &str, &str); 22] = [
    (Bin::Add, "9007199254740990 1", "9007199254740991"),
    (Bin::Sub, "3 5", "-2"),
    (Bin::Mul, "-3 5", "-15"),
    (Bin::Rem, "-7 3", "-1"),
    (Bin::Rem, "7 -3", "1"),
    (Bin::Sub, "-9007199254740991 1", "OutOfSafeRange"),
    (Bin::Mul, "9007199254740991 2", "OutOfSafeRange"),
    (Bin::Rem, "5 0", "ZeroDivisor"),
    (Bin::Less, "-1 0", "true"),
    (Bin::LessEq, "2 2", "true"),
    (Bin::More, "2 2", "false"),
    (Bin::MoreEq, "-3 -2", "false"),
    (Bin::Same, "4 4", "true"),
    (Bin::NotSame, "4 4", "false"),
    (Bin::Add, "3 a", "3a"),
    (Bin::Add, "-12 !", "-12!"),
    (Bin::Add, "null !", "null!"),
    (Bin::Add, "undefined !", "undefined!"),
    (Bin::Add, "true !", "true!"),
    (Bin::Same, "list list", "Identity"),
    (Bin::Same, "list 1", "false"),
    (Bin::Add, "list 1", "TypeMismatch"),
];

#[test]
fn operators(rt: HostRuntime) -> Result<(), Fail> {
    let alloc = rt.alloc();
    for (op, words, wanted) in &OPERATORS {
        let answer = found(alloc, *op, words)?;
        assert_eq!(rt; answer.as_str(), *wanted, "{op:?} {words}");
    }
    Ok(())
}

#[test]
fn sizes(rt: HostRuntime) -> Result<(), Fail> {
    let list = value(rt.alloc(), "list")?;
    assert_eq!(rt; weight(&list), 5);
    assert_eq!(rt; depth(&list), 1);
    Ok(())
}

#[test]
fn keys(rt: HostRuntime) -> Result<(), Fail> {
    for (key, wanted) in [
        ("0", Some(0)),
        ("4294967294", Some(4294967294)),
        ("4294967295", None),
        ("01", None),
        ("-1", None),
        ("", None),
        ("1a", None),
    ] {
        assert_eq!(rt; array_index(key), wanted);
    }
    Ok(())
}
