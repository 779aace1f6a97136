//! Lists, records, functions and JSX values as they are made.

ghost use Rattle.std.specs.Prelude.{IfOk};
ghost use Rattle.qk_code.specs.Shallow.{IsShallow};

use crate::showing::shown;
use crate::values::{fields, value, values};
use qk_ast::{Arrow, Body, ImportTable, Site};
use qk_captures::Captured;
use qk_code::{Func, Mode};
use qk_environment::Scope;
use qk_heap::Heap;
use qk_making::{make_function, make_lifted, make_list, make_markup, make_record, marked};
use qk_scope::Names;
use qk_shared::{List, Shared, Text};
use qk_value::{ElemTag, Value};
use std::alloc::{AllocError, Global};
use std::test::Fail;

fn list_made(alloc: Global, mode: Mode, words: &str) -> Result<String, AllocError> {
    let mut heap = Heap::new(alloc);
    let answer = make_list(alloc, mode, &mut heap, values(alloc, words)?);
    shown(alloc, &heap, &answer)
}

fn record_made(alloc: Global, mode: Mode, names: &str) -> Result<String, AllocError> {
    let mut heap = Heap::new(alloc);
    let all = fields(alloc, names)?;
    let answer = make_record(alloc, mode, &mut heap, all.as_slice());
    shown(alloc, &heap, &answer)
}

#[test]
fn lists_and_records(rt: HostRuntime) -> Result<(), Fail> {
    let alloc = rt.alloc();
    for (mode, words, wanted) in [
        (Mode::Effect, "7 8", "array 7 8"),
        (Mode::Pure, "7 8", "list 7 8"),
        (Mode::Track, "7 8", "list 7 8"),
    ] {
        assert_eq!(rt; list_made(alloc, mode, words)?.as_str(), wanted);
    }
    for (mode, names, wanted) in [
        (Mode::Effect, "b 10 2 b", "plain b=3 10=1 2=2"),
        (Mode::Pure, "b 10 2 b", "record 2=2 10=1 b=3"),
        (Mode::Track, "a constructor", "NoProperty"),
    ] {
        assert_eq!(rt; record_made(alloc, mode, names)?.as_str(), wanted);
    }
    Ok(())
}

fn tag_of(alloc: Global, name: &str) -> Result<ElemTag, AllocError> {
    match name {
        "fragment" => Ok(ElemTag::Fragment),
        "slot" => Ok(ElemTag::Slot(Text::from_str(alloc, "")?)),
        "Part" => Ok(ElemTag::Component(Text::from_str(alloc, "root_s1")?)),
        _ => Ok(ElemTag::Element(Text::from_str(alloc, name)?)),
    }
}

/// A JSX value with one attribute.
fn markup_made(
    alloc: Global,
    tag: &str,
    name: &str,
    v: &str,
    children: &str,
) -> Result<String, AllocError> {
    let tag = tag_of(alloc, tag)?;
    let mut attributes = Vec::new(alloc);
    attributes.push((Text::from_str(alloc, name)?, value(alloc, v)?))?;
    let answer = make_markup(alloc, tag, attributes.as_slice(), values(alloc, children)?);
    shown(alloc, &Heap::new(alloc), &answer)
}

const MARKUP: [(&str, &str, &str, &str, &str); 11] = [
    ("li", "title", "7", "1 x", "li title=7 slot : 1 x"),
    ("li", "key", "7", "", "li key 7 slot :"),
    ("li", "q:slot", "side", "", "li slot side:"),
    (
        "li",
        "onClick$",
        "function",
        "",
        "li onClick$=NotText slot :",
    ),
    ("slot", "name", "side", "1", "side slot :"),
    ("fragment", "key", "a", "1", "fragment key a slot : 1"),
    ("Part", "a", "list", "", "root_s1 a=NotText slot :"),
    ("li", "title", "list", "", "NotText"),
    ("li", "onClick$", "7", "", "NotCallable"),
    ("Part", "toString", "7", "", "NoProperty"),
    ("li", "title", "7", "record", "NotText"),
];

#[test]
fn markup(rt: HostRuntime) -> Result<(), Fail> {
    let alloc = rt.alloc();
    for (tag, name, v, children, wanted) in &MARKUP {
        let found = markup_made(alloc, tag, name, v, children)?;
        assert_eq!(rt; found.as_str(), *wanted, "{tag} {name} {v}");
    }
    Ok(())
}

/// An arrow that does nothing.
fn arrow(alloc: Global) -> Result<Shared<Arrow>, AllocError>
    ensures { IfOk result (λ a. IsShallow a) }
{
    let arrow = Arrow {
        place: 0,
        params: List::from_vec(alloc, Vec::new(alloc))?,
        body: Body::Block(List::from_vec(alloc, Vec::new(alloc))?),
    };
    Shared::new(alloc, arrow)
}

/// The second arrow of its kind in `root`, which captures `a`.
fn captured(alloc: Global, dollar: bool) -> Result<Captured, AllocError> {
    let site = Site {
        module: Text::from_str(alloc, "root")?,
        number: 2,
        dollar,
    };
    let names = names(alloc)?;
    Ok(Captured { site, names })
}

fn names(alloc: Global) -> Result<List<Text>, AllocError> {
    let mut names = Vec::new(alloc);
    names.push(Text::from_str(alloc, "a")?)?;
    List::from_vec(alloc, names)
}

/// The one arrow of a file that is known.
fn known(alloc: Global, dollar: bool) -> Result<Shared<Names>, AllocError> {
    let mut captures = Vec::new(alloc);
    captures.push(captured(alloc, dollar)?)?;
    let captures = List::from_vec(alloc, captures)?;
    Shared::new(alloc, Names { captures })
}

fn no_imports(alloc: Global) -> Result<Shared<ImportTable>, AllocError> {
    let entries = List::from_vec(alloc, Vec::new(alloc))?;
    Shared::new(alloc, ImportTable { entries })
}

/// A function whose file has one arrow, at the place 0.
fn holder(alloc: Global, dollar: bool) -> Result<Func, AllocError> {
    let arrow = arrow(alloc)?;
    let names = known(alloc, dollar)?;
    let elsewhere = Shared::new(alloc, captured(alloc, false)?)?;
    let imports = no_imports(alloc)?;
    Ok(Func {
        file: Text::from_str(alloc, "root")?,
        captures: List::from_vec(alloc, Vec::new(alloc))?,
        arrow,
        names,
        elsewhere,
        imports,
        task: false,
    })
}

/// Where `a` is 7.
fn scope(alloc: Global) -> Result<Scope, AllocError> {
    let mut scope = Scope::new(alloc);
    let name = Text::from_str(alloc, "a")?;
    scope.push(&name, Value::Int(7))?;
    Ok(scope)
}

fn function_made(alloc: Global, dollar: bool) -> Result<String, AllocError> {
    let holder = holder(alloc, dollar)?;
    let scope = scope(alloc)?;
    let answer = make_function(alloc, &holder, 0, &scope);
    shown(alloc, &Heap::new(alloc), &answer)
}

fn lifted(alloc: Global) -> Result<String, AllocError> {
    let symbol = Text::from_str(alloc, "root_s1")?;
    let answer = make_lifted(alloc, &symbol, values(alloc, "1 x")?);
    shown(alloc, &Heap::new(alloc), &answer)
}

fn with_mark(alloc: Global, word: &str) -> Result<String, AllocError> {
    let answer = marked(&value(alloc, word)?);
    shown(alloc, &Heap::new(alloc), &answer)
}

#[test]
fn functions(rt: HostRuntime) -> Result<(), Fail> {
    let alloc = rt.alloc();
    assert_eq!(rt; function_made(alloc, true)?.as_str(), "root_s2 7");
    assert_eq!(rt; function_made(alloc, false)?.as_str(), "2 of root 7");
    assert_eq!(rt; lifted(alloc)?.as_str(), "root_s1 1 x");
    assert_eq!(rt; with_mark(alloc, "function")?.as_str(), "hidden root_s1");
    assert_eq!(rt; with_mark(alloc, "list")?.as_str(), "TypeMismatch");
    Ok(())
}
