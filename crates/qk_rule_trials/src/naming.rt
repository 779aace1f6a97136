//! The arrows of a module and what they capture, and the rules of names.

use qk_ast::Form;
use qk_captures::{Captured, captures};
use qk_parse::parse_module;
use qk_scope::{ScopeFault, resolve};
use qk_shared::Text;
use std::alloc::Global;
use std::test::Fail;

/// The number of each site, with a `$` where it is one of a dollar arrow, and the names that it captures.
fn told(alloc: Global, all: &[Captured]) -> Result<String, Fail> {
    let mut told = String::new(alloc);
    for one in all {
        let mark = if one.site.dollar { "$" } else { "" };
        told.push_str(format!(in alloc; "{}{mark}:", one.site.number)?.as_str())?;
        for name in one.names.as_slice() {
            told.push_str(format!(in alloc; " {}", name.as_str())?.as_str())?;
        }
        told.push_str("; ")?;
    }
    Ok(told)
}

/// A module or built file, and what its arrows capture.
const CAPTURES: [(Form, &str, &str); 4] = [
    (
        Form::Source,
        "export const f = (a) => () => a;",
        "1:; 2: a; ",
    ),
    (
        Form::Built,
        "export const s_1 = () => { const [n] = useLexicalScope(); return () => n; };",
        "1: n; 2: n; ",
    ),
    (
        Form::Source,
        "const A = component$(() => { const n = useSignal(0); const f = () => n; return <p onClick$={() => f() + n}/>; });",
        "1$:; 1: n; 2$: f n; ",
    ),
    (
        Form::Source,
        "const A = component$(() => { const n = useSignal(0); useTask$(({ track }) => { track(() => n.value + f); }); return null; });",
        "1$:; 2$: n; 1: n; ",
    ),
];

#[test]
fn arrows_and_captures(rt: HostRuntime) -> Result<(), Fail> {
    let alloc = rt.alloc();
    let file = Text::from_str(alloc, "root")?;
    for (form, text, expected) in &CAPTURES {
        let module = parse_module(alloc, text, *form)?;
        let all = captures(alloc, &file, &module, *form)?;
        assert_eq!(rt; told(alloc, all.as_slice())?.as_str(), *expected, "{text}");
    }
    Ok(())
}

/// What is answered for a file of that name: its arrows, or the first name that breaks a rule.
fn resolved(alloc: Global, form: Form, file: &str, text: &str) -> Result<String, Fail> {
    let file = Text::from_str(alloc, file)?;
    let module = parse_module(alloc, text, form)?;
    match resolve(alloc, &file, &module, form) {
        Ok(names) => told(alloc, names.captures.as_slice()),
        Err(ScopeFault::Refused { kind, name }) => {
            Ok(format!(in alloc; "{kind:?} {}", name.as_str())?)
        }
        Err(ScopeFault::Memory) => Err(Fail::new("want of memory")),
    }
}

/// Sources, and what is answered.
const SOURCES: [(&str, &str); 13] = [
    ("const f = (a, b) => b;", "1:; "),
    ("const f = (a, a) => c;", "DuplicateName a"),
    ("const f = () => c;", "UnknownName c"),
    ("const f = () => console;", "UnknownName console"),
    (
        "const f = () => { let a = 1; return () => a; };",
        "LetCaptured a",
    ),
    ("const f = (a) => { a = 1; };", "ConstAssigned a"),
    (
        "const f = () => { const g = () => k; const k = 1; };",
        "EarlyUse k",
    ),
    ("const f = () => { for (const x of x) {} };", "EarlyUse x"),
    ("const a = 1; const a = 2;", "DuplicateName a"),
    ("const qrl = 1;", "DuplicateName qrl"),
    ("const useTask$ = 1;", "DuplicateName useTask$"),
    ("const root_s1 = 1;", "DuplicateName root_s1"),
    ("import { qrl } from \"./a.jsx\";", "DuplicateName qrl"),
];

/// Built files that are named `root_s1`, and what is answered.
const BUILT: [(&str, &str); 4] = [
    (
        "import { useLexicalScope } from \"@builder.io/qwik\"; export const root_s1 = () => { const [n] = useLexicalScope(); return () => n; };",
        "1: n; 2: n; ",
    ),
    (
        "import { qrl } from \"@builder.io/qwik\"; export const root_s1 = (a) => qrl;",
        "1:; ",
    ),
    (
        "export const root_s1 = () => root_s1;",
        "UnknownName root_s1",
    ),
    ("export const root_s2 = 1;", "DuplicateName root_s2"),
];

#[test]
fn rules_of_names(rt: HostRuntime) -> Result<(), Fail> {
    let alloc = rt.alloc();
    for (text, expected) in &SOURCES {
        let seen = resolved(alloc, Form::Source, "root", text)?;
        assert_eq!(rt; seen.as_str(), *expected, "{text}");
    }
    for (text, expected) in &BUILT {
        let seen = resolved(alloc, Form::Built, "root_s1", text)?;
        assert_eq!(rt; seen.as_str(), *expected, "{text}");
    }
    Ok(())
}
