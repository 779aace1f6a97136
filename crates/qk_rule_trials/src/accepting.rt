//! Applications that keep all rules, and which rule others break.

use qk_application::{Application, ApplicationFault, accept};
use qk_modules::GatherFault;
use qk_store::{MemStore, Store};
use std::alloc::{AllocError, Global};
use std::test::Fail;

const HEAD: &str =
    "import { $, component$, createContextId, useSignal } from \"@builder.io/qwik\";\n";

fn from<S: Store>(alloc: Global, store: &mut S) -> Result<Application, ApplicationFault> {
    accept(alloc, store)
}

/// What is answered for these files, each behind the import of some names of the framework: how many arrows each module has, or which rule is broken.
fn accepted(alloc: Global, files: &[(&str, &str)]) -> Result<String, AllocError> {
    let mut all = Vec::new(alloc);
    for (name, text) in files {
        let text = format!(in alloc; "{HEAD}{text}")?;
        all.push((
            String::from_str(alloc, name)?,
            Vec::from_slice(alloc, text.as_bytes())?,
        ))?;
    }
    let mut store = MemStore::new(alloc, all, Vec::new(alloc));
    told(alloc, &from(alloc, &mut store))
}

fn told(
    alloc: Global,
    answer: &Result<Application, ApplicationFault>,
) -> Result<String, AllocError> {
    match answer {
        Ok(application) => arrows(alloc, application),
        Err(ApplicationFault::Gathering(GatherFault::RootMissing)) => {
            String::from_str(alloc, "RootMissing")
        }
        Err(ApplicationFault::Gathering(_)) => String::from_str(alloc, "not gathered"),
        Err(ApplicationFault::Naming { module, kind, name }) => {
            format!(in alloc; "{kind:?} {} {}", module.as_str(), name.as_str())
        }
        Err(ApplicationFault::Placing { module, kind, name }) => {
            format!(in alloc; "{kind:?} {} {}", module.as_str(), name.as_str())
        }
        Err(ApplicationFault::Memory) => String::from_str(alloc, "memory"),
    }
}

/// The name of each module, and how many arrows it has.
fn arrows(alloc: Global, application: &Application) -> Result<String, AllocError> {
    let mut told = String::new(alloc);
    let modules = application.modules.list.as_slice();
    for (module, names) in modules.iter().zip(application.names.as_slice().iter()) {
        let count = names.captures.len();
        told.push_str(format!(in alloc; "{} {count}; ", module.name.as_str())?.as_str())?;
    }
    Ok(told)
}

const TITLE: &str =
    "import { A } from \"./a.jsx\"; export const App = component$(() => <title><A/></title>);";

/// The modules `root` and `a`, and what is answered.
const PAIRS: [(&str, &str, &str); 4] = [
    (
        "import { A } from \"./a.jsx\"; export const App = component$(() => { const n = useSignal(0); return <p onClick$={() => n.value++}><A/></p>; });",
        "export const A = component$(() => <b/>);",
        "root 2; a 1; ",
    ),
    // The names of all modules are tried before places.
    (
        TITLE,
        "export const A = component$(() => <b>{x}</b>);",
        "UnknownName a x",
    ),
    (
        TITLE,
        "export const A = component$(() => <b/>);",
        "TagRefused root title",
    ),
    // An imported name is what the other module has under it.
    (
        "import { A } from \"./a.jsx\"; export const App = component$(() => <p><A/></p>);",
        "export const A = 1;",
        "NotComponent root A",
    ),
];

#[test]
fn two_modules(rt: HostRuntime) -> Result<(), Fail> {
    let alloc = rt.alloc();
    assert_eq!(rt; accepted(alloc, &[])?.as_str(), "RootMissing");
    for (root, a, expected) in &PAIRS {
        let seen = accepted(alloc, &[("root.jsx", root), ("a.jsx", a)])?;
        assert_eq!(rt; seen.as_str(), *expected, "{root}{a}");
    }
    Ok(())
}

/// What the component returns, and which rule that breaks.
const TAGS: [(&str, &str); 14] = [
    ("<p/>", ""),
    ("<br/>", ""),
    ("<br>x</br>", "TagRefused root br"),
    ("<script/>", "TagRefused root script"),
    ("<p onClick$={() => 1}/>", ""),
    ("<p onClick={1}/>", ""),
    ("<p onclick$={() => 1}/>", "TagRefused root onclick$"),
    ("<p on$={() => 1}/>", "TagRefused root on$"),
    (
        "<p onClick$={() => 1} onCLICK$={() => 1}/>",
        "TagRefused root onCLICK$",
    ),
    ("<p id=\"a\" id=\"a\"/>", "TagRefused root id"),
    ("<p ref={1}/>", "TagRefused root ref"),
    ("<p>{App}</p>", "NotComponent root App"),
    ("<p>{component$(1)}</p>", "DollarArgument root component$"),
    ("useSignal(0)", "HookPlace root useSignal"),
];

#[test]
fn tags_and_attributes(rt: HostRuntime) -> Result<(), Fail> {
    let alloc = rt.alloc();
    for (value, expected) in &TAGS {
        let root = format!(in alloc; "export const App = component$(() => {value});")?;
        let seen = accepted(alloc, &[("root.jsx", root.as_str())])?;
        if expected.is_empty() {
            assert!(rt; seen.starts_with("root "), "{value}: {seen}");
        } else {
            assert_eq!(rt; seen.as_str(), *expected, "{value}");
        }
    }
    Ok(())
}

/// Items beside a component, and which rule they break.
const ITEMS: [(&str, &str); 5] = [
    ("const a = null; const f = () => a;", "root 2; "),
    ("const a = [-1, { b: \"c\" }];", "root 1; "),
    ("const a = createContextId(\"b\");", "root 1; "),
    ("const a = createContextId(`b`);", "RootValue root a"),
    ("const a = 1 + 1;", "RootValue root a"),
];

/// So many dollar arrows.
fn sites(alloc: Global, count: usize) -> Result<String, AllocError> {
    let mut text = String::from_str(alloc, "const f = () => [")?;
    for _ in 0..count {
        text.push_str("$(() => 1), ")?;
    }
    text.push_str("];")?;
    Ok(text)
}

#[test]
fn items(rt: HostRuntime) -> Result<(), Fail> {
    let alloc = rt.alloc();
    let app = "export const App = component$(() => <p/>);";
    for (items, expected) in &ITEMS {
        let root = format!(in alloc; "{items} {app}")?;
        let seen = accepted(alloc, &[("root.jsx", root.as_str())])?;
        assert_eq!(rt; seen.as_str(), *expected, "{items}");
    }
    for (count, expected) in [(4095, "root 4097; "), (4096, "TooManySites root -")] {
        let root = format!(in alloc; "{} {app}", sites(alloc, count)?)?;
        let seen = accepted(alloc, &[("root.jsx", root.as_str())])?;
        assert_eq!(rt; seen.as_str(), expected, "{count}");
    }
    Ok(())
}
