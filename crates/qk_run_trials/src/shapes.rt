//! Which modules have the first shape and are played, by texts just within and just outside each of its rules.

use crate::playing::{ALL, COUNTER, Files, file, files, plays};
use qk_ast::Form;
use qk_first::shape::first_counter;
use qk_parse::parse_module;
use qk_shared::Text;
use std::alloc::{AllocError, Global};
use std::test::Fail;

/// What stands under the import of every name, and the element that an empty script shows.
const PLAYED: [(&str, &str); 9] = [
    (COUNTER, "<button id=\"b\">0</button>"),
    (
        "export const App = component$(() => { return <p/>; });",
        "<p></p>",
    ),
    (
        "export const App=component$(()=>{const n=useSignal(0);return<p onClick$={()=>n.value--}id=\"b\"></p>;});",
        "<p id=\"b\"></p>",
    ),
    (
        "export const App = component$ ( ( ) => {\n\treturn < div id = \"abcdefgh\" ></ div > ;\r\n} ) ;\n",
        "<div id=\"abcdefgh\"></div>",
    ),
    (
        "export const App = component$(() => { const abcdefgh = useSignal(1000000); return <div>{abcdefgh.value}</div>; });",
        "<div>1000000</div>",
    ),
    (
        "export const App = component$(() => { const id = useSignal(7); return <p>{ id . value }</p>; });",
        "<p>7</p>",
    ),
    (
        "export const App = component$(() => { /* */ return <p/>; });",
        "<p></p>",
    ),
    (
        "export const App = component$(() => { return <p/>; }); // end",
        "<p></p>",
    ),
    (
        "export const App = (component$)((() => { return (<p id='a'/>); }));",
        "<p id=\"a\"></p>",
    ),
];

#[test]
fn played_modules(rt: HostRuntime) -> Result<(), Fail> {
    let alloc = rt.alloc();
    for (item, element) in &PLAYED {
        let prints = format!(in alloc; "item 0\nhtml {element}\n")?;
        plays(
            &rt,
            alloc,
            item,
            files(alloc, item, b"")?,
            prints.as_str(),
            0,
        )?;
    }
    Ok(())
}

/// What stands under the import of every name, and in the last line behind `refused`.
const REFUSED: [(&str, &str); 15] = [
    ("", "ExportMissing root App"),
    (
        "export const App = component$(() => <p id=\"p\">hi</p>);",
        "NotBuilt root -",
    ),
    (
        "const App = component$(() => { return <p/>; });",
        "ExportMissing root App",
    ),
    (
        "export const Appl = component$(() => { return <p/>; });",
        "ExportMissing root App",
    ),
    (
        "export const App = component$((x) => { return <p/>; });",
        "NotBuilt root -",
    ),
    (
        "export const App = component$(() = > { return <p/>; });",
        "Syntax root 2:34",
    ),
    (
        "export const App = component$(() => { return <p/> });",
        "Syntax root 2:51",
    ),
    (
        "export const App = component$(() => { return <p/>; }); x",
        "Syntax root 2:56",
    ),
    (
        "export const App = component$(() => { return <p/>; });\u{a0}",
        "Lexical root 2:55",
    ),
    (
        "export const App = component$(() => { return <p/ >; });",
        "Lexical root 2:48",
    ),
    (
        "export const App = component$(() => { return <b/>; });",
        "NotBuilt root -",
    ),
    (
        "export const App = component$(() => { return <p></div>; });",
        "Syntax root 2:51",
    ),
    (
        "export const App = component$(() => { return <p> </p>; });",
        "NotBuilt root -",
    ),
    (
        "export const App = component$(() => { return <p>hi</p>; });",
        "NotBuilt root -",
    ),
    (
        "export const App = component$(() => { return <p><p/></p>; });",
        "NotBuilt root -",
    ),
];

#[test]
fn refused_modules(rt: HostRuntime) -> Result<(), Fail> {
    let alloc = rt.alloc();
    for (item, kind) in &REFUSED {
        let prints = format!(in alloc; "refused {kind}\n")?;
        plays(
            &rt,
            alloc,
            item,
            files(alloc, item, b"")?,
            prints.as_str(),
            2,
        )?;
    }
    Ok(())
}

/// What stands in the component's block, and in the last line behind `refused`.
const BLOCKS: [(&str, &str); 23] = [
    (
        "const abcdefghi = useSignal(0); return <p/>;",
        "NotBuilt root -",
    ),
    ("const n1 = useSignal(0); return <p/>;", "NotBuilt root -"),
    ("const let = useSignal(0); return <p/>;", "Syntax root 2:45"),
    (
        "const console = useSignal(0); return <p/>;",
        "DuplicateName root console",
    ),
    (
        "const qrl = useSignal(0); return <p/>;",
        "DuplicateName root qrl",
    ),
    (
        "const n = useSignal(1000001); return <p/>;",
        "NotBuilt root -",
    ),
    ("const n = useSignal(00); return <p/>;", "Lexical root 2:59"),
    ("const n = useSignal(-1); return <p/>;", "NotBuilt root -"),
    ("const n = useSignal(); return <p/>;", "NotBuilt root -"),
    (
        "const n = useSignal(0); return <p>{m.value}</p>;",
        "UnknownName root m",
    ),
    (
        "const n = useSignal(0); return <p>{n.value}{n.value}</p>;",
        "NotBuilt root -",
    ),
    (
        "const n = useSignal(0); return <p onClick$={() => m.value++}/>;",
        "UnknownName root m",
    ),
    (
        "const n = useSignal(0); return <p onClick$={() => n.value + +}/>;",
        "Syntax root 2:99",
    ),
    (
        "const n = useSignal(0); return <p onClick$={() => n.value += 1}/>;",
        "NotBuilt root -",
    ),
    (
        "const n = useSignal(0); return <p onClick$={() => n.value++} onClick$={() => n.value++}/>;",
        "TagRefused root onClick$",
    ),
    (
        "return <p onClick$={() => n.value++}/>;",
        "UnknownName root n",
    ),
    ("return <p>{n.value}</p>;", "UnknownName root n"),
    ("return <p id=\"abcdefghi\"/>;", "NotBuilt root -"),
    ("return <p id=\"\"/>;", "NotBuilt root -"),
    ("return <p id=\" a\"/>;", "NotBuilt root -"),
    ("return <p id/>;", "NotBuilt root -"),
    ("return <p id=\"a\" id=\"a\"/>;", "TagRefused root id"),
    ("return <p class=\"a\"/>;", "NotBuilt root -"),
];

#[test]
fn refused_blocks(rt: HostRuntime) -> Result<(), Fail> {
    let alloc = rt.alloc();
    for (block, kind) in &BLOCKS {
        let item = format!(in alloc; "export const App = component$(() => {{ {block} }});")?;
        let prints = format!(in alloc; "refused {kind}\n")?;
        let files = files(alloc, item.as_str(), b"")?;
        plays(&rt, alloc, block, files, prints.as_str(), 2)?;
    }
    Ok(())
}

/// An import, the answer where a component without a signal stands behind it, and the one with a signal.
type Import = (&'static str, &'static str, &'static str);

const SHOWN: &str = "item 0\nhtml <p></p>\n";

const NO_SIGNAL: &str = "refused UnknownName root useSignal\n";

const NO_COMPONENT: &str = "refused UnknownName root component$\n";

const IMPORTS: [Import; 14] = [
    (
        "import{component$}from\"@builder.io/qwik\";",
        SHOWN,
        NO_SIGNAL,
    ),
    (
        "import { component$, } from \"@builder.io/qwik\" ;",
        SHOWN,
        NO_SIGNAL,
    ),
    (
        "import { Slot, component$ } from \"@builder.io/qwik\";",
        SHOWN,
        NO_SIGNAL,
    ),
    (
        "import { component$ } from '@builder.io/qwik';",
        SHOWN,
        NO_SIGNAL,
    ),
    ("", NO_COMPONENT, NO_COMPONENT),
    (
        "import { } from \"@builder.io/qwik\";",
        "refused Syntax root 1:10\n",
        "refused Syntax root 1:10\n",
    ),
    (
        "import { Slot } from \"@builder.io/qwik\";",
        NO_COMPONENT,
        NO_COMPONENT,
    ),
    (
        "import { component$ Slot } from \"@builder.io/qwik\";",
        "refused Syntax root 1:21\n",
        "refused Syntax root 1:21\n",
    ),
    (
        "import { component$,, } from \"@builder.io/qwik\";",
        "refused Syntax root 1:21\n",
        "refused Syntax root 1:21\n",
    ),
    (
        "import { component$, component$ } from \"@builder.io/qwik\";",
        "refused DuplicateName root component$\n",
        "refused DuplicateName root component$\n",
    ),
    (
        "import { component$, useThing } from \"@builder.io/qwik\";",
        "refused ExportMissing root useThing\n",
        "refused ExportMissing root useThing\n",
    ),
    (
        "import { component$ } from \"@builder.io/qwik\"",
        "refused Syntax root 1:46\n",
        "refused Syntax root 1:46\n",
    ),
    (
        "import { component$ } from \"./x.jsx\";",
        "refused ImportMissing root ./x.jsx\n",
        "refused ImportMissing root ./x.jsx\n",
    ),
    (
        "import { component$ } from \"@builder.io/qwik\"; import { Slot } from \"@builder.io/qwik\";",
        "refused NotBuilt root -\n",
        NO_SIGNAL,
    ),
];

/// An empty script, and a root module with this import and a component with that block.
fn imported(alloc: Global, import: &str, block: &str) -> Result<Files, AllocError> {
    let root = format!(in alloc; "{import}export const App = component$(() => {{ {block} }});")?;
    let mut files = Vec::new(alloc);
    files.push(file(alloc, "root.jsx", &[root.as_bytes()])?)?;
    files.push(file(alloc, "s.txt", &[])?)?;
    Ok(files)
}

#[test]
fn imports(rt: HostRuntime) -> Result<(), Fail> {
    let alloc = rt.alloc();
    for (import, plain, with_signal) in &IMPORTS {
        let status = if plain.starts_with("item") { 0 } else { 2 };
        let files = imported(alloc, import, "return <p/>;")?;
        plays(&rt, alloc, import, files, plain, status)?;
        let files = imported(alloc, import, "const n = useSignal(0); return <p/>;")?;
        plays(&rt, alloc, import, files, with_signal, 2)?;
    }
    Ok(())
}

#[test]
fn a_counter_of_a_module(rt: HostRuntime) -> Result<(), Fail> {
    let alloc = rt.alloc();
    let text = format!(in alloc; "{ALL}{COUNTER}")?;
    let module = parse_module(alloc, text.as_str(), Form::Source)?;
    let Some(counter) = first_counter(&module) else {
        return Err(Fail::new("no counter"));
    };
    assert_eq!(rt; counter.tag.as_str(), "button");
    assert_eq!(rt; counter.id.map(Text::as_str), Some("b"));
    assert_eq!(rt; counter.counts_up, Some(true));
    assert_eq!(rt; counter.initial, 0);
    assert!(rt; counter.shows);
    Ok(())
}
