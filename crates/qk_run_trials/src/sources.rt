//! Why an application is refused: its texts, and its rules.

use crate::playing::{Files, file, files, plays};
use std::alloc::{AllocError, Global};
use std::test::Fail;

/// An empty script, and a root module of these bytes.
fn alone(alloc: Global, root: &[u8]) -> Result<Files, AllocError> {
    let mut files = Vec::new(alloc);
    files.push(file(alloc, "root.jsx", &[root])?)?;
    files.push(file(alloc, "s.txt", &[])?)?;
    Ok(files)
}

/// Root modules, and what stands in the last line behind `refused`.
const TEXTS: [(&[u8], &str); 8] = [
    (b"const a = ;", "Syntax root 1:11"),
    (b"const a = 1", "Syntax root 1:12"),
    (b"const a = 1;\n\nconst b = 08;\n", "Lexical root 3:11"),
    (b"// \xc3\xa4\r\n\t\xc3\xa4 =", "Syntax root 2:2"),
    (b"const a = 1;\n", "ExportMissing root App"),
    (b"const a = \"\xff\";", "NotUtf8 root -"),
    (
        b"const a = ((((((((((((((((((((((((((((((((1))))))))))))))))))))))))))))))));",
        "ExportMissing root App",
    ),
    (
        b"const a = (((((((((((((((((((((((((((((((((1)))))))))))))))))))))))))))))))));",
        "TooDeep root 1:43",
    ),
];

#[test]
fn texts(rt: HostRuntime) -> Result<(), Fail> {
    let alloc = rt.alloc();
    for (root, kind) in &TEXTS {
        let prints = format!(in alloc; "refused {kind}\n")?;
        plays(&rt, alloc, kind, alone(alloc, root)?, prints.as_str(), 2)?;
    }
    Ok(())
}

#[test]
fn the_length_of_a_text(rt: HostRuntime) -> Result<(), Fail> {
    let alloc = rt.alloc();
    let mut root: Vec<u8> = vec![in alloc; b' '; 1_048_576]?;
    let files = alone(alloc, root.as_slice())?;
    plays(
        &rt,
        alloc,
        "1 MiB",
        files,
        "refused ExportMissing root App\n",
        2,
    )?;
    root.push(b' ')?;
    let files = alone(alloc, root.as_slice())?;
    plays(&rt, alloc, "more", files, "refused TooLong root 1:1\n", 2)
}

/// What stands behind the import of every name in the root module, and in the last line behind `refused`. The module `x` declares `Y`.
const RULES: [(&str, &str); 12] = [
    (
        "import { Z } from \"./z.jsx\";",
        "ImportMissing root ./z.jsx",
    ),
    ("import { X } from \"./x.jsx\";", "ExportMissing root X"),
    ("", "ExportMissing root App"),
    ("export const App = 1;", "NotComponent root App"),
    (
        "export const App = component$(1);",
        "DollarArgument root component$",
    ),
    (
        "export const App = component$(() => { if (true) { useSignal(0); } return <p/>; });",
        "HookPlace root useSignal",
    ),
    (
        "export const App = component$(() => { return <title/>; });",
        "TagRefused root title",
    ),
    (
        "export const App = component$(() => { return <p>{x}</p>; });",
        "UnknownName root x",
    ),
    (
        "export const App = component$(() => { let n = 0; return <p id=\"p\" onClick$={() => { n = 1; }}/>; });",
        "LetCaptured root n",
    ),
    (
        "export const App = component$(() => { const f = () => k; const k = 1; return <p>{f()}</p>; });",
        "EarlyUse root k",
    ),
    // The rules of names are tried before those of places.
    (
        "export const App = component$(() => { return <title>{x}</title>; });",
        "UnknownName root x",
    ),
    // All rules accept it, and it isn't played yet.
    (
        "export const App = component$(() => <b/>);",
        "NotBuilt root -",
    ),
];

#[test]
fn rules(rt: HostRuntime) -> Result<(), Fail> {
    let alloc = rt.alloc();
    for (root, kind) in &RULES {
        let mut files = files(alloc, root, b"")?;
        files.push(file(alloc, "x.jsx", &[b"const Y = 1;"])?)?;
        let prints = format!(in alloc; "refused {kind}\n")?;
        plays(&rt, alloc, root, files, prints.as_str(), 2)?;
    }
    Ok(())
}
