//! The modules of an application, or why they are not gathered; and where imported names come from.

use qk_ast::Origin;
use qk_modules::{GatherFault, Modules, gather, imports};
use qk_parse::ParseFault;
use qk_store::MemStore;
use std::alloc::{AllocError, Global};
use std::process::Abort;
use std::test::Fail;

/// What a row shows; the files `root.jsx`, `a.jsx`, `b.jsx` and `c.jsx`, of which empty ones are missing; and what gathering answers.
type Row = (&'static str, [&'static str; 4], &'static str);

const APP: &str = "export const App = 1;";

const ROWS: [Row; 15] = [
    (
        "no file",
        ["", "export const x = 1;", "", ""],
        "RootMissing",
    ),
    ("the root alone", [APP, "const", "", ""], "root"),
    (
        "the modules stand in order of first import, those of the root before those of the first of them",
        [
            "import { x } from \"./b.jsx\"; import { x } from \"./a.jsx\"; export const App = 1;",
            "export const x = 1;",
            "import { x } from \"./c.jsx\"; import { y } from \"./a.jsx\"; export const x = 1;",
            "import { App } from \"./root.jsx\"; export const x = 1; export const y = 2;",
        ],
        "ExportMissing b y",
    ),
    (
        "each module stands once, also where they import one another",
        [
            "import { x } from \"./b.jsx\"; import { x, y } from \"./a.jsx\"; import { $ } from \"@builder.io/qwik\"; export const App = 1;",
            "import { App } from \"./root.jsx\"; import { x } from \"./a.jsx\"; export const x = 1; export const y = 1;",
            "import { x } from \"./c.jsx\"; import { y } from \"./a.jsx\"; export const x = 1;",
            "import { x } from \"./b.jsx\"; export const x = 1;",
        ],
        "root b a c",
    ),
    (
        "a missing file",
        [
            "import { X } from \"./x.jsx\"; export const App = 1;",
            "",
            "",
            "",
        ],
        "ImportMissing root ./x.jsx",
    ),
    (
        "a source that is none is refused at its turn, behind a module before it",
        [
            "import { x } from \"./a.jsx\"; import { y } from \"zzz\"; export const App = 1;",
            "const x\n  = ;",
            "",
            "",
        ],
        "Parse a 2:5",
    ),
    (
        "and before the modules that a module before it imports",
        [
            "import { x } from \"./a.jsx\"; import { y } from \"zzz\"; export const App = 1;",
            "import { x } from \"./b.jsx\"; import { y } from \"zzz\";",
            "",
            "",
        ],
        "ImportMissing root zzz",
    ),
    (
        "a capital letter in a source",
        [
            "import { x } from \"./A.jsx\"; export const App = 1;",
            "export const x = 1;",
            "",
            "",
        ],
        "ImportMissing root ./A.jsx",
    ),
    (
        "the source of a built file",
        [
            "import { x } from \"./a.js\"; export const App = 1;",
            "export const x = 1;",
            "",
            "",
        ],
        "ImportMissing root ./a.js",
    ),
    (
        "a name that isn't exported",
        [
            "import { X } from \"./a.jsx\"; export const App = 1;",
            "const X = 1;",
            "",
            "",
        ],
        "ExportMissing root X",
    ),
    (
        "an imported name isn't exported",
        [
            "import { x } from \"./a.jsx\"; export const App = 1;",
            "import { x } from \"./b.jsx\";",
            "export const x = 1;",
            "",
        ],
        "ExportMissing root x",
    ),
    (
        "all modules are read before a missing export is told",
        [
            "import { X } from \"./a.jsx\"; export const App = 1;",
            "import { x } from \"./b.jsx\"; const X = 1;",
            "const",
            "",
        ],
        "Parse b 1:6",
    ),
    (
        "a name that the framework doesn't have",
        [
            "import { useState } from \"@builder.io/qwik\"; export const App = 1;",
            "",
            "",
            "",
        ],
        "ExportMissing root useState",
    ),
    (
        "without `App`",
        ["const App = 1;", "", "", ""],
        "ExportMissing root App",
    ),
    (
        "`App` is wanted last",
        [
            "import { x } from \"./a.jsx\";",
            "import { y } from \"./root.jsx\"; export const x = 1;",
            "",
            "",
        ],
        "ExportMissing a y",
    ),
];

type Files = Vec<(String, Vec<u8>)>;

fn add(alloc: Global, files: &mut Files, name: &str, bytes: &[u8]) -> Result<(), AllocError> {
    let name = String::from_str(alloc, name)?;
    files.push((name, Vec::from_slice(alloc, bytes)?))?;
    Ok(())
}

/// The files of a row.
fn files(alloc: Global, row: &Row) -> Result<Files, AllocError> {
    let mut files = Vec::new(alloc);
    for (name, text) in ["root.jsx", "a.jsx", "b.jsx", "c.jsx"]
        .iter()
        .zip(row.1.iter())
    {
        if !text.is_empty() {
            add(alloc, &mut files, name, text.as_bytes())?;
        }
    }
    Ok(files)
}

/// The answer's kind, with what it says.
fn told(alloc: Global, answer: &Result<Modules, GatherFault>) -> Result<String, AllocError> {
    match answer {
        Ok(modules) => names(alloc, modules),
        Err(GatherFault::RootMissing) => String::from_str(alloc, "RootMissing"),
        Err(GatherFault::ImportMissing { module, name }) => {
            format!(in alloc; "ImportMissing {} {}", module.as_str(), name.as_str())
        }
        Err(GatherFault::ExportMissing { module, name }) => {
            format!(in alloc; "ExportMissing {} {}", module.as_str(), name.as_str())
        }
        Err(GatherFault::NotUtf8 { module }) => format!(in alloc; "NotUtf8 {}", module.as_str()),
        Err(
            GatherFault::Parse {
                module,
                fault,
                place,
            },
        ) => {
            let kind = match fault {
                ParseFault::TooLong => "TooLong",
                _ => "Parse",
            };
            format!(in alloc;
                "{kind} {} {}:{}",
                module.as_str(),
                place.line,
                place.column
            )
        }
        Err(GatherFault::TooMany) => String::from_str(alloc, "TooMany"),
        Err(GatherFault::Store) => String::from_str(alloc, "Store"),
        Err(GatherFault::Memory) => String::from_str(alloc, "Memory"),
    }
}

/// The names of the modules in order.
fn names(alloc: Global, modules: &Modules) -> Result<String, AllocError> {
    let mut text = String::new(alloc);
    for one in modules.list.as_slice() {
        if !text.is_empty() {
            text.push_str(" ")?;
        }
        text.push_str(one.name.as_str())?;
    }
    Ok(text)
}

fn gathers(
    rt: &impl Abort,
    alloc: Global,
    what: &str,
    files: Files,
    expected: &str,
) -> Result<(), Fail> {
    let mut store = MemStore::new(alloc, files, Vec::new(alloc));
    let answer = gather(alloc, &mut store);
    let text = told(alloc, &answer)?;
    assert_eq!(rt; text.as_str(), expected, "{what}");
    Ok(())
}

#[test]
fn gathers_the_modules_or_tells_why_not(rt: HostRuntime) -> Result<(), Fail> {
    let alloc = rt.alloc();
    for row in &ROWS {
        gathers(&rt, alloc, row.0, files(alloc, row)?, row.2)?;
    }
    Ok(())
}

#[test]
fn tries_the_length_before_the_encoding(rt: HostRuntime) -> Result<(), Fail> {
    let alloc = rt.alloc();
    let mut not_utf8 = Vec::new(alloc);
    add(
        alloc,
        &mut not_utf8,
        "root.jsx",
        b"export const App = \xff;",
    )?;
    gathers(&rt, alloc, "no UTF-8", not_utf8, "NotUtf8 root")?;
    let bytes: Vec<u8> = vec![in alloc; b'\xff'; 1_048_577]?;
    let mut long = Vec::new(alloc);
    add(alloc, &mut long, "root.jsx", bytes.as_slice())?;
    gathers(&rt, alloc, "too long", long, "TooLong root 1:1")
}

/// A name of a module for each number below 256.
fn numbered(alloc: Global, number: u8) -> Result<String, AllocError> {
    let mut name = String::from_str(alloc, "m")?;
    name.push((b'a' + number / 16) as char)?;
    name.push((b'a' + number % 16) as char)?;
    Ok(name)
}

/// A root that imports so many modules and one of a last source.
fn many(alloc: Global, count: u8, last: &str) -> Result<Files, AllocError> {
    let mut files = Vec::new(alloc);
    let mut root = String::new(alloc);
    for number in 0..count {
        let name = numbered(alloc, number)?;
        root.push_str(format!(in alloc; "import {{ x }} from \"./{name}.jsx\"; ")?.as_str())?;
        let file = format!(in alloc; "{name}.jsx")?;
        add(alloc, &mut files, file.as_str(), b"export const x = 1;")?;
    }
    root.push_str(format!(in alloc; "import {{ x }} from \"{last}\"; {APP}")?.as_str())?;
    add(alloc, &mut files, "root.jsx", root.as_bytes())?;
    add(alloc, &mut files, "last.jsx", b"export const x = 1;")?;
    Ok(files)
}

/// How many modules were gathered.
fn count(answer: &Result<Modules, GatherFault>) -> usize {
    match answer {
        Ok(modules) => modules.list.len(),
        Err(_) => 0,
    }
}

#[test]
fn takes_256_modules(rt: HostRuntime) -> Result<(), Fail> {
    let alloc = rt.alloc();
    let mut store = MemStore::new(alloc, many(alloc, 254, "./last.jsx")?, Vec::new(alloc));
    let answer = gather(alloc, &mut store);
    assert_eq!(rt; count(&answer), 256);
    for (last, expected) in [
        ("./last.jsx", "TooMany"),
        ("./gone.jsx", "ImportMissing root ./gone.jsx"),
    ] {
        gathers(&rt, alloc, last, many(alloc, 255, last)?, expected)?;
    }
    Ok(())
}

#[test]
fn tells_a_store_that_fails(rt: HostRuntime) -> Result<(), Fail> {
    let alloc = rt.alloc();
    let mut store = MemStore::new(alloc, files(alloc, &ROWS[3])?, vec![in alloc; 2]?);
    let answer = gather(alloc, &mut store);
    assert_eq!(rt; told(alloc, &answer)?.as_str(), "Store");
    assert_eq!(rt; store.reads().len(), 1);
    Ok(())
}

/// The imported names of the module `root`, each with its origin.
fn origins(alloc: Global, modules: &Modules) -> Result<String, Fail> {
    let mut text = String::new(alloc);
    if modules.list.is_empty() {
        return Ok(text);
    }
    let Ok(table) = imports(alloc, modules, 0) else {
        return Err(Fail::new("want of memory"));
    };
    for one in table.entries.as_slice() {
        let name = one.name.as_str();
        let entry = match &one.origin {
            Origin::Module(module, other) => {
                format!(in alloc; "{name}={}.{} ", module.as_str(), other.as_str())?
            }
            Origin::Qwik(other) => format!(in alloc; "{name}={} ", other.as_str())?,
        };
        text.push_str(entry.as_str())?;
    }
    Ok(text)
}

#[test]
fn tells_where_imported_names_come_from(rt: HostRuntime) -> Result<(), Fail> {
    let alloc = rt.alloc();
    let mut store = MemStore::new(alloc, files(alloc, &ROWS[3])?, Vec::new(alloc));
    let Ok(modules) = gather(alloc, &mut store) else {
        return Err(Fail::new("no modules"));
    };
    assert_eq!(rt;
        origins(alloc, &modules)?.as_str(),
        "x=b.x x=a.x y=a.y $=$ "
    );
    Ok(())
}
