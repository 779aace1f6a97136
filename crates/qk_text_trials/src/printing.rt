//! Modules that are read and printed.

use qk_ast::Form;
use qk_parse::parse_module;
use qk_print::print_module;
use std::alloc::Global;
use std::test::Fail;

/// What is printed of a text behind other bytes; nothing of one that is no module.
fn printed(alloc: Global, form: Form, text: &str) -> Result<Vec<u8>, Fail> {
    let mut out = Vec::from_slice(alloc, b"//\n")?;
    if let Ok(module) = parse_module(alloc, text, form) {
        print_module(&module, &mut out)?;
    }
    Ok(out)
}

/// A module with each rule of statements, and how it is printed.
const STATEMENTS: (&str, &str) = (
    "import { a, b, } from \"m\";
import { c } from 'n';
export const f = () => {
    const { x } = a;
    let n = 1;
    n += 2;
    n -= 1;
    n++;
    b();
    if (x) { return; } else if (n) n = 3; else { return n; }
    while (x) { break; continue; }
    for (const y of x) delete y.z;
    {}
    return 1;
};
const g = () => n = 1;
",
    "import { a, b } from \"m\";
import { c } from \"n\";
export const f = () => { const { x } = a; let n = 1; n += 2; n -= 1; n++; b(); if (x) { return; } else { if (n) { n = 3; } else { return n; } } while (x) { break; continue; } for (const y of x) { delete y.z; } { } return 1; };
const g = () => n = 1;
",
);

/// Sources, and how they are printed.
const SOURCES: [(&str, &str); 11] = [
    STATEMENTS,
    ("const a = 10 - (3 - 1);", "const a = 10 - (3 - 1);\n"),
    ("const a = b || c && d;", "const a = b || (c && d);\n"),
    (
        "const a = (b.return) < c + console.log(d);",
        "const a = (b.return) < (c + console.log(d));\n",
    ),
    (
        "const a = (console).log(b);",
        "const a = (console).log(b);\n",
    ),
    (
        "const a = Math.trunc(-b / (c - 1));",
        "const a = Math.trunc((-b) / (c - 1));\n",
    ),
    (
        "const f = ({ a, b }, c) => ({ a, b: { } });",
        "const f = ({ a, b }, c) => ({ \"a\": a, \"b\": { } });\n",
    ),
    (
        "const f = () => { for (const a of (<p/>)) {} };",
        "const f = () => { for (const a of (<p/>)) { } };\n",
    ),
    (
        "const a = `b\\n\\`\\${${(<p id='q'>r{s}</p>)}`;",
        "const a = `b\\n\\`\\${${(<p id={\"q\"}>{\"r\"}{s}</p>)}`;\n",
    ),
    (
        "const a = '\\u001F\\u{b}\\r\\n\\t\\\"\\\\\\'';",
        "const a = \"\\u001f\\u000b\\r\\n\\t\\\"\\\\'\";\n",
    ),
    (
        "const a = <><A b$={() => 1} c/>{d[0]}</>;",
        "const a = <><A b$={() => 1} c={true}/>{d[0]}</>;\n",
    ),
];

/// Built files, which are printed as they stand.
const BUILT: [&str; 2] = [
    "import { useLexicalScope } from \"@builder.io/qwik\";\nexport const root_s1 = () => { const [n] = useLexicalScope(); return <b id={\"\\u0001\"}>{n.value}</b>; };\n",
    "const h = () => { const [p, q] = useLexicalScope(); p(); };\n",
];

#[test]
fn sources(rt: HostRuntime) -> Result<(), Fail> {
    let alloc = rt.alloc();
    for (text, expected) in &SOURCES {
        let expected = format!(in alloc; "//\n{expected}")?;
        assert_eq!(rt;
            printed(alloc, Form::Source, text)?.as_slice(),
            expected.as_bytes(),
            "{text}"
        );
    }
    Ok(())
}

#[test]
fn built_files(rt: HostRuntime) -> Result<(), Fail> {
    let alloc = rt.alloc();
    for text in &BUILT {
        let expected = format!(in alloc; "//\n{text}")?;
        assert_eq!(rt;
            printed(alloc, Form::Built, text)?.as_slice(),
            expected.as_bytes(),
            "{text}"
        );
    }
    Ok(())
}
