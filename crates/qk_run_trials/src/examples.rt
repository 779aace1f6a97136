//! Worked examples, the words, and the causes for which a script is refused.

use crate::playing::{COUNTER, Files, files, played, plays, words};
use qk_store::{MemSink, MemStore};
use qk_top::run;
use std::alloc::{AllocError, Global};
use std::test::Fail;

/// A worked example: the files `root.jsx` (behind the import of every name) and `s.txt`, what `replay s.txt` prints, and its status.
struct Row {
    what: &'static str,
    root: &'static str,
    script: &'static str,
    prints: &'static str,
    status: u8,
}

const ROWS: [Row; 8] = [
    Row {
        what: "a counter that is clicked three times",
        root: COUNTER,
        script: "click b\nclick b\nclick b",
        prints: "item 0\nhtml <button id=\"b\">0</button>\nitem 1\nhtml <button id=\"b\">1</button>\nitem 2\nhtml <button id=\"b\">2</button>\nitem 3\nhtml <button id=\"b\">3</button>\n",
        status: 0,
    },
    Row {
        what: "a counter and an empty script",
        root: COUNTER,
        script: "",
        prints: "item 0\nhtml <button id=\"b\">0</button>\n",
        status: 0,
    },
    Row {
        what: "an element without anything",
        root: "export const App = component$(() => { return <p/>; });",
        script: "",
        prints: "item 0\nhtml <p></p>\n",
        status: 0,
    },
    Row {
        what: "nothing hears a click at another id, and a click down goes below zero",
        root: "export const App = component$(() => { const n = useSignal(0); return <p onClick$={() => n.value--} id=\"a\">{n.value}</p>; });",
        script: "click q\nclick a\n",
        prints: "item 0\nhtml <p id=\"a\">0</p>\nitem 1\nnone\nhtml <p id=\"a\">0</p>\nitem 2\nhtml <p id=\"a\">-1</p>\n",
        status: 0,
    },
    Row {
        what: "a value changes nothing, and nothing hears an event of another kind, also where its letters begin alike",
        root: COUNTER,
        script: "click b 7\ninput b 1\nclicks b\nclic b\nclick b \nclick bb\n",
        prints: "item 0\nhtml <button id=\"b\">0</button>\nitem 1\nhtml <button id=\"b\">1</button>\nitem 2\nnone\nhtml <button id=\"b\">1</button>\nitem 3\nnone\nhtml <button id=\"b\">1</button>\nitem 4\nnone\nhtml <button id=\"b\">1</button>\nitem 5\nhtml <button id=\"b\">2</button>\nitem 6\nnone\nhtml <button id=\"b\">2</button>\n",
        status: 0,
    },
    Row {
        what: "empty lines are no items, a carriage return ends a line, and the last line may lack its line feed",
        root: COUNTER,
        script: "\r\nclick b\r\n\nclick b",
        prints: "item 0\nhtml <button id=\"b\">0</button>\nitem 1\nhtml <button id=\"b\">1</button>\nitem 2\nhtml <button id=\"b\">2</button>\n",
        status: 0,
    },
    Row {
        what: "a script with a pause",
        root: COUNTER,
        script: "pause",
        prints: "refused NotBuilt\n",
        status: 5,
    },
    Row {
        what: "a component whose arrow is an expression",
        root: "export const App = component$(() => <p id=\"p\">hi</p>);",
        script: "click q\nclick p",
        prints: "refused NotBuilt root -\n",
        status: 2,
    },
];

#[test]
fn worked_examples(rt: HostRuntime) -> Result<(), Fail> {
    let alloc = rt.alloc();
    for row in &ROWS {
        let files = files(alloc, row.root, row.script.as_bytes())?;
        plays(&rt, alloc, row.what, files, row.prints, row.status)?;
    }
    Ok(())
}

/// Words that are no command.
const USAGE: [&[&str]; 6] = [
    &[],
    &["replay"],
    &["replay", ""],
    &["replay", "-s"],
    &["replay", "s.txt", "s.txt"],
    &["play", "s.txt"],
];

#[test]
fn words_that_are_no_command(rt: HostRuntime) -> Result<(), Fail> {
    let alloc = rt.alloc();
    for all in &USAGE {
        let words = words(alloc, all)?;
        let mut store = MemStore::new(alloc, files(alloc, COUNTER, b"")?, Vec::new(alloc));
        let mut out = MemSink::new(alloc, Vec::new(alloc));
        assert_eq!(rt; run(alloc, words.as_slice(), &mut store, &mut out), 1);
        assert_eq!(rt; out.bytes(), b"usage\n".as_slice());
        assert!(rt; store.reads().is_empty());
    }
    Ok(())
}

#[test]
fn missing_files(rt: HostRuntime) -> Result<(), Fail> {
    let alloc = rt.alloc();
    let none = Vec::new(alloc);
    plays(&rt, alloc, "no file", none, "refused ScriptMissing\n", 5)?;
    let mut script: Files = Vec::new(alloc);
    script.push((String::from_str(alloc, "s.txt")?, Vec::new(alloc)))?;
    plays(
        &rt,
        alloc,
        "no root",
        script,
        "refused RootMissing root -\n",
        2,
    )
}

/// So many copies of a line, and an end behind them.
fn lines(alloc: Global, line: &[u8], count: usize, end: &[u8]) -> Result<Vec<u8>, AllocError> {
    let mut script = Vec::new(alloc);
    for _ in 0..count {
        script.extend_from_slice(line)?;
    }
    script.extend_from_slice(end)?;
    Ok(script)
}

/// A line, how many copies of it stand in a script, what stands behind them, and for which cause the script is refused.
type Cause = (&'static [u8], usize, &'static [u8], &'static str);

const CAUSES: [Cause; 7] = [
    (b"click\n", 1, b"click \xc3\x28", "ScriptNotUtf8"),
    (b"click\n", 2, b"", "ScriptLine 1"),
    (
        b"click b\n",
        2,
        b"\n\nclick b\nclick\nwrong",
        "ScriptLine 6",
    ),
    (b"pause\n", 11, b" click b", "ScriptLine 12"),
    (b"pause\n", 65_537, b"wrong", "ScriptLine 65538"),
    (b"pause\n", 65_536, b"a b", "ScriptTooMany"),
    (b"pause\n", 65_536, b"", "NotBuilt"),
];

#[test]
fn causes_of_a_script(rt: HostRuntime) -> Result<(), Fail> {
    let alloc = rt.alloc();
    for (line, count, end, kind) in &CAUSES {
        let script = lines(alloc, line, *count, end)?;
        let prints = format!(in alloc; "refused {kind}\n")?;
        let files = files(alloc, COUNTER, script.as_slice())?;
        plays(&rt, alloc, kind, files, prints.as_str(), 5)?;
    }
    Ok(())
}

/// A click whose value fills the script up to so many bytes, and a byte behind them.
fn long_click(alloc: Global, bytes: usize, last: u8) -> Result<Vec<u8>, AllocError> {
    let mut script = lines(alloc, b"click b ", 1, b"")?;
    script.resize(bytes, b'x')?;
    script.push(last)?;
    Ok(script)
}

/// One click of the counter.
const ONE_CLICK: &str =
    "item 0\nhtml <button id=\"b\">0</button>\nitem 1\nhtml <button id=\"b\">1</button>\n";

/// How long a click is without its last byte, that byte, and what is answered. The length is tried before the encoding.
const LONG: [(usize, u8, &str, u8); 4] = [
    (1_048_575, b'x', ONE_CLICK, 0),
    (1_048_575, 0xff, "refused ScriptNotUtf8\n", 5),
    (1_048_576, b'x', "refused ScriptTooLong\n", 5),
    (1_048_576, 0xff, "refused ScriptTooLong\n", 5),
];

#[test]
fn long_scripts(rt: HostRuntime) -> Result<(), Fail> {
    let alloc = rt.alloc();
    for (bytes, last, prints, status) in &LONG {
        let script = long_click(alloc, *bytes, *last)?;
        let files = files(alloc, COUNTER, script.as_slice())?;
        plays(&rt, alloc, prints, files, prints, *status)?;
    }
    Ok(())
}

#[test]
fn the_most_items_are_played(rt: HostRuntime) -> Result<(), Fail> {
    let alloc = rt.alloc();
    let clicks = lines(alloc, b"click b\n", 65_536, b"")?;
    let (out, status) = played(alloc, files(alloc, COUNTER, clicks.as_slice())?)?;
    let last = b"\nitem 65536\nhtml <button id=\"b\">65536</button>\n".as_slice();
    assert!(rt; out.bytes().ends_with(last));
    assert_eq!(rt; status, 0);
    Ok(())
}
