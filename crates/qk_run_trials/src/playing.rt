//! Plays scripts on applications in memory.

use qk_store::{MemSink, MemStore, Sink, Store};
use qk_top::run;
use std::alloc::{AllocError, Global};
use std::process::Abort;
use std::test::Fail;

pub(crate) type Files = Vec<(String, Vec<u8>)>;

/// The import of all that the framework exports.
pub(crate) const ALL: &str =
    "import { $, Slot, component$, createContextId, noSerialize, useComputed$, useContext, useContextProvider, useSignal, useStore, useTask$ } from \"@builder.io/qwik\";\n";

pub(crate) const COUNTER: &str =
    "export const App = component$(() => { const n = useSignal(0); return <button id=\"b\" onClick$={() => n.value++}>{n.value}</button>; });";

pub(crate) fn file(
    alloc: Global,
    name: &str,
    parts: &[&[u8]],
) -> Result<(String, Vec<u8>), AllocError> {
    let mut bytes = Vec::new(alloc);
    for part in parts {
        bytes.extend_from_slice(part)?;
    }
    Ok((String::from_str(alloc, name)?, bytes))
}

/// The script `s.txt`, and the root module `root.jsx` behind the import of all names.
pub(crate) fn files(alloc: Global, root: &str, script: &[u8]) -> Result<Files, AllocError> {
    let mut files = Vec::new(alloc);
    files.push(file(alloc, "root.jsx", &[ALL.as_bytes(), root.as_bytes()])?)?;
    files.push(file(alloc, "s.txt", &[script])?)?;
    Ok(files)
}

pub(crate) fn words(alloc: Global, all: &[&str]) -> Result<Vec<String>, AllocError> {
    let mut words = Vec::new(alloc);
    for word in all {
        words.push(String::from_str(alloc, word)?)?;
    }
    Ok(words)
}

/// The status of `replay s.txt`, through the bounds of the traits.
pub(crate) fn replay<S: Store, K: Sink>(
    alloc: Global,
    store: &mut S,
    out: &mut K,
) -> Result<u8, AllocError> {
    let words = words(alloc, &["replay", "s.txt"])?;
    Ok(run(alloc, words.as_slice(), store, out))
}

/// What `replay s.txt` prints over these files, and its status.
pub(crate) fn played(alloc: Global, files: Files) -> Result<(MemSink, u8), AllocError> {
    let mut store = MemStore::new(alloc, files, Vec::new(alloc));
    let mut out = MemSink::new(alloc, Vec::new(alloc));
    let status = replay(alloc, &mut store, &mut out)?;
    Ok((out, status))
}

/// `replay s.txt` prints this and has that status.
pub(crate) fn plays(
    rt: &impl Abort,
    alloc: Global,
    what: &str,
    files: Files,
    prints: &str,
    status: u8,
) -> Result<(), Fail> {
    let (out, found) = played(alloc, files)?;
    assert_eq!(rt; out.bytes(), prints.as_bytes(), "{what}");
    assert_eq!(rt; found, status, "{what}");
    Ok(())
}
