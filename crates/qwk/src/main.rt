//! The program: makes the words, the store of the current folder and the sink of standard output, calls `run` and ends with its status.
#![tactic(auto)]

use qk_store::{DirStore, OutSink};
use qk_top::run;
use std::alloc::{AllocError, Global};
use std::env;
use std::io::ErrorKind;
use std::process::ExitCode;
use std::rt::Env;

fn main(rt: HostRuntime) -> ExitCode {
    let alloc = rt.alloc();
    let Ok(words) = words(&rt, alloc) else {
        return ExitCode::from(8);
    };
    let mut store = DirStore::new(&rt, alloc, String::new(alloc));
    let mut out = OutSink::new(&rt);
    ExitCode::from(run(alloc, words.as_slice(), &mut store, &mut out))
}

/// The words after the program's name; none where they aren't text, so that they are no command.
fn words(rt: &(impl Env + AllocGlobal), alloc: Global) -> Result<Vec<String>, AllocError> {
    let mut words = Vec::new(alloc);
    let all = match env::args(rt) {
        Ok(all) => all,
        Err(error) if error.kind() == ErrorKind::OutOfMemory => return Err(AllocError),
        Err(_) => return Ok(words),
    };
    for word in all.skip(1) {
        words.push(word)?;
    }
    Ok(words)
}
