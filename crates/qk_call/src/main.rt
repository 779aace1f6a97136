//! Calls a root arrow of the module in a file, without arguments, and prints what came of it: `qk_call FILE NAME [pure|effect [TURNS DEPTH]]`.
//! It ends with 0 at a value, 3 at a fault and 4 where the budget ended, and else with the status of `qwk` for words, sources, the store, the sink or memory.
#![tactic(auto)]

mod alone;
mod calling;
mod components;
mod console;
mod json;
mod played;
mod playing;
mod printing;
mod stop;
mod values;
mod words;

use calling::call_wanted;
use played::Ending;
use qk_store::{DirStore, OutSink};
use std::alloc::{AllocError, Global};
use std::env;
use std::io::ErrorKind;
use std::process::ExitCode;
use std::rt::{Env, Files};
use stop::Stop;
use words::read_words;

fn main(rt: HostRuntime) -> ExitCode {
    match call(&rt, rt.alloc()) {
        Ok(ending) => ExitCode::from(ending.status()),
        Err(stop) => ExitCode::from(stop.status()),
    }
}

/// Calls what the words name, over the current folder and standard output.
fn call(rt: &(impl Env + AllocGlobal + Files + Print), alloc: Global) -> Result<Ending, Stop> {
    let words = all_words(rt, alloc)?;
    let Some(wanted) = read_words(words.as_slice()) else {
        return Err(Stop::Words);
    };
    let mut store = DirStore::new(rt, alloc, String::new(alloc));
    let mut out = OutSink::new(rt);
    call_wanted(alloc, &wanted, &mut store, &mut out)
}

/// The words after the program's name; none where they aren't text, so that they name no call.
fn all_words(rt: &(impl Env + AllocGlobal), alloc: Global) -> Result<Vec<String>, AllocError> {
    let mut words = Vec::new(alloc);
    let all = match env::args(rt) {
        Ok(all) => all,
        Err(error) if error.kind() == ErrorKind::OutOfMemory => return Err(AllocError),
        Err(_) => return Ok(words),
    };
    for word in all.skip(1) {
        words.push(word)?;
    }
    Ok(words)
}
