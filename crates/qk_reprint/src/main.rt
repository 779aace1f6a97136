//! Prints the module in a file as built files have it: `qk_reprint FILE`. The statuses are those of `qwk`, 2 for a file that derives no module.
#![tactic(auto)]

mod reprint;

use qk_store::{DirStore, OutSink};
use reprint::{Stop, reprint};
use std::alloc::Global;
use std::env;
use std::process::ExitCode;
use std::rt::Env;

fn main(rt: HostRuntime) -> ExitCode {
    let alloc = rt.alloc();
    let Some(name) = file_name(&rt) else {
        return ExitCode::from(1);
    };
    let mut store = DirStore::new(&rt, alloc, String::new(alloc));
    let mut out = OutSink::new(&rt);
    match reprint(alloc, name.as_str(), &mut store, &mut out) {
        Ok(()) => ExitCode::from(0),
        Err(stop) => ExitCode::from(stop.status()),
    }
}

/// The first word after the program's name.
fn file_name(rt: &(impl Env + AllocGlobal)) -> Option<String> {
    match env::args(rt) {
        Ok(all) => all.skip(1).next(),
        Err(_) => None,
    }
}
