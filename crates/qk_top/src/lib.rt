//! The top call: all that the program does, from its words to its status, over a store and a sink that are handed in.
#![tactic(auto)]

mod blocks;
mod command;
mod digits;
mod play;
mod refusal;
mod replay;
mod script;
mod sources;
mod stop;
mod stopping;
mod words;

pub use command::run;
pub use qk_script::{Event, ScriptFault, ScriptItem, parse_script};
