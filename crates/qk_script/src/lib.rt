//! Scripts: the events that are played, and the pauses between them.
#![tactic(auto)]

mod fault;
mod item;
mod laws;
mod lines;
mod script;

pub use fault::ScriptFault;
pub use item::{Event, ScriptItem};
pub use laws::one_script;
pub use script::parse_script;
