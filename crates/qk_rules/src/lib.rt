//! The rules of places: which names, calls, tags and attributes may stand where, for modules as they are written.
#![tactic(auto)]

mod calls;
mod checking;
mod earlier;
mod fault;
mod hooks;
mod items;
mod kinds;
mod listed;
mod roots;
mod sites;
mod standing;
mod tags;
mod telling;
mod uses;
mod walk;

pub use checking::check;
pub use fault::RuleFault;
pub use kinds::Kinds;
