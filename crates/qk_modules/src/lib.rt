//! The modules of an application: those that `root.jsx` reaches, in order of first import, and where each imported name comes from.
#![tactic(auto)]

mod exports;
mod fault;
mod gatherer;
mod laws;
mod listing;
mod modules;
mod names;
mod place;
mod table;
mod turn;

pub use fault::{GatherFault, ModulesFault};
pub use gatherer::gather;
pub use laws::{gathered_or_refused, one_fault, one_gathering};
pub use modules::{Modules, NamedModule};
pub use place::Place;
pub use table::imports;
