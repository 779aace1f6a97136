//! The printer of modules: the text of a module as built files have it.
#![tactic(auto)]

mod elements;
mod expressions;
mod laws;
mod names;
mod print;
mod put;
mod standing;
mod statements;

pub use laws::printed_reads_back;
pub use print::{PrintFault, print_module};
