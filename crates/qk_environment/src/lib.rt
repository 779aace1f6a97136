//! The names in scope of a function under way, and their values.
#![tactic(auto)]

mod scope;

pub use scope::{Named, Scope};
