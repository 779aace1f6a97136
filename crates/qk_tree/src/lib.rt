//! The expansion of views: one traversal, with what is done at a component as a parameter.
#![tactic(auto)]

mod given;
mod settled;
mod shown;
mod step;
mod visit;
mod walk;

pub use settled::{TreeStop, View, expand};
pub use visit::{Stop, Visit};
pub use walk::expand_app;
