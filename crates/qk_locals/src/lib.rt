//! Marks and scopes: where an arrow stands, and what a name means at a place.
#![tactic(auto)]

mod declared;
mod layer;
mod local;
mod mark;
mod scopes;

pub use local::{Kind, Local};
pub use mark::Mark;
pub use scopes::Scopes;
