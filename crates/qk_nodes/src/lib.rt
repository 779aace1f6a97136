//! What a page shows: elements, texts and instances, and the paths of instances.
#![tactic(auto)]

mod node;
mod paths;

pub use node::{Element, Inside, Node, Place, Step};
pub use paths::{is_above, is_same_path};
