//! The syntax tree as a tree of nodes: what the children of each form are, said once.
#![tactic(auto)]

mod node;

pub use node::{Children, Node};
