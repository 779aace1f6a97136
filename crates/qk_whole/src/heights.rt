//! How deep the tree is below a node.

ghost use Rattle.std.specs.Prelude.{◌≤◌, IsTrue};
ghost use Rattle.qk_code.specs.Shallow.{IsShallow};
ghost use Rattle.qk_node.specs.Borrowed.{node_of};
ghost use Rattle.qk_whole.specs.Heights.{height};

use qk_ast::{Arrow, Body};
use qk_locals::Mark;
use qk_node::Node;

/// A child may stand so many levels of the tree below its node, at most.
const LEVELS: u32 = 3;

/// The body of an arrow whose tree has fewer than a million levels may have so many.
const BODY_LEVELS: u32 = 999_997;

/// Whether the tree of an arrow has fewer than a million levels. Where it says no, it may have a few less; no text nests as deep.
pub(crate) fn is_shallow(arrow: &Arrow) -> bool
    ensures { IsTrue result → IsShallow arrow.now }
{
    match &arrow.body {
        Body::Value(value) => is_within(Node::Value(value.get(), Mark::Unmarked), BODY_LEVELS),
        Body::Block(statements) => is_within(Node::Block(statements.as_slice()), BODY_LEVELS),
    }
}

/// Whether the tree below a node has so many levels at most. Where it says no, it may have a few less.
fn is_within(node: Node<'_>, levels: u32) -> bool
    ensures { IsTrue result → height (node_of node.entry) ≤ levels }
{
    let Some(below) = levels.checked_sub(LEVELS) else {
        return false;
    };
    for child in node.children() {
        if !is_within(child, below) {
            return false;
        }
    }
    true
}
