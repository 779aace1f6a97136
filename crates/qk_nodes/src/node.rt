//! Nodes, and the steps of paths.

use qk_shared::{List, Text};
use qk_value::Value;

/// The place of an item in its sequence: its key, or its number among the items without a key, from 0.
#[derive(Drop)]
pub enum Place {
    Keyed(Text),
    Nth(usize),
}

/// A step of a path: a place, and what stands there: the tag of an element, the symbol of a component, `slot:` and the name of a Slot, or the
/// empty text for a list or a fragment.
#[derive(Drop)]
pub struct Step {
    pub place: Place,
    pub name: Text,
}

/// What a page shows: an element, a text, or the nodes of an instance.
#[cycle(node)]
#[derive(Drop)]
pub enum Node {
    Element(Element),
    Text(Text),
    Instance(Inside),
}

/// An element, with all its attributes: listeners, and those that the HTML doesn't show.
#[cycle(node)]
#[derive(Drop)]
pub struct Element {
    pub tag: Text,
    pub attrs: List<(Text, Value)>,
    pub children: List<Node>,
}

/// What an instance shows, with its path.
#[cycle(node)]
#[derive(Drop)]
pub struct Inside {
    pub path: List<Step>,
    pub nodes: List<Node>,
}
