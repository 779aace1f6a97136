//! The first element of an id.

ghost use Rattle.std.specs.Prelude.{◌≡◌, List};
ghost use Rattle.std.specs.Option.{option_copied, option_map};
ghost use Rattle.qk_ast.specs.Texts as texts;
ghost use Rattle.qk_meaning.specs.Value.{Site};
ghost use Rattle.qk_meaning.specs.Tree as meaning;
ghost use Rattle.qk_value.specs.View.{seen, seen_fields};
ghost use Rattle.qk_nodes.specs.Tree.{node_of, nodes_of};
ghost use Rattle.qk_html.specs.Finding.{first_element, first_element_in, attributes_of, shows_text};

use crate::attributes::{found, shown_as};
use itoa::Buffer;
use qk_nodes::Node;
use qk_shared::Text;
use qk_value::Value;

/// The first element in document order whose attribute `id` shows this text; `None` exactly where there is none. It takes no memory.
pub fn find<'a>(nodes: &'a [Node], id: &str) -> Option<&'a Node>
    ensures element { (names : Site → List texts.Text) → option_map (node_of names) (option_copied result) ≡ first_element id.now (nodes_of names nodes.now) }
    ensures attributes { (names : Site → List texts.Text) → attributes_of (option_map (node_of names) (option_copied result)) ≡ meaning.first_with id.now (nodes_of names nodes.now) }
{
    find_among(nodes, id)
}

#[cycle(find)]
fn find_among<'a>(nodes: &'a [Node], id: &str) -> Option<&'a Node>
    ensures { (names : Site → List texts.Text) → option_map (node_of names) (option_copied result) ≡ first_element id.now (nodes_of names nodes.now) }
{
    for node in nodes {
        if let Some(element) = find_in(node, id) {
            return Some(element);
        }
    }
    None
}

#[cycle(find)]
fn find_in<'a>(node: &'a Node, id: &str) -> Option<&'a Node>
    ensures { (names : Site → List texts.Text) → option_map (node_of names) (option_copied result) ≡ first_element_in id.now (node_of names node.now) }
{
    match node {
        Node::Element(element) => {
            if shows_id(element.attrs.as_slice(), id) {
                return Some(node);
            }
            find_among(element.children.as_slice(), id)
        }
        Node::Text(_) => None,
        Node::Instance(inside) => find_among(inside.nodes.as_slice(), id),
    }
}

fn shows_id(attributes: &[(Text, Value)], id: &str) -> bool
    ensures { (names : Site → List texts.Text) → result ≡ meaning.shows_id id.now (seen_fields names attributes.now) }
{
    match found(attributes, "id") {
        Some(v) => shows(v, id),
        None => false,
    }
}

/// Whether an attribute of this value shows this text.
fn shows(v: &Value, text: &str) -> bool
    ensures { (names : Site → List texts.Text) → result ≡ shows_text text.now (seen names v.now) }
{
    let mut digits = Buffer::new();
    match shown_as(v, &mut digits) {
        Some(shown) => shown == text,
        None => false,
    }
}
