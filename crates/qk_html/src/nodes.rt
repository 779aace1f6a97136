//! The HTML of nodes.

ghost use Rattle.std.specs.Prelude.{◌≡◌, ◌<◌, ◌≤◌, ◌++◌, List, length, map, codes, OnOk, OnErr, IfErr};
ghost use Rattle.std.specs.List.{list_any};
ghost use Rattle.qk_ast.specs.Framework.{void_tags};
ghost use Rattle.qk_ast.specs.Texts as words;
ghost use Rattle.qk_meaning.specs.Value.{Site};
ghost use Rattle.qk_meaning.specs.Html as meaning;
ghost use Rattle.qk_nodes.specs.Tree.{node_of, nodes_of, element_of};
ghost use Rattle.qk_html.specs.Appends.{Appends};
ghost use Rattle.qk_html.specs.declared.writing.HtmlFault.TheVariants.{TooLong};

use crate::attributes::attributes_html;
use crate::escaping::text;
use crate::writing::{HtmlFault, push, put};
use qk_nodes::{Element, Node};
use qk_shared::Text;

const MOST_BYTES: usize = 16_777_216;

/// The elements without children and closing tag.
const VOID_TAGS: [&str; 13] = [
    "area", "base", "br", "col", "embed", "hr", "img", "input", "link", "meta", "source", "track",
    "wbr",
];

/// Appends the HTML of nodes, of at most 16,777,216 bytes.
///
/// # Errors
///
/// `TooLong` of a longer text, and `Memory`. The bytes in `out` are then as before.
pub fn html(nodes: &[Node], out: &mut Vec<u8>) -> Result<(), HtmlFault>
    ensures ok { OnOk result ((names : Site → List words.Text) → out.new.items ≡ out.old.items ++ meaning.html (nodes_of names nodes.now)) }
    ensures within { OnOk result ((names : Site → List words.Text) → length (meaning.html (nodes_of names nodes.now)) ≤ 16777216) }
    ensures too_long { IfErr result (λ f. f ≡ TooLong → (names : Site → List words.Text) → 16777216 < length (meaning.html (nodes_of names nodes.now))) }
    ensures kept { OnErr result (out.new.items ≡ out.old.items) }
{
    let before = out.len();
    match nodes_html(nodes, before + MOST_BYTES, out) {
        Ok(()) => Ok(()),
        Err(fault) => {
            out.truncate(before);
            Err(fault)
        }
    }
}

/// Appends the HTML of nodes one after another.
#[cycle(nodes)]
fn nodes_html(nodes: &[Node], most: usize, out: &mut Vec<u8>) -> Result<(), HtmlFault>
    ensures { (names : Site → List words.Text) → Appends (meaning.html (nodes_of names nodes.now)) most out.old.items out.new.items result }
{
    for node in nodes {
        node_html(node, most, out)?;
    }
    Ok(())
}

#[cycle(nodes)]
fn node_html(node: &Node, most: usize, out: &mut Vec<u8>) -> Result<(), HtmlFault>
    ensures { (names : Site → List words.Text) → Appends (meaning.node_html (node_of names node.now)) most out.old.items out.new.items result }
{
    match node {
        Node::Element(e) => element(e, most, out),
        Node::Text(shown) => text(shown.as_str().as_bytes(), most, out),
        Node::Instance(inside) => nodes_html(inside.nodes.as_slice(), most, out),
    }
}

#[cycle(nodes)]
fn element(e: &Element, most: usize, out: &mut Vec<u8>) -> Result<(), HtmlFault>
    ensures { (names : Site → List words.Text) → Appends (meaning.node_html (element_of names e.now)) most out.old.items out.new.items result }
{
    push(b"<", most, out)?;
    put(&e.tag, most, out)?;
    attributes_html(e.attrs.as_slice(), most, out)?;
    push(b">", most, out)?;
    closed(e, most, out)
}

/// Appends what follows the opening tag of an element.
#[cycle(nodes)]
fn closed(e: &Element, most: usize, out: &mut Vec<u8>) -> Result<(), HtmlFault>
    ensures { (names : Site → List words.Text) → Appends (meaning.closed e.now.tag (meaning.html (nodes_of names e.now.children))) most out.old.items out.new.items result }
{
    if is_void(&e.tag) {
        return Ok(());
    }
    nodes_html(e.children.as_slice(), most, out)?;
    closing_tag(&e.tag, most, out)
}

fn is_void(tag: &Text) -> bool
    ensures { result ≡ list_any (words.same_text tag.now) void_tags }
{
    is_one_of(tag.as_str(), &VOID_TAGS)
}

fn is_one_of(text: &str, texts: &[&str]) -> bool
    ensures { result ≡ list_any (words.same_text text.now) (map (λ t. t.now) texts.now) }
{
    for other in texts {
        if text == *other {
            return true;
        }
    }
    false
}

fn closing_tag(tag: &Text, most: usize, out: &mut Vec<u8>) -> Result<(), HtmlFault>
    ensures { Appends (codes "</" ++ (tag.now ++ codes ">")) most out.old.items out.new.items result }
{
    push(b"</", most, out)?;
    put(tag, most, out)?;
    push(b">", most, out)
}
