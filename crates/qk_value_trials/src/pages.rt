//! The HTML of nodes.

use crate::values::fields;
use qk_html::html;
use qk_nodes::{Element, Node};
use qk_shared::{List, Text};
use std::alloc::{AllocError, Global};
use std::test::Fail;

/// An element around a text, with attributes of these names: each shows its place.
fn page(alloc: Global, tag: &str, attributes: &str, text: &str) -> Result<Vec<Node>, AllocError> {
    let mut inner = Vec::new(alloc);
    inner.push(Node::Text(Text::from_str(alloc, text)?))?;
    let mut nodes = Vec::new(alloc);
    nodes.push(Node::Element(Element {
        tag: Text::from_str(alloc, tag)?,
        attrs: List::from_vec(alloc, fields(alloc, attributes)?)?,
        children: List::from_vec(alloc, inner)?,
    }))?;
    Ok(nodes)
}

const PAGES: [(&str, &str, &str, &str); 3] = [
    ("p", "id", "a<b>", "<p id=\"0\">a&lt;b&gt;</p>"),
    ("b", "onClick$ class", "\"&", "<b class=\"1\">\"&amp;</b>"),
    ("br", "", "x", "<br>"),
];

#[test]
fn pages(rt: HostRuntime) -> Result<(), Fail> {
    let alloc = rt.alloc();
    for (tag, attributes, text, wanted) in &PAGES {
        let nodes = page(alloc, tag, attributes, text)?;
        let mut out = Vec::new(alloc);
        assert!(rt; html(nodes.as_slice(), &mut out).is_ok());
        assert_eq!(rt; out.as_slice(), wanted.as_bytes(), "{tag}");
    }
    Ok(())
}
