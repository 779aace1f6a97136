//! JSX elements.
#![tactic(auto, using(crate::proofs::Fronts::begins_same, crate::proofs::Fronts::begins_with, crate::proofs::Fronts::begins_after))]

ghost use Rattle.std.specs.Prelude.{◌≡◌, ◌++◌, OnOk, OnErr, IfSome, IfNone, map, flat_map, List, ℕ};
ghost use Rattle.qk_ast.specs.declared.Tag.TheVariants.{Fragment};
ghost use Rattle.qk_print.specs.Growing.{Begins};
ghost use Rattle.qk_print.specs.Printing.{jsx_text, element_text, named_text, content_text, attribute_text, child_text};
ghost use Rattle.qk_print.specs.Lists.{printed_of, keyed_of};

use crate::expressions::expression;
use crate::put::put;
use crate::standing::is_markup;
use qk_ast::{Expr, Field, Jsx, Tag};
use std::alloc::AllocError;

#[cycle(printing)]
pub(crate) fn element(jsx: &Jsx, out: &mut Vec<u8>) -> Result<(), AllocError>
    ensures ok { OnOk result (out.new.items ≡ out.old.items ++ jsx_text jsx.now) }
    ensures front { OnErr result (Begins out.old.items out.new.items) }
{
    match tag_name(&jsx.tag) {
        Some(name) => {
            put("<", out)?;
            put(name, out)?;
            attributes(jsx.attrs.as_slice(), out)?;
            content(name, jsx.children.as_slice(), out)
        }
        None => {
            put("<>", out)?;
            children(jsx.children.as_slice(), out)?;
            put("</>", out)
        }
    }
}

/// The name in the tag; none in a fragment's.
fn tag_name(tag: &Tag) -> Option<&str>
    ensures some { IfSome result (λ name. (attributes : List (List ℕ)) (children : List (List ℕ)) → element_text tag.now attributes children ≡ named_text name.now attributes children) }
    ensures none { IfNone result (tag.now ≡ Fragment) }
{
    match tag {
        Tag::Element(name) => Some(name.as_str()),
        Tag::Component(name) => Some(name.as_str()),
        Tag::Fragment => None,
    }
}

#[cycle(printing)]
fn attributes(attributes: &[Field], out: &mut Vec<u8>) -> Result<(), AllocError>
    ensures ok { OnOk result (out.new.items ≡ out.old.items ++ flat_map (λ a. a) (map attribute_text (map keyed_of attributes.now))) }
    ensures front { OnErr result (Begins out.old.items out.new.items) }
{
    for one in attributes {
        attribute(one, out)?;
    }
    Ok(())
}

#[cycle(printing)]
fn attribute(attribute: &Field, out: &mut Vec<u8>) -> Result<(), AllocError>
    ensures ok { OnOk result (out.new.items ≡ out.old.items ++ attribute_text (keyed_of attribute.now)) }
    ensures front { OnErr result (Begins out.old.items out.new.items) }
{
    put(" ", out)?;
    put(attribute.key.as_str(), out)?;
    put("={", out)?;
    expression(&attribute.value, out)?;
    put("}", out)
}

/// What follows the attributes of an element of this name.
#[cycle(printing)]
fn content(name: &str, inside: &[Expr], out: &mut Vec<u8>) -> Result<(), AllocError>
    ensures ok { OnOk result (out.new.items ≡ out.old.items ++ content_text name.now (map child_text (map printed_of inside.now))) }
    ensures front { OnErr result (Begins out.old.items out.new.items) }
{
    if inside.is_empty() {
        return put("/>", out);
    }
    put(">", out)?;
    children(inside, out)?;
    put("</", out)?;
    put(name, out)?;
    put(">", out)
}

#[cycle(printing)]
fn children(children: &[Expr], out: &mut Vec<u8>) -> Result<(), AllocError>
    ensures ok { OnOk result (out.new.items ≡ out.old.items ++ flat_map (λ c. c) (map child_text (map printed_of children.now))) }
    ensures front { OnErr result (Begins out.old.items out.new.items) }
{
    for one in children {
        child(one, out)?;
    }
    Ok(())
}

/// An element as it is, another expression in braces.
#[cycle(printing)]
fn child(x: &Expr, out: &mut Vec<u8>) -> Result<(), AllocError>
    ensures ok { OnOk result (out.new.items ≡ out.old.items ++ child_text (printed_of x.now)) }
    ensures front { OnErr result (Begins out.old.items out.new.items) }
{
    if is_markup(x) {
        return expression(x, out);
    }
    put("{", out)?;
    expression(x, out)?;
    put("}", out)
}
