//! JSX values.

ghost use Rattle.std.specs.Prelude.{◌≡◌, map, IfOk};
ghost use Rattle.qk_meaning.specs.Setting.{Setting, captures};
ghost use Rattle.qk_meaning.specs.Parts.{packed};
ghost use Rattle.qk_meaning.specs.Markup as meaning;
ghost use Rattle.qk_value.specs.View.{shown_by, seen_fields, seen_all, seen_element};
ghost use Rattle.qk_environment.specs.Scoping.{Captures};
ghost use Rattle.qk_making.specs.Acting.{Leaves, seen_in};
ghost use Rattle.qk_making.specs.Marking.{markup_made};
ghost use Rattle.qk_making.specs.Tags as tags;

use crate::attributes::{key_among, shown_attributes, text_among, try_attributes};
use crate::children::try_children;
use crate::fixed::fixed;
use qk_code::Stop;
use qk_shared::{Builder, List, Shared, Text};
use qk_value::{Elem, ElemTag, Value};
use std::alloc::{AllocError, Global};

/// A JSX value with these attributes as they are written, and these children. A slot gets its name from its attributes.
///
/// # Errors
///
/// `NotText`, `NotCallable`, `NoProperty` of an attribute, then `NotText` and `DuplicateKey` of a child, whichever comes first; then `TreeTooLarge` and
/// `TreeTooDeep`.
pub fn make_markup(
    alloc: Global,
    tag: ElemTag,
    attributes: &[(Text, Value)],
    children: Builder<Value>,
) -> Result<Value, Stop>
    ensures { (here : Setting) → Leaves (seen_in here) (markup_made here (shown_by tag) (seen_fields (captures here) attributes.now) (packed (map (seen_in here) children))) result }
{
    try_attributes(is_element(&tag), attributes)?;
    try_children(alloc, children.as_slice())?;
    let made = element(alloc, tag, attributes, children)?;
    fixed(Value::Elem(Shared::new(alloc, made)?))
}

fn is_element(tag: &ElemTag) -> bool
    ensures { result ≡ meaning.is_element (shown_by tag.now) }
{
    matches!(tag, ElemTag::Element(_))
}

fn is_slot(tag: &ElemTag) -> bool
    ensures { result ≡ tags.is_slot (shown_by tag.now) }
{
    matches!(tag, ElemTag::Slot(_))
}

/// The parts of a JSX value. A slot has its name alone.
fn element(
    alloc: Global,
    tag: ElemTag,
    attributes: &[(Text, Value)],
    children: Builder<Value>,
) -> Result<Elem, AllocError>
    ensures { IfOk result (λ e. (names : Captures) → seen_element names e ≡ meaning.element (shown_by tag) (seen_fields names attributes.now) (seen_all names children)) }
{
    if is_slot(&tag) {
        return slot(alloc, attributes);
    }
    Ok(Elem {
        tag,
        key: key_among(alloc, attributes)?,
        slot: text_among(alloc, attributes, "q:slot")?,
        attrs: shown_attributes(alloc, attributes)?,
        children: children.into_list(alloc)?,
    })
}

fn slot(alloc: Global, attributes: &[(Text, Value)]) -> Result<Elem, AllocError>
    ensures { IfOk result (λ e. (names : Captures) → seen_element names e ≡ tags.slot_seen (seen_fields names attributes.now)) }
{
    Ok(Elem {
        tag: ElemTag::Slot(text_among(alloc, attributes, "name")?),
        key: None,
        slot: Text::from_str(alloc, "")?,
        attrs: List::from_vec(alloc, Vec::new(alloc))?,
        children: List::from_vec(alloc, Vec::new(alloc))?,
    })
}
