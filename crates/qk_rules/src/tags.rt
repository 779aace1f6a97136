//! Which elements may be shown, and which attributes a tag may have.

ghost use Rattle.std.specs.Prelude.{◌≡◌, ◌∷◌, [], ◌==◌, ◌&&◌, codes};
ghost use Rattle.qk_ast.specs.Characters.{every, has, is_letter};
ghost use Rattle.qk_ast.specs.Texts.{is_among};
ghost use Rattle.qk_ast.specs.Framework.{void_tags, refused_tags};
ghost use Rattle.qk_ast.specs.Tags as tags;
ghost use Rattle.qk_rules.specs.Attributes.{is_in_attribute, fits_component, is_alone};

use crate::items::is_text_literal;
use crate::listed::is_one_of;
use qk_ast::{Expr, Tag};

/// The elements without children.
const VOID_TAGS: [&str; 13] = [
    "area", "base", "br", "col", "embed", "hr", "img", "input", "link", "meta", "source", "track",
    "wbr",
];

/// The elements that no module shows.
const REFUSED_TAGS: [&str; 8] = [
    "script", "style", "textarea", "title", "template", "html", "head", "body",
];

fn is_void(name: &str) -> bool
    ensures { result ≡ is_among name.now void_tags }
{
    is_one_of(name, &VOID_TAGS)
}

fn is_refused(name: &str) -> bool
    ensures { result ≡ is_among name.now refused_tags }
{
    is_one_of(name, &REFUSED_TAGS)
}

/// Whether the element may be shown, a void one without children.
pub(crate) fn is_element(name: &str, children: bool) -> bool
    ensures { result ≡ tags.is_element name.now children }
{
    !is_refused(name) && !(is_void(name) && children)
}

fn is_letter(byte: u8) -> bool
    ensures { result ≡ is_letter byte }
{
    byte.is_ascii_lowercase() || byte.is_ascii_uppercase()
}

fn are_letters(bytes: &[u8]) -> bool
    ensures { result ≡ every is_letter bytes.now }
{
    for byte in bytes {
        if !is_letter(*byte) {
            return false;
        }
    }
    true
}

fn are_letters_before(letters: &[u8], last: u8) -> bool
    ensures { result ≡ ((last == 36) && every is_letter letters.now) }
{
    last == b'$' && are_letters(letters)
}

/// Whether it is letters and a `$` at the end.
fn letters_and_dollar(bytes: &[u8]) -> bool
    ensures { result ≡ tags.letters_and_dollar bytes.now }
{
    match bytes.split_last() {
        Some((last, letters)) => are_letters_before(letters, *last),
        None => false,
    }
}

/// Whether the attribute listens for an event: `on`, a capital letter, letters and `$`.
pub(crate) fn is_listener(name: &str) -> bool
    ensures { result ≡ tags.is_listener name.now }
{
    match name.as_bytes() {
        [first, second, third, rest @ ..] => {
            *first == b'o'
                && *second == b'n'
                && third.is_ascii_uppercase()
                && letters_and_dollar(rest)
        }
        _ => false,
    }
}

fn is_in_attribute(byte: u8) -> bool
    ensures { result ≡ is_in_attribute byte }
{
    is_letter(byte) || byte.is_ascii_digit() || byte == b'-'
}

fn are_in_attribute(bytes: &[u8]) -> bool
    ensures { result ≡ every is_in_attribute bytes.now }
{
    for byte in bytes {
        if !is_in_attribute(*byte) {
            return false;
        }
    }
    true
}

/// Whether it is a letter with letters, digits and `-`.
fn is_plain_attribute(name: &str) -> bool
    ensures { result ≡ tags.is_plain_attribute name.now }
{
    match name.as_bytes() {
        [] => false,
        [first, rest @ ..] => is_letter(*first) && are_in_attribute(rest),
    }
}

fn is_reserved_attribute(name: &str) -> bool
    ensures { result ≡ is_among name.now (codes "key" ∷ codes "q:slot" ∷ []) }
{
    is_one_of(name, &["key", "q:slot"])
}

fn is_element_attribute(name: &str) -> bool
    ensures { result ≡ tags.is_element_attribute name.now }
{
    is_reserved_attribute(name) || is_listener(name) || is_plain_attribute(name)
}

fn has_colon(bytes: &[u8]) -> bool
    ensures { result ≡ has 58 bytes.now }
{
    for byte in bytes {
        if *byte == b':' {
            return true;
        }
    }
    false
}

fn fits_component(tag: &str, name: &str) -> bool
    ensures { result ≡ fits_component tag.now name.now }
{
    if tag == "Slot" {
        name == "name"
    } else {
        !has_colon(name.as_bytes()) || name == "q:slot"
    }
}

/// Whether the name is as the kind of the tag asks.
fn fits_tag(tag: &Tag, name: &str) -> bool
    ensures { result ≡ tags.fits_tag tag.now name.now }
{
    match tag {
        Tag::Element(_) => is_element_attribute(name),
        Tag::Component(tag) => fits_component(tag.as_str(), name),
        Tag::Fragment => true,
    }
}

fn is_slot(tag: &Tag) -> bool
    ensures { result ≡ tags.is_slot tag.now }
{
    match tag {
        Tag::Component(name) => name.as_str() == "Slot",
        _ => false,
    }
}

/// Whether the value has to be a text literal.
fn wants_text(tag: &Tag, name: &str) -> bool
    ensures { result ≡ tags.wants_text tag.now name.now }
{
    name == "q:slot" || (is_slot(tag) && name == "name")
}

/// Whether the attribute is one that no tag has.
fn is_refused_attribute(name: &str) -> bool
    ensures { result ≡ is_among name.now (codes "children" ∷ codes "ref" ∷ codes "dangerouslySetInnerHTML" ∷ []) }
{
    is_one_of(name, &["children", "ref", "dangerouslySetInnerHTML"])
}

/// Whether the attribute may be the tag's only one.
pub(crate) fn is_alone(tag: &Tag, name: &str, value: &Expr) -> bool
    ensures { result ≡ is_alone tag.now name.now value.now }
{
    fits_tag(tag, name)
        && !is_refused_attribute(name)
        && (!wants_text(tag, name) || is_text_literal(value))
}
