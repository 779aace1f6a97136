//! The names of elements.

ghost use Rattle.std.specs.Prelude.{◌≡◌, chars, codes, ◌||◌, ◌==◌, IfOk};
ghost use Rattle.qk_ast.specs.Characters.{same, every, is_letter, is_digit, is_small_letter, begins_with};
ghost use Rattle.qk_ast.specs.Tokens as definition;
ghost use Rattle.qk_ast.specs.Tree.{tag_tree};
ghost use Rattle.qk_reading.specs.Input as input;
ghost use Rattle.qk_token.specs.Reads.{ReadsAs};

use qk_ast::Tag;
use qk_token::{Fault, Token, Tokens, name_text, split_first};
use std::alloc::{AllocError, Global};

/// Whether a tag's name may have the character behind its first one.
fn continues_tag(c: char) -> bool
    ensures { result ≡ (is_letter c || is_digit c || (c == 45)) }
{
    c.is_ascii_alphabetic() || c.is_ascii_digit() || c == '-'
}

/// Whether a tag's name may go on so behind its first character.
fn all_continue(text: &str) -> bool
    ensures { result ≡ every (λ c. is_letter c || is_digit c || (c == 45)) (chars text.now) }
{
    let mut rest = text;
    while let Some((c, more)) = split_first(rest) {
        if !continues_tag(c) {
            return false;
        }
        rest = more;
    }
    true
}

/// Whether a tag may have the name: a letter, and then letters, digits and `-`.
fn is_tag_name(name: &str) -> bool
    ensures { result ≡ definition.is_tag_name (chars name.now) }
{
    match split_first(name) {
        Some((first, more)) => first.is_ascii_alphabetic() && all_continue(more),
        None => false,
    }
}

/// Whether both names have the same characters.
fn is_same(name: &str, other: &str) -> bool
    ensures { result ≡ same (chars name.now) (chars other.now) }
{
    name == other
}

/// Takes a tag's name.
#[tactic(auto, unfolding(qk_reading::specs::Input::name_that))]
pub fn tag_name<'t>(tokens: &mut Tokens<'_, 't>) -> Result<&'t str, Fault>
    ensures { ReadsAs (λ s. chars s.now) (input.name_that definition.is_tag_name tokens.old) result tokens.new }
{
    match tokens.peek() {
        Some(Token::Name(name)) => {
            if !is_tag_name(name) {
                return Err(tokens.refuse());
            }
            tokens.take();
            Ok(name)
        }
        _ => Err(tokens.refuse()),
    }
}

/// Takes the same name once more.
#[tactic(auto, unfolding(qk_reading::specs::Input::name_that))]
pub fn same_name<'t>(tokens: &mut Tokens<'_, 't>, tag: &str) -> Result<&'t str, Fault>
    ensures { ReadsAs (λ s. chars s.now) (input.name_that (same (chars tag.now)) tokens.old) result tokens.new }
{
    match tokens.peek() {
        Some(Token::Name(name)) => {
            if !is_same(tag, name) {
                return Err(tokens.refuse());
            }
            tokens.take();
            Ok(name)
        }
        _ => Err(tokens.refuse()),
    }
}

/// Whether a small letter begins the name.
fn begins_small(name: &str) -> bool
    ensures { result ≡ begins_with is_small_letter (chars name.now) }
{
    match split_first(name) {
        Some((first, _)) => first.is_ascii_lowercase(),
        None => false,
    }
}

/// A small letter begins an element's name, a capital a component's.
pub fn tag_of(alloc: Global, name: &str) -> Result<Tag, AllocError>
    ensures { IfOk result (λ t. t ≡ tag_tree (chars name.now)) }
{
    let text = name_text(alloc, name)?;
    if begins_small(name) {
        Ok(Tag::Element(text))
    } else {
        Ok(Tag::Component(text))
    }
}
