//! The texts that tokens stand for.

ghost use Rattle.std.specs.Prelude.{◌≡◌, chars, IfOk, IfErr};
ghost use Rattle.qk_ast.specs.Characters.{every};
ghost use Rattle.qk_ast.specs.JsxText as definition;
ghost use Rattle.qk_ast.specs.Tree.{bytes, value};
ghost use Rattle.qk_token.specs.Pieces.{pieces_of, stands_alone};
ghost use Rattle.qk_token.specs.declared.fault.Fault.TheVariants.{Memory};

use crate::escapes::first_character;
use crate::fault::Fault;
use crate::front::split_first;
use qk_shared::Text;
use std::alloc::{AllocError, Global};

/// The text of a name or of a word.
#[tactic(auto, using(crate::proofs::Words::name_bytes))]
pub fn name_text(alloc: Global, name: &str) -> Result<Text, AllocError>
    ensures { IfOk result (λ t. t ≡ bytes (chars name.now)) }
{
    Text::from_str(alloc, name)
}

/// The text that an attribute's text stands for. It fails only for want of memory.
pub fn attribute_text(alloc: Global, inside: &str) -> Result<Text, Fault>
    ensures text { IfOk result (λ t. t ≡ bytes (definition.decoded (chars inside.now))) }
    ensures memory { IfErr result (λ e. e ≡ Memory) }
{
    match qk_lex::attribute_text(alloc, inside) {
        Ok(text) => Ok(Text::from_string(alloc, text)?),
        Err(_) => Err(Fault::Memory),
    }
}

/// The text that a run of text between tags stands for. It fails only for want of memory.
pub fn jsx_text(alloc: Global, text: &str) -> Result<Text, Fault>
    ensures text { IfOk result (λ t. t ≡ bytes (definition.jsx_text (chars text.now))) }
    ensures memory { IfErr result (λ e. e ≡ Memory) }
{
    match qk_lex::jsx_text(alloc, text) {
        Ok(text) => Ok(Text::from_string(alloc, text)?),
        Err(_) => Err(Fault::Memory),
    }
}

/// Whether each character of a text stands for itself.
fn is_plain(text: &str) -> bool
    ensures { result ≡ every stands_alone (chars text.now) }
{
    let mut rest = text;
    while let Some((c, more)) = split_first(rest) {
        if c == '\\' || c == '\r' {
            return false;
        }
        rest = more;
    }
    true
}

/// The text that a text or a template's part stands for, of which that stands inside.
pub fn written_text(alloc: Global, inside: &str) -> Result<Text, AllocError>
    ensures { IfOk result (λ t. t ≡ value (pieces_of (chars inside.now))) }
{
    if is_plain(inside) {
        return name_text(alloc, inside);
    }
    let mut text = String::new(alloc);
    let mut rest = inside;
    while let Some((c, more)) = split_first(rest) {
        let (character, next) = first_character(c, more);
        text.push(character)?;
        rest = next;
    }
    Text::from_string(alloc, text)
}
