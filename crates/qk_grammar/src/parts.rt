//! Names, patterns and an arrow's parameters.

ghost use Rattle.std.specs.Prelude.{◌≡◌, false, codes};
ghost use Rattle.qk_reading.specs.Input as input;
ghost use Rattle.qk_reading.specs.Parts as spec;
ghost use Rattle.qk_token.specs.Reads.{Reads, ReadsAs};
ghost use Rattle.qk_grammar.specs.Seen.{arrow_head_of, items_of, name_read};

use crate::lists::enter;
use qk_ast::Pattern;
use qk_shared::{Builder, List, Text};
use qk_token::{Fault, Tokens, name_text};
use std::alloc::Global;

/// A name, as the tree keeps it.
pub fn name(alloc: Global, tokens: &mut Tokens<'_, '_>) -> Result<Text, Fault>
    ensures { Reads (name_read tokens.old) result tokens.new }
{
    let name = tokens.name()?;
    Ok(name_text(alloc, name)?)
}

/// Names between commas up to `}`, which stays.
#[tactic(auto, unfolding(qk_reading::specs::Input::separated, qk_reading::specs::Input::separated_from))]
fn separated_names(alloc: Global, tokens: &mut Tokens<'_, '_>) -> Result<Builder<Text>, Fault>
    ensures { Reads (items_of (input.separated (input.Sign (codes "}")) name_read) tokens.old) result tokens.new }
{
    let mut found = Builder::new(alloc);
    for _turn in 0..tokens.left() {
        if tokens.sees(b"}") {
            return Ok(found);
        }
        found.push(name(alloc, tokens)?)?;
        if !tokens.eat(b",") {
            return Ok(found);
        }
    }
    Err(tokens.refuse())
}

/// At least one name, up to `}`.
#[tactic(auto, unfolding(qk_reading::specs::Parts::names))]
pub fn names(alloc: Global, tokens: &mut Tokens<'_, '_>) -> Result<List<Text>, Fault>
    ensures { Reads (spec.names tokens.old) result tokens.new }
{
    if tokens.sees(b"}") {
        return Err(tokens.refuse());
    }
    Ok(separated_names(alloc, tokens)?.into_list(alloc)?)
}

/// A name, or names in braces.
#[tactic(auto, unfolding(qk_reading::specs::Parts::pattern))]
pub fn pattern(alloc: Global, tokens: &mut Tokens<'_, '_>, room: usize) -> Result<Pattern, Fault>
    ensures { Reads (spec.pattern room tokens.old) result tokens.new }
{
    if !tokens.eat(b"{") {
        return Ok(Pattern::Name(name(alloc, tokens)?));
    }
    enter(tokens, room)?;
    let names = names(alloc, tokens)?;
    tokens.expect(b"}")?;
    Ok(Pattern::Fields(names))
}

/// Patterns between commas up to `)`, which stays.
#[tactic(auto, unfolding(qk_reading::specs::Input::separated, qk_reading::specs::Input::separated_from))]
fn separated_patterns(
    alloc: Global,
    tokens: &mut Tokens<'_, '_>,
    room: usize,
) -> Result<Builder<Pattern>, Fault>
    ensures { Reads (items_of (input.separated (input.Sign (codes ")")) (spec.pattern room)) tokens.old) result tokens.new }
{
    let mut found = Builder::new(alloc);
    for _turn in 0..tokens.left() {
        if tokens.sees(b")") {
            return Ok(found);
        }
        found.push(pattern(alloc, tokens, room)?)?;
        if !tokens.eat(b",") {
            return Ok(found);
        }
    }
    Err(tokens.refuse())
}

/// One parameter, a name alone.
fn one_parameter(alloc: Global, tokens: &mut Tokens<'_, '_>) -> Result<List<Pattern>, Fault>
    ensures { Reads (spec.params_by 0 false tokens.old) result tokens.new }
{
    let mut found = Builder::new(alloc);
    found.push(Pattern::Name(name(alloc, tokens)?))?;
    Ok(found.into_list(alloc)?)
}

/// An arrow's parameters: a name alone, or patterns in brackets.
#[tactic(auto, unfolding(qk_reading::specs::Parts::params))]
pub fn params(
    alloc: Global,
    tokens: &mut Tokens<'_, '_>,
    room: usize,
) -> Result<List<Pattern>, Fault>
    ensures { Reads (spec.params room tokens.old) result tokens.new }
{
    if !tokens.eat(b"(") {
        return one_parameter(alloc, tokens);
    }
    enter(tokens, room)?;
    let found = separated_patterns(alloc, tokens, room.saturating_sub(1))?;
    tokens.expect(b")")?;
    Ok(found.into_list(alloc)?)
}

/// An arrow up to its `=>`.
#[derive(Drop)]
pub struct ArrowHead {
    pub params: List<Pattern>,
    /// How many arrows of the module begin before it.
    pub place: u32,
}

/// The parameters of an arrow and its `=>`.
#[tactic(auto, unfolding(qk_reading::specs::Parts::arrow_head))]
pub fn arrow_head(
    alloc: Global,
    tokens: &mut Tokens<'_, '_>,
    room: usize,
) -> Result<ArrowHead, Fault>
    ensures { ReadsAs arrow_head_of (spec.arrow_head room tokens.old) result tokens.new }
{
    let params = params(alloc, tokens, room)?;
    let place = tokens.number()?;
    Ok(ArrowHead { params, place })
}
