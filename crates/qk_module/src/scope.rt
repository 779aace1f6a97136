//! The statement of a lexical scope, as a built module writes it.

ghost use Rattle.std.specs.Prelude.{◌≡◌, IfOk};
ghost use Rattle.qk_reading.specs.Input as input;
ghost use Rattle.qk_reading.specs.Parts as spec;
ghost use Rattle.qk_token.specs.Reads.{Reads};
ghost use Rattle.qk_module.specs.ScopeParts.{scope_names, scope_word, scope_end};

use qk_ast::{Expr, Link, Pattern, Stmt};
use qk_grammar::{enter, name};
use qk_shared::{Builder, List, Shared, Text};
use qk_token::{Fault, Tokens};
use std::alloc::{AllocError, Global};

/// A comma and a name behind it, where a comma comes.
#[tactic(auto, unfolding(qk_reading::specs::Parts::comma_name))]
fn comma_name(alloc: Global, tokens: &mut Tokens<'_, '_>) -> Result<Option<Text>, Fault>
    ensures { Reads (spec.comma_name tokens.old) result tokens.new }
{
    if tokens.eat(b",") {
        Ok(Some(name(alloc, tokens)?))
    } else {
        Ok(None)
    }
}

/// These names, and those that follow with a comma before each.
#[tactic(auto, unfolding(qk_reading::specs::Input::many_from))]
fn more_names(
    alloc: Global,
    tokens: &mut Tokens<'_, '_>,
    mut found: Builder<Text>,
) -> Result<List<Text>, Fault>
    ensures { Reads (input.many_from spec.comma_name (input.left tokens.old) found tokens.old) result tokens.new }
{
    for _turn in 0..tokens.left() {
        match comma_name(alloc, tokens)? {
            Some(name) => found.push(name)?,
            None => return Ok(found.into_list(alloc)?),
        }
    }
    Ok(found.into_list(alloc)?)
}

/// useLexicalScope()
fn scope_call(alloc: Global) -> Result<Expr, AllocError>
    ensures { IfOk result (λ x. x ≡ spec.scope_call) }
{
    let called = Shared::new(alloc, Expr::Name(Text::from_str(alloc, "useLexicalScope")?))?;
    let mut links = Builder::new(alloc);
    links.push(Link::Call(Builder::new(alloc).into_list(alloc)?))?;
    Ok(Expr::Post(called, links.into_list(alloc)?))
}

/// A scope's names, behind the `[` that comes.
#[tactic(auto, unfolding(crate::specs::ScopeParts::scope_names), using(crate::proofs::Many::many_behind))]
fn scope_names(alloc: Global, tokens: &mut Tokens<'_, '_>, room: usize) -> Result<List<Text>, Fault>
    ensures { Reads (scope_names room tokens.old) result tokens.new }
{
    tokens.take();
    enter(tokens, room)?;
    let mut names = Builder::new(alloc);
    names.push(name(alloc, tokens)?)?;
    more_names(alloc, tokens, names)
}

/// The name of what a scope calls.
#[tactic(auto, unfolding(crate::specs::ScopeParts::scope_word))]
fn scope_word(tokens: &mut Tokens<'_, '_>) -> Result<(), Fault>
    ensures { Reads (scope_word tokens.old) result tokens.new }
{
    tokens.expect_name(b"useLexicalScope")
}

/// What follows a scope's names.
#[tactic(auto, unfolding(crate::specs::ScopeParts::scope_end))]
fn scope_end(tokens: &mut Tokens<'_, '_>) -> Result<(), Fault>
    ensures { Reads (scope_end tokens.old) result tokens.new }
{
    tokens.expect(b"]")?;
    tokens.expect(b"=")?;
    scope_word(tokens)?;
    tokens.expect(b"(")?;
    tokens.expect(b")")?;
    tokens.expect(b";")
}

/// [a, b] = useLexicalScope();
#[tactic(auto, using(crate::proofs::TwoParts::scope_parts))]
pub fn scope(alloc: Global, tokens: &mut Tokens<'_, '_>, room: usize) -> Result<Stmt, Fault>
    ensures { Reads (spec.scope room tokens.old) result tokens.new }
{
    let names = scope_names(alloc, tokens, room)?;
    scope_end(tokens)?;
    Ok(Stmt::Const(Pattern::Scope(names), scope_call(alloc)?))
}
