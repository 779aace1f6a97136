//! Where hooks may stand, and what stands where.

ghost use Rattle.std.specs.Prelude.{◌≡◌, ◌&&◌};
ghost use Rattle.std.specs.Option.{option_copied};
ghost use Rattle.qk_ast.specs.Spots as spots;
ghost use Rattle.qk_ast.specs.Spots.{statement_hooks, is_named};
ghost use Rattle.qk_locals.specs.Meanings.{mark_of};
ghost use Rattle.qk_rules.specs.Standings.{standing_of, called_of};

use crate::listed::is_statement_hook;
use crate::standing::{Called, Standing, call_by, name_in};
use qk_ast::{Expr, Pattern, Stmt};
use qk_locals::Mark;
use qk_shared::Text;

/// The mark of an arrow that stands so.
pub(crate) fn mark_there(standing: Standing) -> Mark
    ensures { mark_of result ≡ spots.standing_mark (standing_of standing.entry) }
{
    match standing {
        Standing::Argument { callee, first: _ } => Mark::of_name(callee.as_str()),
        _ => Mark::Unmarked,
    }
}

/// Whether an arrow that stands so is a component's.
pub(crate) fn is_component_arrow(standing: Standing) -> bool
    ensures { result ≡ spots.is_component_arrow (standing_of standing.entry) }
{
    match standing {
        Standing::Argument { callee, first: _ } => callee.as_str() == "component$",
        _ => false,
    }
}

/// How an argument of a call of that stands, where that is a name.
pub(crate) fn argument_of(callee: Option<&Text>, first: bool) -> Standing<'_>
    ensures { standing_of result ≡ spots.argument_of (option_copied callee.entry) first }
{
    match callee {
        Some(callee) => Standing::Argument { callee, first },
        None => Standing::Anywhere,
    }
}

/// How a whole statement stands, by whether hooks may.
pub(crate) fn where_hooks(hooks: bool) -> Standing<'static>
    ensures { standing_of result ≡ spots.where_hooks spots.Hook_statement hooks }
{
    if hooks {
        Standing::HookStatement
    } else {
        Standing::Anywhere
    }
}

/// How the initialiser of a constant stands.
pub(crate) fn const_standing(pattern: &Pattern, hooks: bool) -> Standing<'static>
    ensures { standing_of result ≡ spots.const_standing pattern.now hooks }
{
    match pattern {
        Pattern::Name(_) if hooks => Standing::HookValue,
        _ => Standing::Anywhere,
    }
}

/// Whether hooks may stand behind the statement, by whether they may before it.
pub(crate) fn hooks_behind(hooks: bool, statement: &Stmt) -> bool
    ensures { result ≡ (hooks && spots.lets_hooks_follow statement.now) }
{
    hooks && lets_hooks_follow(statement)
}

/// Whether hooks may stand behind the statement where they may before it.
fn lets_hooks_follow(statement: &Stmt) -> bool
    ensures { result ≡ spots.lets_hooks_follow statement.now }
{
    match statement {
        Stmt::Const(_, _) => true,
        Stmt::Do(x) => is_hook_call(x),
        _ => false,
    }
}

/// Whether it is a hook that is a whole statement.
fn is_hook_call(x: &Expr) -> bool
    ensures { result ≡ spots.is_hook_call x.now }
{
    match x {
        Expr::Post(head, links) => is_hook(name_in(head.get()), call_by(links.as_slice())),
        _ => false,
    }
}

/// Whether such a hook is called, and the call is the whole expression.
fn is_hook(name: Option<&Text>, call: Called) -> bool
    ensures { result ≡ (is_named statement_hooks (option_copied name.entry) && spots.is_whole_call (called_of call.entry)) }
{
    names_hook(name) && is_whole_call(call)
}

fn names_hook(name: Option<&Text>) -> bool
    ensures { result ≡ is_named statement_hooks (option_copied name.entry) }
{
    match name {
        Some(name) => is_statement_hook(name.as_str()),
        None => false,
    }
}

fn is_whole_call(call: Called) -> bool
    ensures { result ≡ spots.is_whole_call (called_of call.entry) }
{
    match call {
        Called::NotCalled => false,
        Called::With {
            arguments: _,
            whole,
        } => whole,
    }
}
