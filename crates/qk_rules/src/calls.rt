//! What calls are given.

ghost use Rattle.std.specs.Prelude.{◌≡◌};
ghost use Rattle.qk_ast.specs.Placing as placing;
ghost use Rattle.qk_ast.specs.Scopes.{is_track};
ghost use Rattle.qk_rules.specs.Given_calls.{arrow_given, are_given, is_value_of, tracked, are_tracked, is_one};
ghost use Rattle.qk_rules.specs.Standings.{called_of};

use crate::standing::Called;
use qk_ast::{Arrow, Body, Expr, Pattern};

/// Whether the parameters are those of a task that has one: `{ track }`.
fn is_track(params: &[Pattern]) -> bool
    ensures { result ≡ is_track params.now }
{
    match params {
        [Pattern::Fields(names)] => match names.as_slice() {
            [name] => name.as_str() == "track",
            _ => false,
        },
        _ => false,
    }
}

/// Whether an arrow that is given to a dollar name has parameters as that wants them.
fn has_parameters(callee: &str, params: &[Pattern]) -> bool
    ensures { result ≡ placing.has_parameters callee.now params.now }
{
    if callee == "component$" {
        params.len() <= 1
    } else if callee == "useTask$" {
        params.is_empty() || is_track(params)
    } else if callee == "useComputed$" {
        params.is_empty()
    } else {
        true
    }
}

/// Whether the argument of a dollar name is as that wants it.
fn is_arrow_given(callee: &str, argument: &Expr) -> bool
    ensures { result ≡ arrow_given callee.now argument.now }
{
    match argument {
        Expr::Arrow(arrow) => has_parameters(callee, arrow.get().params.as_slice()),
        _ => false,
    }
}

fn are_given(callee: &str, arguments: &[Expr]) -> bool
    ensures { result ≡ are_given callee.now arguments.now }
{
    match arguments {
        [argument] => is_arrow_given(callee, argument),
        _ => false,
    }
}

/// Whether the arguments of a dollar name are one arrow, with parameters as that wants them.
pub(crate) fn is_dollar_argument(callee: &str, arguments: &[Expr]) -> bool
    ensures { result ≡ placing.is_dollar_argument callee.now arguments.now }
{
    are_given(callee, arguments)
}

/// Whether it is `() => e`.
fn is_value_of(arrow: &Arrow) -> bool
    ensures { result ≡ is_value_of arrow.now }
{
    arrow.params.is_empty() && matches!(arrow.body, Body::Value(_))
}

fn is_tracked(argument: &Expr) -> bool
    ensures { result ≡ tracked argument.now }
{
    match argument {
        Expr::Arrow(arrow) => is_value_of(arrow.get()),
        _ => false,
    }
}

fn are_tracked(arguments: &[Expr]) -> bool
    ensures { result ≡ are_tracked arguments.now }
{
    match arguments {
        [argument] => is_tracked(argument),
        _ => false,
    }
}

/// Whether it is a call with one argument, `() => e`.
pub(crate) fn is_tracking(call: Called) -> bool
    ensures { result ≡ placing.is_tracking (called_of call.entry) }
{
    match call {
        Called::With { arguments, .. } => are_tracked(arguments),
        Called::NotCalled => false,
    }
}

fn is_one(arguments: &[Expr]) -> bool
    ensures { result ≡ is_one arguments.now }
{
    matches!(arguments, [_])
}

/// Whether it is a call with one argument.
pub(crate) fn takes_one(call: Called) -> bool
    ensures { result ≡ placing.takes_one (called_of call.entry) }
{
    match call {
        Called::With { arguments, .. } => is_one(arguments),
        Called::NotCalled => false,
    }
}
