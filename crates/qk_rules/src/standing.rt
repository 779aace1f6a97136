//! Where an expression stands, and whether a name is what is called there.

ghost use Rattle.std.specs.Prelude.{◌≡◌};
ghost use Rattle.std.specs.Option.{option_copied};
ghost use Rattle.qk_ast.specs.Mentions.{name_in};
ghost use Rattle.qk_rules.specs.Standings.{standing_of, called_of, called_by};

use qk_ast::{Expr, Link, Pattern, Stmt};
use qk_shared::Text;

/// Where an expression stands.
#[derive(Clone, Copy)]
pub(crate) enum Standing<'a> {
    Anywhere,
    /// It is the whole initialiser of an item.
    RootValue,
    /// It is the whole initialiser of a `const NAME` of the block of a component's arrow, where hooks may stand.
    HookValue,
    /// It is a whole statement there.
    HookStatement,
    /// It is an argument of a call of this name.
    Argument { callee: &'a Text, first: bool },
}

/// Whether a name is what is called: with these arguments, and whether the call is the whole expression.
#[derive(Clone, Copy)]
pub(crate) enum Called<'a> {
    NotCalled,
    With { arguments: &'a [Expr], whole: bool },
}

/// The name that an expression is.
pub(crate) fn name_in(x: &Expr) -> Option<&Text>
    ensures { option_copied result ≡ name_in x.now }
{
    match x {
        Expr::Name(name) => Some(name),
        _ => None,
    }
}

/// Whether the name before these links is called by the first of them.
pub(crate) fn call_by(links: &[Link]) -> Called<'_>
    ensures { called_of result ≡ called_by links.now }
{
    let Some((first, later)) = links.split_first() else {
        return Called::NotCalled;
    };
    match first {
        Link::Call(arguments) => Called::With {
            arguments: arguments.as_slice(),
            whole: later.is_empty(),
        },
        _ => Called::NotCalled,
    }
}
