//! The items of roots: what they may be, and of which kind each is.

ghost use Rattle.std.specs.Prelude.{◌≡◌, true, Some};
ghost use Rattle.std.specs.Option.{option_copied, option_map};
ghost use Rattle.qk_ast.specs.Spots.{With};
ghost use Rattle.qk_ast.specs.Tags as tags;
ghost use Rattle.qk_ast.specs.Placing as placing;
ghost use Rattle.qk_rules.specs.Breaches.{breach, first_breach, is_negative, all_data, field_data};
ghost use Rattle.qk_rules.specs.Kinds_of_root.{root_kind_of};
ghost use Rattle.qk_rules.specs.Standings.{called_of};

use crate::standing::{Called, call_by, name_in};
use qk_ast::{Expr, Field, RuleKind, Un};
use qk_shared::Text;

/// What a root has under a name: a component, a context id, or something else.
#[derive(Clone, Copy, PartialEq, Eq)]
pub(crate) enum RootKind {
    Component,
    Context,
    Other,
}

pub(crate) fn is_text_literal(x: &Expr) -> bool
    ensures { result ≡ tags.is_text_literal x.now }
{
    matches!(x, Expr::Text(_))
}

fn is_one_text(arguments: &[Expr]) -> bool
    ensures { result ≡ placing.is_one_text arguments.now }
{
    match arguments {
        [argument] => is_text_literal(argument),
        _ => false,
    }
}

/// The kind of what a call of that name makes.
fn made_by(name: &str, arguments: &[Expr]) -> RootKind
    ensures { root_kind_of result ≡ placing.called_kind (Some name.now) (With arguments.now true) }
{
    if name == "component$" {
        RootKind::Component
    } else if name == "createContextId" && is_one_text(arguments) {
        RootKind::Context
    } else {
        RootKind::Other
    }
}

/// The kind of what is called so, where a name is called.
fn called_kind(name: Option<&Text>, call: Called) -> RootKind
    ensures { root_kind_of result ≡ placing.called_kind (option_copied name.entry) (called_of call.entry) }
{
    let Some(name) = name else {
        return RootKind::Other;
    };
    match call {
        Called::With {
            arguments,
            whole: true,
        } => made_by(name.as_str(), arguments),
        _ => RootKind::Other,
    }
}

/// Of which kind an item with this initialiser is.
pub(crate) fn kind_of_value(x: &Expr) -> RootKind
    ensures { root_kind_of result ≡ placing.kind_of_value x.now }
{
    match x {
        Expr::Post(head, links) => called_kind(name_in(head.get()), call_by(links.as_slice())),
        _ => RootKind::Other,
    }
}

/// Whether it is a number behind a minus.
fn is_negative(op: Un, x: &Expr) -> bool
    ensures { result ≡ is_negative op x.now }
{
    match op {
        Un::Neg => matches!(x, Expr::Int(_)),
        Un::Not => false,
    }
}

#[cycle(data)]
fn is_data(x: &Expr) -> bool
    ensures { result ≡ placing.is_data x.now }
{
    match x {
        Expr::Undefined | Expr::Null | Expr::Bool(_) | Expr::Int(_) | Expr::Text(_) => true,
        Expr::Unary(op, value) => is_negative(*op, value.get()),
        Expr::List(items) => are_data(items.as_slice()),
        Expr::Record(fields) => are_data_fields(fields.as_slice()),
        _ => false,
    }
}

#[cycle(data)]
fn are_data(xs: &[Expr]) -> bool
    ensures { result ≡ all_data xs.now }
{
    for x in xs {
        if !is_data(x) {
            return false;
        }
    }
    true
}

#[cycle(data)]
fn are_data_fields(fields: &[Field]) -> bool
    ensures { result ≡ field_data fields.now }
{
    for field in fields {
        if !is_data(&field.value) {
            return false;
        }
    }
    true
}

fn is_arrow(x: &Expr) -> bool
    ensures { result ≡ placing.is_arrow x.now }
{
    matches!(x, Expr::Arrow(_))
}

/// Whether an item may have this initialiser.
fn is_item(x: &Expr) -> bool
    ensures { result ≡ placing.is_item x.now }
{
    kind_of_value(x) != RootKind::Other || is_arrow(x) || is_data(x)
}

/// Whether the name is that of the component which is shown.
fn is_app(file: &str, name: &str) -> bool
    ensures { result ≡ placing.is_app file.now name.now }
{
    file == "root" && name == "App"
}

/// The first rule that an item of a module of this name breaks.
pub(crate) fn item_breach(file: &str, name: &str, init: &Expr) -> Option<RuleKind>
    ensures { option_map (breach name.now) result ≡ first_breach (placing.item_breaches file.now name.now init.now) }
{
    if is_app(file, name) && kind_of_value(init) != RootKind::Component {
        return Some(RuleKind::NotComponent);
    }
    if !is_item(init) {
        return Some(RuleKind::RootValue);
    }
    None
}
