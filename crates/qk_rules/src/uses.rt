//! Which uses of a name break a rule: hooks, context ids, calls of dollar names, and names of the framework.

ghost use Rattle.std.specs.Prelude.{◌≡◌};
ghost use Rattle.std.specs.Option.{option_copied, option_map};
ghost use Rattle.qk_ast.specs.Placing as placing;
ghost use Rattle.qk_ast.specs.Scopes.{is_local};
ghost use Rattle.qk_ast.specs.Spots.{Not_called};
ghost use Rattle.qk_locals.specs.Meanings.{local_of};
ghost use Rattle.qk_rules.specs.Breaches.{breach, first_breach, takes_all, use_breaches, component_breaches};
ghost use Rattle.qk_rules.specs.Root_table.{kind_by};
ghost use Rattle.qk_rules.specs.Standings.{standing_of, called_of};

use crate::calls::{is_dollar_argument, is_tracking, takes_one};
use crate::items::RootKind;
use crate::listed::{
    is_context_hook, is_dollar_name, is_statement_hook, is_value_hook, makes_root, wants_one,
};
use crate::roots::Roots;
use crate::standing::{Called, Standing, name_in};
use qk_ast::{Expr, RuleKind};
use qk_locals::{Kind, Local, Scopes};
use qk_shared::Text;

/// Whether a scope declares the name.
fn is_local(name: &str, scopes: &Scopes) -> bool
    ensures { result ≡ is_local name.now scopes.now }
{
    scopes.meaning(name).is_some()
}

/// Whether a hook takes so many arguments.
fn is_count(hook: &str, count: usize) -> bool
    ensures { result ≡ placing.is_count hook.now count }
{
    if hook == "useSignal" {
        count <= 1
    } else if hook == "useContextProvider" {
        count == 2
    } else {
        count == 1
    }
}

fn first_name(arguments: &[Expr]) -> Option<&Text>
    ensures { option_copied result ≡ placing.first_name arguments.now }
{
    match arguments {
        [first, ..] => name_in(first),
        [] => None,
    }
}

/// Whether it is a name that means a context id of the root.
fn is_context_name(roots: &Roots, scopes: &Scopes, name: Option<&Text>) -> bool
    ensures { result ≡ placing.is_context_name (kind_by roots.now) scopes.now (option_copied name.entry) }
{
    match name {
        Some(name) => {
            let name = name.as_str();
            !is_local(name, scopes) && roots.kind(name) == RootKind::Context
        }
        None => false,
    }
}

/// Whether the hook takes these arguments.
fn takes_all(roots: &Roots, scopes: &Scopes, hook: &str, arguments: &[Expr]) -> bool
    ensures { result ≡ takes_all (kind_by roots.now) scopes.now hook.now arguments.now }
{
    is_count(hook, arguments.len())
        && (!is_context_hook(hook) || is_context_name(roots, scopes, first_name(arguments)))
}

/// Whether the hook's call is as it wants it.
fn takes(roots: &Roots, scopes: &Scopes, hook: &str, call: Called) -> bool
    ensures { result ≡ placing.takes (kind_by roots.now) scopes.now hook.now (called_of call.entry) }
{
    match call {
        Called::With {
            arguments,
            whole: true,
        } => takes_all(roots, scopes, hook, arguments),
        _ => false,
    }
}

fn is_hook_value(standing: Standing) -> bool
    ensures { result ≡ placing.is_hook_value (standing_of standing.entry) }
{
    matches!(standing, Standing::HookValue)
}

fn is_hook_statement(standing: Standing) -> bool
    ensures { result ≡ placing.is_hook_statement (standing_of standing.entry) }
{
    matches!(standing, Standing::HookStatement)
}

/// Whether a hook stands where none does, or has other arguments than it takes.
fn is_misplaced_hook(
    roots: &Roots,
    scopes: &Scopes,
    name: &str,
    call: Called,
    standing: Standing,
) -> bool
    ensures { result ≡ placing.is_misplaced_hook (kind_by roots.now) name.now (called_of call.entry) (standing_of standing.entry) scopes.now }
{
    (is_value_hook(name) && !(is_hook_value(standing) && takes(roots, scopes, name, call)))
        || (is_statement_hook(name)
            && !(is_hook_statement(standing) && takes(roots, scopes, name, call)))
}

fn is_first_of_context_hook(standing: Standing) -> bool
    ensures { result ≡ placing.is_context_argument Not_called (standing_of standing.entry) }
{
    match standing {
        Standing::Argument {
            callee,
            first: true,
        } => is_context_hook(callee.as_str()),
        _ => false,
    }
}

fn is_context_argument(call: Called, standing: Standing) -> bool
    ensures { result ≡ placing.is_context_argument (called_of call.entry) (standing_of standing.entry) }
{
    match call {
        Called::NotCalled => is_first_of_context_hook(standing),
        Called::With { .. } => false,
    }
}

/// Whether a context id's name stands elsewhere than as the first argument of a context hook.
fn is_misplaced_context(roots: &Roots, name: &str, call: Called, standing: Standing) -> bool
    ensures { result ≡ placing.is_misplaced_context (kind_by roots.now) name.now (called_of call.entry) (standing_of standing.entry) }
{
    roots.kind(name) == RootKind::Context && !is_context_argument(call, standing)
}

/// Whether a dollar name is called with something other than one arrow of its parameters.
fn is_dollar_call_refused(name: &str, call: Called) -> bool
    ensures { result ≡ placing.is_dollar_call_refused name.now (called_of call.entry) }
{
    match call {
        Called::With { arguments, .. } => {
            is_dollar_name(name) && !is_dollar_argument(name, arguments)
        }
        Called::NotCalled => false,
    }
}

fn is_root_value(call: Called, standing: Standing) -> bool
    ensures { result ≡ placing.is_root_value (called_of call.entry) (standing_of standing.entry) }
{
    matches!(call, Called::With { whole: true, .. }) && matches!(standing, Standing::RootValue)
}

/// Whether another name of the framework is used otherwise than it may be.
fn is_misused(name: &str, call: Called, standing: Standing) -> bool
    ensures { result ≡ placing.is_misused name.now (called_of call.entry) (standing_of standing.entry) }
{
    (makes_root(name) && !is_root_value(call, standing))
        || (wants_one(name) && !takes_one(call))
        || name == "Slot"
}

/// The first rule that a use of a name of the root breaks.
fn root_use(
    roots: &Roots,
    scopes: &Scopes,
    name: &str,
    call: Called,
    standing: Standing,
) -> Option<RuleKind>
    ensures { option_map (breach name.now) result ≡ first_breach (placing.root_use_breaches (kind_by roots.now) name.now (called_of call.entry) (standing_of standing.entry) scopes.now) }
{
    if is_misplaced_hook(roots, scopes, name, call, standing)
        || is_misplaced_context(roots, name, call, standing)
    {
        return Some(RuleKind::HookPlace);
    }
    if is_dollar_call_refused(name, call) {
        return Some(RuleKind::DollarArgument);
    }
    if is_misused(name, call, standing) {
        return Some(RuleKind::RootValue);
    }
    if roots.kind(name) == RootKind::Component {
        return Some(RuleKind::NotComponent);
    }
    None
}

/// The first rule that a use of a local breaks.
fn local_use(local: Local, name: &str, call: Called) -> Option<RuleKind>
    ensures { option_map (breach name.now) result ≡ first_breach (placing.local_use_breaches name.now (called_of call.entry) (local_of local)) }
{
    match local.kind {
        Kind::Tracker => {
            if local.in_arrow || !is_tracking(call) {
                Some(RuleKind::HookPlace)
            } else {
                None
            }
        }
        Kind::Constant | Kind::Variable => None,
    }
}

/// The first rule that a use of a name breaks, other than as a tag.
pub(crate) fn use_breach(
    roots: &Roots,
    scopes: &Scopes,
    name: &str,
    call: Called,
    standing: Standing,
) -> Option<RuleKind>
    ensures { option_map (breach name.now) result ≡ first_breach (use_breaches (kind_by roots.now) name.now (called_of call.entry) (standing_of standing.entry) scopes.now) }
{
    match scopes.meaning(name) {
        Some(local) => local_use(local, name, call),
        None => root_use(roots, scopes, name, call, standing),
    }
}

/// The first rule that a capital tag breaks.
fn capital_breach(roots: &Roots, scopes: &Scopes, name: &str) -> Option<RuleKind>
    ensures { option_map (breach name.now) result ≡ first_breach (placing.capital_breaches (kind_by roots.now) name.now scopes.now) }
{
    if is_local(name, scopes) {
        return Some(RuleKind::NotComponent);
    }
    match roots.kind(name) {
        RootKind::Component => None,
        RootKind::Context => Some(RuleKind::HookPlace),
        RootKind::Other => Some(RuleKind::NotComponent),
    }
}

/// The first rule that the tag of a component breaks.
pub(crate) fn component_breach(
    roots: &Roots,
    scopes: &Scopes,
    name: &str,
    children: bool,
) -> Option<RuleKind>
    ensures { option_map (breach name.now) result ≡ first_breach (component_breaches (kind_by roots.now) name.now children scopes.now) }
{
    if name == "Slot" {
        return if children {
            Some(RuleKind::TagRefused)
        } else {
            None
        };
    }
    capital_breach(roots, scopes, name)
}
