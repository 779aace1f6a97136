//! Which expressions stand without parentheses, and where.
#![tactic(auto, using(crate::proofs::Fronts::begins_same, crate::proofs::Fronts::begins_with, crate::proofs::Fronts::begins_after))]

ghost use Rattle.std.specs.Prelude.{◌≡◌, ◌||◌, ◌&&◌, not, codes, bytes_eq};
ghost use Rattle.qk_print.specs.Lists.{last_is_return};
ghost use Rattle.qk_print.specs.Shapes.{is_plain, is_record, is_markup, is_head, is_operand, is_return, is_less, is_statement, is_right_side};

use qk_ast::{AssignOp, Bin, Expr, Link};

/// Whether it is a name, a literal, a template, a list or a known call.
fn is_plain(x: &Expr) -> bool
    ensures { result ≡ is_plain x.now }
{
    match x {
        Expr::Undefined
        | Expr::Null
        | Expr::Bool(_)
        | Expr::Int(_)
        | Expr::Text(_)
        | Expr::Name(_) => true,
        Expr::List(_) | Expr::Template(_, _) | Expr::Known(_, _) => true,
        _ => false,
    }
}

pub(crate) fn is_record(x: &Expr) -> bool
    ensures { result ≡ is_record x.now }
{
    matches!(x, Expr::Record(_))
}

pub(crate) fn is_markup(x: &Expr) -> bool
    ensures { result ≡ is_markup x.now }
{
    matches!(x, Expr::Jsx(_))
}

/// Whether it stands without parentheses where a postfix form begins.
pub(crate) fn is_head(x: &Expr) -> bool
    ensures { result ≡ is_head x.now }
{
    match x {
        Expr::Name(name) => !begins_known_call(name.as_str()),
        _ => is_plain(x),
    }
}

fn begins_known_call(name: &str) -> bool
    ensures { result ≡ (bytes_eq name.now (codes "console") || (bytes_eq name.now (codes "Object") || bytes_eq name.now (codes "String"))) }
{
    name == "console" || name == "Object" || name == "String"
}

/// Whether it stands without parentheses as an operand, before that operator.
pub(crate) fn is_operand(next: Option<Bin>, x: &Expr) -> bool
    ensures { result ≡ is_operand next x.now }
{
    match x {
        Expr::Post(_, links) => goes_on(next, links.as_slice()),
        _ => is_plain(x),
    }
}

/// Whether that operator may follow these links.
fn goes_on(next: Option<Bin>, links: &[Link]) -> bool
    ensures { result ≡ not (is_less next && last_is_return links.now) }
{
    !(is_less(next) && last_is_return(links))
}

/// Whether it is `<` or `<=`, which behind the word `return` would begin JSX.
fn is_less(next: Option<Bin>) -> bool
    ensures { result ≡ is_less next }
{
    matches!(next, Some(Bin::Less | Bin::LessEq))
}

fn last_is_return(links: &[Link]) -> bool
    ensures { result ≡ last_is_return links.now }
{
    match links.last() {
        Some(link) => is_return(link),
        None => false,
    }
}

fn is_return(link: &Link) -> bool
    ensures { result ≡ is_return link.now }
{
    match link {
        Link::Prop(name) => name.as_str() == "return",
        _ => false,
    }
}

pub(crate) fn is_statement(x: &Expr) -> bool
    ensures { result ≡ is_statement x.now }
{
    !(is_record(x) || is_markup(x))
}

/// Whether it stands without parentheses behind an assignment's sign.
pub(crate) fn is_right_side(op: AssignOp, x: &Expr) -> bool
    ensures { result ≡ is_right_side op x.now }
{
    match op {
        AssignOp::Set => true,
        _ => !is_markup(x),
    }
}
