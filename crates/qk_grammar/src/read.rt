//! What is read.

use qk_ast::{Expr, Link};
use qk_shared::Builder;
use qk_token::Kind;

/// An expression, how tightly it binds, and whether it is a target.
#[derive(Drop)]
pub struct Read {
    pub tree: Expr,
    pub kind: Kind,
}

/// An expression with the postfix forms after it so far.
#[derive(Drop)]
pub struct Head {
    pub tree: Expr,
    pub kind: Kind,
    pub links: Builder<Link>,
}

/// What may be read one level further in: an expression, an operand of a unary operator, an element behind its `<` or `<>`.
#[derive(Clone, Copy, Debug, PartialEq, Eq)]
pub enum Inner {
    Whole,
    Tight,
    Tagged,
    Untagged,
}

/// A block behind its `{`, a part that is no block, or what follows `else`; in a loop or not.
#[derive(Clone, Copy, Debug, PartialEq, Eq)]
pub enum Group {
    Braced(bool),
    Single(bool),
    Otherwise(bool),
}
