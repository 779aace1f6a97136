//! Nodes of the syntax tree, on loan, and their children.

ghost use Rattle.std.specs.Prelude.{◌≡◌, ◌∷◌, ◌++◌, [], IfSome, IfNone};
ghost use Rattle.std.specs.Iterator.{YieldsFirstBy, item_count};
ghost use Rattle.qk_ast.specs.Arrows.{Unmarked, call_mark};
ghost use Rattle.qk_ast.specs.declared.Body.{out-Body};
ghost use Rattle.qk_ast.specs.declared.Expr.{out-Expr};
ghost use Rattle.qk_ast.specs.declared.Jsx.{out-Jsx};
ghost use Rattle.qk_ast.specs.declared.Link.{out-Link};
ghost use Rattle.qk_ast.specs.declared.Stmt.{out-Stmt};
ghost use Rattle.qk_locals.specs.Meanings.{mark_of};
ghost use Rattle.qk_node.specs.Nodes.{plain, values, attributes, links, returned, of_body, of_expr, of_link, of_stmt, children};
ghost use Rattle.qk_node.specs.Growing.{within, grown};
ghost use Rattle.qk_node.specs.Borrowed.{node_of, heads_of, nodes_of, parts, left};

use qk_ast::{Body, Expr, Field, Jsx, Link, Operand, Stmt};
use qk_locals::Mark;
use qk_shared::Text;

/// A node of the tree.
#[derive(Clone, Copy)]
pub enum Node<'a> {
    /// An expression, and the mark of where it stands.
    Value(&'a Expr, Mark),
    /// A link, and the mark of the arguments of a call.
    Step(&'a Link, Mark),
    Statement(&'a Stmt),
    /// The statements of a block, which has a scope of its own.
    Block(&'a [Stmt]),
    /// The block of a `for`, around which this name is declared.
    ForBlock(&'a Text, &'a [Stmt]),
}

impl<'a> Node<'a> {
    /// Its children in text order.
    pub fn children(self) -> Children<'a>
        ensures each { left result ≡ children (node_of self.entry) }
        ensures inside { grown (left result) ≡ within (node_of self.entry) }
    {
        self.parts()
    }

    fn parts(self) -> Children<'a>
        ensures { parts result ≡ children (node_of self.entry) }
    {
        match self {
            Node::Value(x, _) => of_expression(x),
            Node::Step(link, mark) => of_link(link, mark),
            Node::Statement(statement) => of_statement(statement),
            Node::Block(inside) => behind(Row::Statements(inside)),
            Node::ForBlock(_, inside) => behind(Row::Statements(inside)),
        }
    }
}

/// The children of a node that are still to come: some expressions, and a row behind them.
#[derive(Drop)]
pub struct Children<'a> {
    heads: Heads<'a>,
    row: Row<'a>,
}

/// Expressions in unmarked places.
#[derive(Clone, Copy)]
enum Heads<'a> {
    None,
    One(&'a Expr),
    Two(&'a Expr, &'a Expr),
    Three(&'a Expr, &'a Expr, &'a Expr),
}

/// Nodes one after another, as the tree has them.
#[derive(Clone, Copy)]
enum Row<'a> {
    Nothing,
    Values(&'a [Expr], Mark),
    Fields(&'a [Field]),
    Operands(&'a [Operand]),
    /// Links, of which the first has this mark.
    Links(&'a [Link], Mark),
    /// Attributes, and the children behind them.
    Markup(&'a [Field], &'a [Expr]),
    Statements(&'a [Stmt]),
    Block(&'a [Stmt]),
    Blocks(&'a [Stmt], &'a [Stmt]),
    ForBlock(&'a Text, &'a [Stmt]),
}

impl<'a> Row<'a> {
    /// The first node, and those behind it; `None` exactly where there is none.
    fn split(self) -> Option<(Node<'a>, Row<'a>)>
        ensures some { IfSome result (λ both. nodes_of self.entry ≡ node_of both.0 ∷ nodes_of both.1) }
        ensures none { IfNone result (nodes_of self.entry ≡ []) }
    {
        match self {
            Row::Nothing => None,
            Row::Values([first, rest @ ..], mark) => {
                Some((Node::Value(first, mark), Row::Values(rest, mark)))
            }
            Row::Values([], _) => None,
            Row::Fields([first, rest @ ..]) => Some((plain(&first.value), Row::Fields(rest))),
            Row::Fields([]) => None,
            Row::Operands([first, rest @ ..]) => Some((plain(&first.value), Row::Operands(rest))),
            Row::Operands([]) => None,
            Row::Links([first, rest @ ..], mark) => {
                Some((Node::Step(first, mark), Row::Links(rest, Mark::Unmarked)))
            }
            Row::Links([], _) => None,
            Row::Markup([first, rest @ ..], inside) => {
                let mark = Mark::of_attribute(first.key.as_str());
                Some((Node::Value(&first.value, mark), Row::Markup(rest, inside)))
            }
            Row::Markup([], [first, rest @ ..]) => {
                Some((plain(first), Row::Values(rest, Mark::Unmarked)))
            }
            Row::Markup([], []) => None,
            Row::Statements([first, rest @ ..]) => {
                Some((Node::Statement(first), Row::Statements(rest)))
            }
            Row::Statements([]) => None,
            Row::Block(inside) => Some((Node::Block(inside), Row::Nothing)),
            Row::Blocks(first, second) => Some((Node::Block(first), Row::Block(second))),
            Row::ForBlock(name, inside) => Some((Node::ForBlock(name, inside), Row::Nothing)),
        }
    }
}

impl<'a> Children<'a> {
    /// The first, and those behind it; `None` exactly where there is none.
    fn split(&self) -> Option<(Node<'a>, Children<'a>)>
        ensures some { IfSome result (λ both. parts self.now ≡ node_of both.0 ∷ parts both.1) }
        ensures none { IfNone result (parts self.now ≡ []) }
    {
        match self.heads {
            Heads::None => {
                let (first, rest) = self.row.split()?;
                Some((first, behind(rest)))
            }
            Heads::One(first) => Some((plain(first), behind(self.row))),
            Heads::Two(first, second) => Some((plain(first), before(second, self.row))),
            Heads::Three(first, second, third) => {
                let rest = Children {
                    heads: Heads::Two(second, third),
                    row: self.row,
                };
                Some((plain(first), rest))
            }
        }
    }
}

impl<'a> Iterator for Children<'a> {
    type Item = Node<'a>;

    ghost next_gives = { YieldsFirstBy node_of left };

    ghost remaining = { item_count left };

    fn next(&mut self) -> Option<Node<'a>> {
        match self.split() {
            Some((first, rest)) => {
                *self = rest;
                Some(first)
            }
            None => None,
        }
    }
}

fn plain(x: &Expr) -> Node<'_>
    ensures { node_of result ≡ plain x.now }
{
    Node::Value(x, Mark::Unmarked)
}

fn only(heads: Heads<'_>) -> Children<'_>
    ensures { parts result ≡ heads_of heads.entry }
{
    Children {
        heads,
        row: Row::Nothing,
    }
}

fn behind(row: Row<'_>) -> Children<'_>
    ensures { parts result ≡ nodes_of row.entry }
{
    Children {
        heads: Heads::None,
        row,
    }
}

fn before<'a>(head: &'a Expr, row: Row<'a>) -> Children<'a>
    ensures { parts result ≡ plain head.now ∷ nodes_of row.entry }
{
    Children {
        heads: Heads::One(head),
        row,
    }
}

fn of_statement(statement: &Stmt) -> Children<'_>
    ensures { parts result ≡ of_stmt (out-Stmt statement.now) }
{
    match statement {
        Stmt::Const(_, x) => only(Heads::One(x)),
        Stmt::Let(_, x) => only(Heads::One(x)),
        Stmt::Do(x) => only(Heads::One(x)),
        Stmt::Delete(x) => only(Heads::One(x)),
        Stmt::Return(value) => returned(value),
        Stmt::If(test, then, otherwise) => {
            before(test, Row::Blocks(then.as_slice(), otherwise.as_slice()))
        }
        Stmt::While(test, inside) => before(test, Row::Block(inside.as_slice())),
        Stmt::ForOf(name, x, inside) => before(x, Row::ForBlock(name, inside.as_slice())),
        Stmt::Break => behind(Row::Nothing),
        Stmt::Continue => behind(Row::Nothing),
        Stmt::Block(inside) => behind(Row::Block(inside.as_slice())),
    }
}

fn returned(value: &Option<Expr>) -> Children<'_>
    ensures { parts result ≡ returned value.now }
{
    match value {
        Some(x) => only(Heads::One(x)),
        None => behind(Row::Nothing),
    }
}

fn of_link(link: &Link, mark: Mark) -> Children<'_>
    ensures { parts result ≡ of_link (out-Link link.now) (mark_of mark) }
{
    match link {
        Link::Prop(_) => behind(Row::Nothing),
        Link::Index(x) => only(Heads::One(x)),
        Link::Call(xs) => behind(Row::Values(xs.as_slice(), mark)),
    }
}

fn of_body(body: &Body) -> Children<'_>
    ensures { parts result ≡ of_body (out-Body body.now) }
{
    match body {
        Body::Value(x) => only(Heads::One(x.get())),
        Body::Block(inside) => behind(Row::Statements(inside.as_slice())),
    }
}

fn of_markup(jsx: &Jsx) -> Children<'_>
    ensures { parts result ≡ attributes (out-Jsx jsx.now).attrs ++ values Unmarked (out-Jsx jsx.now).children }
{
    behind(Row::Markup(jsx.attrs.as_slice(), jsx.children.as_slice()))
}

fn of_expression(x: &Expr) -> Children<'_>
    ensures { parts result ≡ of_expr (out-Expr x.now) }
{
    match x {
        Expr::Undefined => behind(Row::Nothing),
        Expr::Null => behind(Row::Nothing),
        Expr::Bool(_) => behind(Row::Nothing),
        Expr::Int(_) => behind(Row::Nothing),
        Expr::Text(_) => behind(Row::Nothing),
        Expr::Name(_) => behind(Row::Nothing),
        Expr::List(items) => behind(Row::Values(items.as_slice(), Mark::Unmarked)),
        Expr::Record(fields) => behind(Row::Fields(fields.as_slice())),
        Expr::Template(_, holes) => behind(Row::Values(holes.as_slice(), Mark::Unmarked)),
        Expr::Unary(_, value) => only(Heads::One(value.get())),
        Expr::Chain(first, later) => before(first.get(), Row::Operands(later.as_slice())),
        Expr::Cond(test, yes, no) => only(Heads::Three(test.get(), yes.get(), no.get())),
        Expr::Post(head, links) => linked(head.get(), links.as_slice()),
        Expr::Assign(_, target, value) => only(Heads::Two(target.get(), value.get())),
        Expr::Step(_, target) => only(Heads::One(target.get())),
        Expr::Known(_, values) => behind(Row::Values(values.as_slice(), Mark::Unmarked)),
        Expr::Arrow(arrow) => of_body(&arrow.get().body),
        Expr::Jsx(jsx) => of_markup(jsx.get()),
    }
}

fn linked<'a>(head: &'a Expr, later: &'a [Link]) -> Children<'a>
    ensures { parts result ≡ plain head.now ∷ links (call_mark head.now) later.now }
{
    before(head, Row::Links(later, Mark::of_call(head)))
}
