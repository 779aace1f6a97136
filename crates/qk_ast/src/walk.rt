//! The walk that finds free names.
#![tactic(auto, using(crate::proofs::Walks::behind_none))]

ghost use Rattle.std.specs.Prelude.{◌≡◌, ℕ, List, [], ◌∷◌, ◌++◌, flat_map, OnOk, IfOk};
ghost use Rattle.qk_ast.specs.Names.{others_than};
ghost use Rattle.qk_ast.specs.Uses.{uses, statement_uses, body_uses, jsx_uses, tag_use, free_names};
ghost use Rattle.qk_ast.specs.Walking.{field_use, operand_use, link_use, constant_use, returned_use, block_use, behind};

use crate::name_set::NameSet;
use crate::{Arrow, Body, Expr, Field, Jsx, Link, Operand, Pattern, Stmt, Tag};
use qk_shared::{Builder, List, Text};
use std::alloc::{AllocError, Global};

/// The names that are bound where the walk stands, and the free names found so far: as a set, and as texts.
#[derive(Drop)]
pub(crate) struct Walk<'a> {
    bound: NameSet<'a>,
    seen: NameSet<'a>,
    found: Builder<Text>,
}

impl<'a> Walk<'a> {
    /// Nothing is bound or found yet. It takes no memory.
    pub(crate) fn new(alloc: Global) -> Walk<'a>
        ensures bound { result.bound ≡ [] }
        ensures seen { result.seen ≡ [] }
        ensures found { result.found ≡ [] }
    {
        Walk {
            bound: NameSet::new(alloc),
            seen: NameSet::new(alloc),
            found: Builder::new(alloc),
        }
    }

    /// A use of a name.
    #[tactic(auto, unfolding(crate::specs::Walking::behind))]
    fn name(&mut self, name: &'a Text) -> Result<(), AllocError>
        ensures { OnOk result (self.new ≡ behind (name.now ∷ []) self.old) }
    {
        if self.bound.has(name.as_str()) || !self.seen.add(name.as_str())? {
            return Ok(());
        }
        self.found.push(name.share()?)
    }

    /// The uses of a tag's name.
    fn tag(&mut self, tag: &'a Tag) -> Result<(), AllocError>
        ensures { OnOk result (self.new ≡ behind (tag_use tag.now) self.old) }
    {
        match tag {
            Tag::Component(name) => self.name(name),
            Tag::Element(_) => Ok(()),
            Tag::Fragment => Ok(()),
        }
    }

    #[cycle(walk)]
    fn expression(&mut self, x: &'a Expr) -> Result<(), AllocError>
        ensures { OnOk result (self.new ≡ behind (uses x.now) self.old) }
    {
        match x {
            Expr::Undefined => Ok(()),
            Expr::Null => Ok(()),
            Expr::Bool(_) => Ok(()),
            Expr::Int(_) => Ok(()),
            Expr::Text(_) => Ok(()),
            Expr::Name(name) => self.name(name),
            Expr::List(items) => self.expressions(items.as_slice()),
            Expr::Record(fields) => self.fields(fields.as_slice()),
            Expr::Template(_, holes) => self.expressions(holes.as_slice()),
            Expr::Unary(_, value) => self.expression(value.get()),
            Expr::Chain(first, later) => {
                self.expression(first.get())?;
                self.operands(later.as_slice())
            }
            Expr::Cond(test, yes, no) => {
                self.expression(test.get())?;
                self.expression(yes.get())?;
                self.expression(no.get())
            }
            Expr::Post(head, links) => {
                self.expression(head.get())?;
                self.links(links.as_slice())
            }
            Expr::Assign(_, target, value) => {
                self.expression(target.get())?;
                self.expression(value.get())
            }
            Expr::Step(_, target) => self.expression(target.get()),
            Expr::Known(_, values) => self.expressions(values.as_slice()),
            Expr::Arrow(arrow) => self.arrow(arrow.get()),
            Expr::Jsx(jsx) => self.markup(jsx.get()),
        }
    }

    #[cycle(walk)]
    fn expressions(&mut self, xs: &'a [Expr]) -> Result<(), AllocError>
        ensures { OnOk result (self.new ≡ behind (flat_map uses xs.now) self.old) }
    {
        for x in xs {
            self.expression(x)?;
        }
        Ok(())
    }

    #[cycle(walk)]
    fn fields(&mut self, fields: &'a [Field]) -> Result<(), AllocError>
        ensures { OnOk result (self.new ≡ behind (flat_map field_use fields.now) self.old) }
    {
        for field in fields {
            self.expression(&field.value)?;
        }
        Ok(())
    }

    #[cycle(walk)]
    fn operands(&mut self, operands: &'a [Operand]) -> Result<(), AllocError>
        ensures { OnOk result (self.new ≡ behind (flat_map operand_use operands.now) self.old) }
    {
        for operand in operands {
            self.expression(&operand.value)?;
        }
        Ok(())
    }

    #[cycle(walk)]
    fn links(&mut self, links: &'a [Link]) -> Result<(), AllocError>
        ensures { OnOk result (self.new ≡ behind (flat_map link_use links.now) self.old) }
    {
        for link in links {
            self.link(link)?;
        }
        Ok(())
    }

    #[cycle(walk)]
    fn link(&mut self, link: &'a Link) -> Result<(), AllocError>
        ensures { OnOk result (self.new ≡ behind (link_use link.now) self.old) }
    {
        match link {
            Link::Prop(_) => Ok(()),
            Link::Index(x) => self.expression(x),
            Link::Call(values) => self.expressions(values.as_slice()),
        }
    }

    #[cycle(walk)]
    fn markup(&mut self, jsx: &'a Jsx) -> Result<(), AllocError>
        ensures { OnOk result (self.new ≡ behind (jsx_uses jsx.now) self.old) }
    {
        self.tag(&jsx.tag)?;
        self.fields(jsx.attrs.as_slice())?;
        self.expressions(jsx.children.as_slice())
    }

    /// An arrow, whose parameters are bound inside.
    #[cycle(walk)]
    pub(crate) fn arrow(&mut self, arrow: &'a Arrow) -> Result<(), AllocError>
        ensures { OnOk result (self.new ≡ behind (free_names arrow.now.params arrow.now.body) self.old) }
    {
        let outside = self.bound.len();
        self.bound.add_parameters(arrow.params.as_slice())?;
        self.body(&arrow.body)?;
        self.bound.cut(outside);
        Ok(())
    }

    #[cycle(walk)]
    fn body(&mut self, body: &'a Body) -> Result<(), AllocError>
        ensures { OnOk result (self.new ≡ behind (body_uses body.now) self.old) }
    {
        match body {
            Body::Value(x) => self.expression(x.get()),
            Body::Block(statements) => self.block(statements.as_slice()),
        }
    }

    /// The statements of a block, in whose whole its names are bound.
    #[cycle(walk)]
    fn block(&mut self, statements: &'a [Stmt]) -> Result<(), AllocError>
        ensures { OnOk result (self.new ≡ behind (block_use statements.now) self.old) }
    {
        let outside = self.bound.len();
        self.bound.add_declared(statements)?;
        self.statements(statements)?;
        self.bound.cut(outside);
        Ok(())
    }

    #[cycle(walk)]
    fn statements(&mut self, statements: &'a [Stmt]) -> Result<(), AllocError>
        ensures { OnOk result (self.new ≡ behind (flat_map statement_uses statements.now) self.old) }
    {
        for statement in statements {
            self.statement(statement)?;
        }
        Ok(())
    }

    #[cycle(walk)]
    fn statement(&mut self, statement: &'a Stmt) -> Result<(), AllocError>
        ensures { OnOk result (self.new ≡ behind (statement_uses statement.now) self.old) }
    {
        match statement {
            Stmt::Const(pattern, x) => self.constant(pattern, x),
            Stmt::Let(_, x) => self.expression(x),
            Stmt::Do(x) => self.expression(x),
            Stmt::Delete(x) => self.expression(x),
            Stmt::Return(value) => self.returned(value),
            Stmt::If(test, then, otherwise) => {
                self.expression(test)?;
                self.block(then.as_slice())?;
                self.block(otherwise.as_slice())
            }
            Stmt::While(test, inside) => {
                self.expression(test)?;
                self.block(inside.as_slice())
            }
            Stmt::ForOf(name, x, inside) => {
                self.expression(x)?;
                self.block_with(name, inside.as_slice())
            }
            Stmt::Break => Ok(()),
            Stmt::Continue => Ok(()),
            Stmt::Block(inside) => self.block(inside.as_slice()),
        }
    }

    /// What a constant is made of; a constant of `useLexicalScope` uses nothing.
    #[cycle(walk)]
    fn constant(&mut self, pattern: &'a Pattern, x: &'a Expr) -> Result<(), AllocError>
        ensures { OnOk result (self.new ≡ behind (constant_use pattern.now x.now) self.old) }
    {
        match pattern {
            Pattern::Name(_) => self.expression(x),
            Pattern::Fields(_) => self.expression(x),
            Pattern::Scope(_) => Ok(()),
        }
    }

    /// What is returned, if anything.
    #[cycle(walk)]
    fn returned(&mut self, value: &'a Option<Expr>) -> Result<(), AllocError>
        ensures { OnOk result (self.new ≡ behind (returned_use value.now) self.old) }
    {
        match value {
            Some(x) => self.expression(x),
            None => Ok(()),
        }
    }

    /// The block of a `for`, around which its name is bound.
    #[cycle(walk)]
    fn block_with(&mut self, name: &'a Text, statements: &'a [Stmt]) -> Result<(), AllocError>
        ensures { OnOk result (self.new ≡ behind (others_than (name.now ∷ []) (block_use statements.now)) self.old) }
    {
        let outside = self.bound.len();
        self.bound.add(name.as_str())?;
        self.block(statements)?;
        self.bound.cut(outside);
        Ok(())
    }

    /// The names that were found. They aren't copied.
    pub(crate) fn into_found(self, alloc: Global) -> Result<List<Text>, AllocError>
        ensures { IfOk result (λ names. names ≡ self.entry.found) }
    {
        let Walk {
            bound: _,
            seen: _,
            found,
        } = self;
        found.into_list(alloc)
    }
}
