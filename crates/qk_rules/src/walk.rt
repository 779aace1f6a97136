//! The walk over a module that finds the first breach of the rules of places.

ghost use Rattle.std.specs.Prelude.{◌≡◌, [], flat_map, OnOk};
ghost use Rattle.std.specs.Option.{option_copied};
ghost use Rattle.qk_ast.specs.Spots.{Anywhere};
ghost use Rattle.qk_rules.specs.Standings.{standing_of, called_of};
ghost use Rattle.qk_rules.specs.Checking.{Answers};
ghost use Rattle.qk_rules.specs.Parts.{of_name, of_expression, of_field, of_operand, of_arguments, of_link, of_links, of_tag, of_attributes, of_markup, of_body, of_arrow, of_statement, of_statements, of_block, of_returned, of_head, of_item};
ghost use Rattle.qk_rules.specs.Root_table.{kind_by};
ghost use Rattle.qk_rules.specs.Walking.{place};

use crate::RuleFault;
use crate::earlier::Earlier;
use crate::hooks::{
    argument_of, const_standing, hooks_behind, is_component_arrow, mark_there, where_hooks,
};
use crate::roots::Roots;
use crate::standing::{Called, Standing, call_by, name_in};
use crate::telling::{has_children, item_told, name_told, tag_told, with_attribute};
use qk_ast::{Arrow, Body, Expr, Field, Item, Jsx, Link, Operand, Stmt, Tag};
use qk_locals::Scopes;
use qk_shared::Text;
use std::alloc::Global;

/// The module's name, what its root has under names, and the scopes around the place where the walk stands.
#[derive(Drop)]
pub(crate) struct Walk<'a> {
    alloc: Global,
    file: &'a str,
    roots: Roots<'a>,
    scopes: Scopes<'a>,
}

impl<'a> Walk<'a> {
    /// At the begin of a module of that name.
    #[tactic(auto, unfolding(crate::specs::Walking::place))]
    pub(crate) fn new(alloc: Global, file: &'a str, roots: Roots<'a>) -> Walk<'a>
        ensures { place result ≡ record { file = file.now; roots = kind_by roots.entry; scopes = [] } }
    {
        Walk {
            alloc,
            file,
            roots,
            scopes: Scopes::new(alloc),
        }
    }

    /// The items of the root, outside of all scopes.
    pub(crate) fn items(&mut self, items: &'a [Item]) -> Result<(), RuleFault>
        ensures answers { Answers (flat_map (of_item (place self.old)) items.now) result }
        ensures kept { OnOk result (self.new ≡ self.old) }
    {
        for item in items {
            self.item(item)?;
        }
        Ok(())
    }

    fn item(&mut self, item: &'a Item) -> Result<(), RuleFault>
        ensures answers { Answers (of_item (place self.old) item.now) result }
        ensures kept { OnOk result (self.new ≡ self.old) }
    {
        item_told(self.file, item)?;
        self.expression(&item.init, Standing::RootValue)
    }

    fn name(
        &self,
        name: &'a Text,
        call: Called<'a>,
        standing: Standing<'a>,
    ) -> Result<(), RuleFault>
        ensures { Answers (of_name (place self.now) name.now (called_of call.entry) (standing_of standing.entry)) result }
    {
        name_told(&self.roots, &self.scopes, name, call, standing)
    }

    fn tag(&self, tag: &'a Tag, children: bool) -> Result<(), RuleFault>
        ensures { Answers (of_tag (place self.now) tag.now children) result }
    {
        tag_told(&self.roots, &self.scopes, tag, children)
    }

    #[cycle(walk)]
    fn expression(&mut self, x: &'a Expr, standing: Standing<'a>) -> Result<(), RuleFault>
        ensures answers { Answers (of_expression (place self.old) (standing_of standing.entry) x.now) result }
        ensures kept { OnOk result (self.new ≡ self.old) }
    {
        match x {
            Expr::Undefined => Ok(()),
            Expr::Null => Ok(()),
            Expr::Bool(_) => Ok(()),
            Expr::Int(_) => Ok(()),
            Expr::Text(_) => Ok(()),
            Expr::Name(name) => self.name(name, Called::NotCalled, standing),
            Expr::List(items) => self.expressions(items.as_slice(), Standing::Anywhere),
            Expr::Record(fields) => self.fields(fields.as_slice()),
            Expr::Template(_, holes) => self.expressions(holes.as_slice(), Standing::Anywhere),
            Expr::Unary(_, value) => self.expression(value.get(), Standing::Anywhere),
            Expr::Chain(first, later) => {
                self.expression(first.get(), Standing::Anywhere)?;
                self.operands(later.as_slice())
            }
            Expr::Cond(test, yes, no) => {
                self.expression(test.get(), Standing::Anywhere)?;
                self.expression(yes.get(), Standing::Anywhere)?;
                self.expression(no.get(), Standing::Anywhere)
            }
            Expr::Post(head, links) => {
                self.head(head.get(), call_by(links.as_slice()), standing)?;
                self.links(name_in(head.get()), links.as_slice())
            }
            Expr::Assign(_, target, value) => {
                self.expression(target.get(), Standing::Anywhere)?;
                self.expression(value.get(), Standing::Anywhere)
            }
            Expr::Step(_, target) => self.expression(target.get(), Standing::Anywhere),
            Expr::Known(_, values) => self.expressions(values.as_slice(), Standing::Anywhere),
            Expr::Arrow(arrow) => self.arrow(arrow.get(), standing),
            Expr::Jsx(jsx) => self.markup(jsx.get()),
        }
    }

    /// What stands before links.
    #[cycle(walk)]
    fn head(
        &mut self,
        head: &'a Expr,
        call: Called<'a>,
        standing: Standing<'a>,
    ) -> Result<(), RuleFault>
        ensures answers { Answers (of_head (place self.old) head.now (called_of call.entry) (standing_of standing.entry)) result }
        ensures kept { OnOk result (self.new ≡ self.old) }
    {
        match name_in(head) {
            Some(name) => self.name(name, call, standing),
            None => self.expression(head, Standing::Anywhere),
        }
    }

    #[cycle(walk)]
    fn expressions(&mut self, xs: &'a [Expr], standing: Standing<'a>) -> Result<(), RuleFault>
        ensures answers { Answers (flat_map (of_expression (place self.old) (standing_of standing.entry)) xs.now) result }
        ensures kept { OnOk result (self.new ≡ self.old) }
    {
        for x in xs {
            self.expression(x, standing)?;
        }
        Ok(())
    }

    /// The arguments of a call of that name, if it has one.
    #[cycle(walk)]
    fn arguments(&mut self, callee: Option<&'a Text>, xs: &'a [Expr]) -> Result<(), RuleFault>
        ensures answers { Answers (of_arguments (place self.old) (option_copied callee.entry) xs.now) result }
        ensures kept { OnOk result (self.new ≡ self.old) }
    {
        let Some((first, later)) = xs.split_first() else {
            return Ok(());
        };
        let behind = argument_of(callee, false);
        self.expression(first, argument_of(callee, true))?;
        for x in later {
            self.expression(x, behind)?;
        }
        Ok(())
    }

    #[cycle(walk)]
    fn fields(&mut self, fields: &'a [Field]) -> Result<(), RuleFault>
        ensures answers { Answers (flat_map (of_field (place self.old)) fields.now) result }
        ensures kept { OnOk result (self.new ≡ self.old) }
    {
        for field in fields {
            self.expression(&field.value, Standing::Anywhere)?;
        }
        Ok(())
    }

    #[cycle(walk)]
    fn operands(&mut self, operands: &'a [Operand]) -> Result<(), RuleFault>
        ensures answers { Answers (flat_map (of_operand (place self.old)) operands.now) result }
        ensures kept { OnOk result (self.new ≡ self.old) }
    {
        for operand in operands {
            self.expression(&operand.value, Standing::Anywhere)?;
        }
        Ok(())
    }

    /// The links behind a head that is that name, if it is one.
    #[cycle(walk)]
    fn links(&mut self, callee: Option<&'a Text>, links: &'a [Link]) -> Result<(), RuleFault>
        ensures answers { Answers (of_links (place self.old) (option_copied callee.entry) links.now) result }
        ensures kept { OnOk result (self.new ≡ self.old) }
    {
        let Some((first, later)) = links.split_first() else {
            return Ok(());
        };
        self.link(callee, first)?;
        for link in later {
            self.link(None, link)?;
        }
        Ok(())
    }

    #[cycle(walk)]
    fn link(&mut self, callee: Option<&'a Text>, link: &'a Link) -> Result<(), RuleFault>
        ensures answers { Answers (of_link (place self.old) (option_copied callee.entry) link.now) result }
        ensures kept { OnOk result (self.new ≡ self.old) }
    {
        match link {
            Link::Prop(_) => Ok(()),
            Link::Index(x) => self.expression(x, Standing::Anywhere),
            Link::Call(values) => self.arguments(callee, values.as_slice()),
        }
    }

    #[cycle(walk)]
    fn markup(&mut self, jsx: &'a Jsx) -> Result<(), RuleFault>
        ensures answers { Answers (of_markup (place self.old) jsx.now) result }
        ensures kept { OnOk result (self.new ≡ self.old) }
    {
        let children = jsx.children.as_slice();
        self.tag(&jsx.tag, has_children(children))?;
        self.attributes(&jsx.tag, jsx.attrs.as_slice())?;
        self.expressions(children, Standing::Anywhere)
    }

    #[cycle(walk)]
    fn attributes(&mut self, tag: &'a Tag, attributes: &'a [Field]) -> Result<(), RuleFault>
        ensures answers { Answers (of_attributes (place self.old) tag.now [] attributes.now) result }
        ensures kept { OnOk result (self.new ≡ self.old) }
    {
        let mut earlier = Earlier::new(self.alloc);
        for attribute in attributes {
            let longer = with_attribute(earlier, self.alloc, tag, attribute)?;
            earlier = longer;
            self.expression(&attribute.value, Standing::Anywhere)?;
        }
        Ok(())
    }

    /// An arrow, with its parameters and the names of its block around its body.
    #[cycle(walk)]
    fn arrow(&mut self, arrow: &'a Arrow, standing: Standing<'a>) -> Result<(), RuleFault>
        ensures answers { Answers (of_arrow (place self.old) (standing_of standing.entry) arrow.now.params arrow.now.body) result }
        ensures kept { OnOk result (self.new ≡ self.old) }
    {
        self.scopes
            .enter_arrow(mark_there(standing), arrow.params.as_slice(), &arrow.body)?;
        self.body(&arrow.body, is_component_arrow(standing))?;
        self.scopes.leave();
        Ok(())
    }

    #[cycle(walk)]
    fn body(&mut self, body: &'a Body, component: bool) -> Result<(), RuleFault>
        ensures answers { Answers (of_body (place self.old) component body.now) result }
        ensures kept { OnOk result (self.new ≡ self.old) }
    {
        match body {
            Body::Value(x) => self.expression(x.get(), Standing::Anywhere),
            Body::Block(statements) => self.statements(statements.as_slice(), component),
        }
    }

    /// The statements of a block; hooks may stand in the first, and behind such as let them follow.
    #[cycle(walk)]
    fn statements(&mut self, statements: &'a [Stmt], first: bool) -> Result<(), RuleFault>
        ensures answers { Answers (of_statements (place self.old) first statements.now) result }
        ensures kept { OnOk result (self.new ≡ self.old) }
    {
        let mut hooks = first;
        for statement in statements {
            self.statement(statement, hooks)?;
            let next = hooks_behind(hooks, statement);
            hooks = next;
        }
        Ok(())
    }

    #[cycle(walk)]
    fn statement(&mut self, statement: &'a Stmt, hooks: bool) -> Result<(), RuleFault>
        ensures answers { Answers (of_statement (place self.old) hooks statement.now) result }
        ensures kept { OnOk result (self.new ≡ self.old) }
    {
        match statement {
            Stmt::Const(pattern, x) => self.expression(x, const_standing(pattern, hooks)),
            Stmt::Let(_, x) => self.expression(x, Standing::Anywhere),
            Stmt::Do(x) => self.expression(x, where_hooks(hooks)),
            Stmt::Delete(x) => self.expression(x, Standing::Anywhere),
            Stmt::Return(value) => self.returned(value),
            Stmt::If(test, then, otherwise) => {
                self.expression(test, Standing::Anywhere)?;
                self.block(then.as_slice())?;
                self.block(otherwise.as_slice())
            }
            Stmt::While(test, inside) => {
                self.expression(test, Standing::Anywhere)?;
                self.block(inside.as_slice())
            }
            Stmt::ForOf(name, x, inside) => {
                self.scopes.enter_for(name, false)?;
                self.expression(x, Standing::Anywhere)?;
                self.block(inside.as_slice())?;
                self.scopes.leave();
                Ok(())
            }
            Stmt::Break => Ok(()),
            Stmt::Continue => Ok(()),
            Stmt::Block(inside) => self.block(inside.as_slice()),
        }
    }

    /// What is returned, if anything.
    #[cycle(walk)]
    fn returned(&mut self, value: &'a Option<Expr>) -> Result<(), RuleFault>
        ensures answers { Answers (of_returned (place self.old) value.now) result }
        ensures kept { OnOk result (self.new ≡ self.old) }
    {
        match value {
            Some(x) => self.expression(x, Standing::Anywhere),
            None => Ok(()),
        }
    }

    /// A block, with its names around it.
    #[cycle(walk)]
    fn block(&mut self, statements: &'a [Stmt]) -> Result<(), RuleFault>
        ensures answers { Answers (of_block (place self.old) statements.now) result }
        ensures kept { OnOk result (self.new ≡ self.old) }
    {
        self.scopes.enter_block(statements)?;
        self.statements(statements, false)?;
        self.scopes.leave();
        Ok(())
    }
}
