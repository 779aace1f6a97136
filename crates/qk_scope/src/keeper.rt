//! The walk over a module's code that finds the first name that breaks a rule.
#![tactic(auto, using(crate::proofs::Answered::none_broken))]

ghost use Rattle.std.specs.Prelude.{◌≡◌, ◌<◌, [], ◌∷◌, ◌++◌, flat_map, length, drop, true, false, OnOk};
ghost use Rattle.qk_ast.specs.Names.{pattern_names, patterns_names};
ghost use Rattle.qk_ast.specs.Arrows.{Unmarked};
ghost use Rattle.qk_ast.specs.Mentions.{Uses, Declares, declared_after, mentions, tag_mentions, jsx_mentions};
ghost use Rattle.qk_ast.specs.Naming.{naming_breaches};
ghost use Rattle.qk_locals.specs.Meanings.{mark_of};
ghost use Rattle.qk_locals.specs.Layers.{own, for_of};
ghost use Rattle.qk_scope.specs.Answering.{Answers, broken, first_of, breach_by};
ghost use Rattle.qk_scope.specs.Parts as parts;

use crate::ScopeFault;
use crate::declaring::{declare_pattern, declare_patterns, is_refused, refuse_if};
use crate::fault::refusal;
use crate::rules::Rules;
use crate::using::{breach_of_local, breach_of_root};
use qk_ast::framework::{is_fixed, is_taken};
use qk_ast::{
    Arrow, Body, Expr, Field, Jsx, Link, NameSet, Operand, Pattern, ScopeKind, Stmt, Tag,
};
use qk_locals::{Mark, Scopes};
use qk_shared::Text;
use std::alloc::Global;

/// What the rules are about, and the scopes around the place where the walk stands.
///
/// Each call answers for the part of the tree that it is given: it refuses the first breach there, and where there is none, the walk stands where
/// it stood.
#[derive(Drop)]
pub(crate) struct Keeper<'a> {
    pub(crate) rules: Rules<'a>,
    pub(crate) scopes: Scopes<'a>,
}

impl<'a> Keeper<'a> {
    /// At the root. It takes no memory.
    pub(crate) fn new(alloc: Global, rules: Rules<'a>) -> Keeper<'a>
        ensures rules { result.rules ≡ rules.entry }
        ensures scopes { result.scopes ≡ [] }
    {
        Keeper {
            rules,
            scopes: Scopes::new(alloc),
        }
    }

    /// The first rule that a use of the name breaks.
    fn breach_of_use(&self, name: &str, assigned: bool) -> Option<ScopeKind>
        ensures { first_of (naming_breaches self.now.rules.form self.now.rules.file.now self.now.rules.roots (Uses name.now assigned self.now.scopes)) ≡ breach_by name.now result }
    {
        if is_fixed(name) {
            return Some(ScopeKind::UnknownName);
        }
        match self.scopes.meaning(name) {
            Some(local) => breach_of_local(local, assigned),
            None => breach_of_root(self.rules.roots.has(name), assigned),
        }
    }

    /// A use of a name.
    fn name(&self, name: &Text, assigned: bool) -> Result<(), ScopeFault>
        ensures { Answers (broken self.now (λ scopes. Uses name.now assigned scopes ∷ [])) result }
    {
        match self.breach_of_use(name.as_str(), assigned) {
            Some(kind) => Err(refusal(kind, name)),
            None => Ok(()),
        }
    }

    /// The use of a tag's name.
    fn tag(&self, tag: &Tag) -> Result<(), ScopeFault>
        ensures { Answers (broken self.now (tag_mentions tag.now)) result }
    {
        match tag {
            Tag::Component(name) => self.name(name, false),
            Tag::Element(_) => Ok(()),
            Tag::Fragment => Ok(()),
        }
    }

    /// The names of an arrow's parameters, none of which stands twice.
    fn parameters(&self, params: &'a [Pattern]) -> Result<(), ScopeFault>
        ensures { Answers (broken self.now (λ scopes. declared_after [] (patterns_names params.now))) result }
    {
        let mut earlier = NameSet::new(self.rules.alloc);
        declare_patterns(&Scopes::new(self.rules.alloc), &mut earlier, params)
    }

    /// The names of a constant.
    fn pattern(&self, pattern: &'a Pattern) -> Result<(), ScopeFault>
        ensures { Answers (broken self.now (λ scopes. declared_after (own scopes).ended (pattern_names pattern.now))) result }
    {
        let mut earlier = NameSet::new(self.rules.alloc);
        declare_pattern(&self.scopes, &mut earlier, pattern)
    }

    /// The name of a `let`.
    fn declared(&self, name: &Text) -> Result<(), ScopeFault>
        ensures { Answers (broken self.now (λ scopes. Declares name.now (own scopes).ended ∷ [])) result }
    {
        refuse_if(is_refused(&self.scopes, true, name), name)
    }

    /// The name of a `for`, the only one of its scope.
    fn declared_alone(&self, name: &Text) -> Result<(), ScopeFault>
        ensures { Answers (broken self.now (λ scopes. Declares name.now [] ∷ [])) result }
    {
        refuse_if(is_taken(name.as_str()), name)
    }

    /// An expression, which is the argument or the value of what has the mark.
    #[cycle(walk)]
    pub(crate) fn expression(&mut self, x: &'a Expr, mark: Mark) -> Result<(), ScopeFault>
        ensures rules { Answers (broken self.old (mentions x.now (mark_of mark))) result }
        ensures kept { OnOk result (self.new ≡ self.old) }
    {
        match x {
            Expr::Undefined => Ok(()),
            Expr::Null => Ok(()),
            Expr::Bool(_) => Ok(()),
            Expr::Int(_) => Ok(()),
            Expr::Text(_) => Ok(()),
            Expr::Name(name) => self.name(name, false),
            Expr::List(items) => self.expressions(items.as_slice(), Mark::Unmarked),
            Expr::Record(fields) => self.fields(fields.as_slice()),
            Expr::Template(_, holes) => self.expressions(holes.as_slice(), Mark::Unmarked),
            Expr::Unary(_, value) => self.expression(value.get(), Mark::Unmarked),
            Expr::Chain(first, later) => {
                self.expression(first.get(), Mark::Unmarked)?;
                self.operands(later.as_slice())
            }
            Expr::Cond(test, yes, no) => {
                self.expression(test.get(), Mark::Unmarked)?;
                self.expression(yes.get(), Mark::Unmarked)?;
                self.expression(no.get(), Mark::Unmarked)
            }
            Expr::Post(head, links) => {
                self.expression(head.get(), Mark::Unmarked)?;
                self.links(links.as_slice(), Mark::of_call(head.get()))
            }
            Expr::Assign(_, target, value) => {
                self.target(target.get())?;
                self.expression(value.get(), Mark::Unmarked)
            }
            Expr::Step(_, target) => self.target(target.get()),
            Expr::Known(_, values) => self.expressions(values.as_slice(), Mark::Unmarked),
            Expr::Arrow(arrow) => self.arrow(arrow.get(), mark),
            Expr::Jsx(jsx) => self.markup(jsx.get()),
        }
    }

    /// A target of an assignment: a name is assigned, and another target holds uses.
    #[cycle(walk)]
    fn target(&mut self, target: &'a Expr) -> Result<(), ScopeFault>
        ensures rules { Answers (broken self.old (λ scopes. parts.target_part scopes target.now)) result }
        ensures kept { OnOk result (self.new ≡ self.old) }
    {
        match target {
            Expr::Name(name) => self.name(name, true),
            other => self.expression(other, Mark::Unmarked),
        }
    }

    #[cycle(walk)]
    fn expressions(&mut self, xs: &'a [Expr], mark: Mark) -> Result<(), ScopeFault>
        ensures rules { Answers (broken self.old (λ scopes. flat_map (parts.part_of (mark_of mark) scopes) xs.now)) result }
        ensures kept { OnOk result (self.new ≡ self.old) }
    {
        for x in xs {
            self.expression(x, mark)?;
        }
        Ok(())
    }

    #[cycle(walk)]
    fn fields(&mut self, fields: &'a [Field]) -> Result<(), ScopeFault>
        ensures rules { Answers (broken self.old (λ scopes. flat_map (parts.field_part scopes) fields.now)) result }
        ensures kept { OnOk result (self.new ≡ self.old) }
    {
        for field in fields {
            self.expression(&field.value, Mark::Unmarked)?;
        }
        Ok(())
    }

    /// Attributes, whose values have the marks of their names.
    #[cycle(walk)]
    fn attributes(&mut self, attributes: &'a [Field]) -> Result<(), ScopeFault>
        ensures rules { Answers (broken self.old (λ scopes. flat_map (parts.attribute_part scopes) attributes.now)) result }
        ensures kept { OnOk result (self.new ≡ self.old) }
    {
        for attribute in attributes {
            self.expression(&attribute.value, Mark::of_attribute(attribute.key.as_str()))?;
        }
        Ok(())
    }

    #[cycle(walk)]
    fn operands(&mut self, operands: &'a [Operand]) -> Result<(), ScopeFault>
        ensures rules { Answers (broken self.old (λ scopes. flat_map (parts.operand_part scopes) operands.now)) result }
        ensures kept { OnOk result (self.new ≡ self.old) }
    {
        for operand in operands {
            self.expression(&operand.value, Mark::Unmarked)?;
        }
        Ok(())
    }

    /// Links, of which the first has the mark.
    #[cycle(walk)]
    fn links(&mut self, links: &'a [Link], mark: Mark) -> Result<(), ScopeFault>
        ensures rules { Answers (broken self.old (λ scopes. parts.links_part (mark_of mark) scopes links.now)) result }
        ensures kept { OnOk result (self.new ≡ self.old) }
    {
        let mut mark = mark;
        for link in links {
            self.link(link, mark)?;
            mark = Mark::Unmarked;
        }
        Ok(())
    }

    #[cycle(walk)]
    fn link(&mut self, link: &'a Link, mark: Mark) -> Result<(), ScopeFault>
        ensures rules { Answers (broken self.old (λ scopes. parts.link_part (mark_of mark) scopes link.now)) result }
        ensures kept { OnOk result (self.new ≡ self.old) }
    {
        match link {
            Link::Prop(_) => Ok(()),
            Link::Index(x) => self.expression(x, Mark::Unmarked),
            Link::Call(values) => self.expressions(values.as_slice(), mark),
        }
    }

    #[cycle(walk)]
    fn markup(&mut self, jsx: &'a Jsx) -> Result<(), ScopeFault>
        ensures rules { Answers (broken self.old (jsx_mentions jsx.now)) result }
        ensures kept { OnOk result (self.new ≡ self.old) }
    {
        self.tag(&jsx.tag)?;
        self.attributes(jsx.attrs.as_slice())?;
        self.expressions(jsx.children.as_slice(), Mark::Unmarked)
    }

    #[cycle(walk)]
    fn arrow(&mut self, arrow: &'a Arrow, mark: Mark) -> Result<(), ScopeFault>
        ensures rules { Answers (broken self.old (λ scopes. parts.arrow_part (mark_of mark) scopes arrow.now)) result }
        ensures kept { OnOk result (self.new ≡ self.old) }
    {
        self.parameters(arrow.params.as_slice())?;
        self.scopes
            .enter_arrow(mark, arrow.params.as_slice(), &arrow.body)?;
        self.body(&arrow.body)?;
        self.scopes.leave();
        Ok(())
    }

    /// The body of the arrow whose scope is the innermost one.
    #[cycle(walk)]
    fn body(&mut self, body: &'a Body) -> Result<(), ScopeFault>
        requires inside { 0 < length self.old.scopes }
        ensures rules { Answers (broken self.old (λ scopes. parts.body_part scopes body.now)) result }
        ensures same { OnOk result (self.new.rules ≡ self.old.rules) }
        ensures outer { OnOk result (drop 1 self.new.scopes ≡ drop 1 self.old.scopes) }
    {
        match body {
            Body::Value(x) => self.expression(x.get(), Mark::Unmarked),
            Body::Block(statements) => self.statements(statements.as_slice()),
        }
    }

    #[cycle(walk)]
    fn block(&mut self, statements: &'a [Stmt]) -> Result<(), ScopeFault>
        ensures rules { Answers (broken self.old (λ scopes. parts.block_part scopes statements.now)) result }
        ensures kept { OnOk result (self.new ≡ self.old) }
    {
        self.scopes.enter_block(statements)?;
        self.statements(statements)?;
        self.scopes.leave();
        Ok(())
    }

    /// The statements of the block whose scope is the innermost one.
    #[cycle(walk)]
    fn statements(&mut self, statements: &'a [Stmt]) -> Result<(), ScopeFault>
        requires inside { 0 < length self.old.scopes }
        ensures rules { Answers (broken self.old (λ scopes. parts.statements_part scopes statements.now)) result }
        ensures same { OnOk result (self.new.rules ≡ self.old.rules) }
        ensures outer { OnOk result (drop 1 self.new.scopes ≡ drop 1 self.old.scopes) }
    {
        for statement in statements {
            self.statement(statement)?;
            self.scopes.pass(statement)?;
        }
        Ok(())
    }

    #[cycle(walk)]
    fn statement(&mut self, statement: &'a Stmt) -> Result<(), ScopeFault>
        requires inside { 0 < length self.old.scopes }
        ensures rules { Answers (broken self.old (λ scopes. parts.statement_part scopes statement.now)) result }
        ensures kept { OnOk result (self.new ≡ self.old) }
    {
        match statement {
            Stmt::Const(pattern, x) => self.constant(pattern, x),
            Stmt::Let(name, x) => self.variable(name, x),
            Stmt::Do(x) => self.expression(x, Mark::Unmarked),
            Stmt::Delete(x) => self.expression(x, Mark::Unmarked),
            Stmt::Return(value) => self.returned(value),
            Stmt::If(test, then, otherwise) => {
                self.expression(test, Mark::Unmarked)?;
                self.block(then.as_slice())?;
                self.block(otherwise.as_slice())
            }
            Stmt::While(test, inside) => {
                self.expression(test, Mark::Unmarked)?;
                self.block(inside.as_slice())
            }
            Stmt::ForOf(name, x, inside) => {
                self.declared_alone(name)?;
                self.list_of(name, x)?;
                self.block_of(name, inside.as_slice())
            }
            Stmt::Break => Ok(()),
            Stmt::Continue => Ok(()),
            Stmt::Block(inside) => self.block(inside.as_slice()),
        }
    }

    #[cycle(walk)]
    fn constant(&mut self, pattern: &'a Pattern, x: &'a Expr) -> Result<(), ScopeFault>
        ensures rules { Answers (broken self.old (λ scopes. declared_after (own scopes).ended (pattern_names pattern.now) ++ mentions x.now Unmarked scopes)) result }
        ensures kept { OnOk result (self.new ≡ self.old) }
    {
        self.pattern(pattern)?;
        self.expression(x, Mark::Unmarked)
    }

    #[cycle(walk)]
    fn variable(&mut self, name: &'a Text, x: &'a Expr) -> Result<(), ScopeFault>
        ensures rules { Answers (broken self.old (λ scopes. Declares name.now (own scopes).ended ∷ mentions x.now Unmarked scopes)) result }
        ensures kept { OnOk result (self.new ≡ self.old) }
    {
        self.declared(name)?;
        self.expression(x, Mark::Unmarked)
    }

    /// What is returned, if anything.
    #[cycle(walk)]
    fn returned(&mut self, value: &'a Option<Expr>) -> Result<(), ScopeFault>
        ensures rules { Answers (broken self.old (λ scopes. parts.returned_part scopes value.now)) result }
        ensures kept { OnOk result (self.new ≡ self.old) }
    {
        match value {
            Some(x) => self.expression(x, Mark::Unmarked),
            None => Ok(()),
        }
    }

    /// The list of a `for`, in which the name's declaration hasn't ended yet.
    #[cycle(walk)]
    fn list_of(&mut self, name: &'a Text, x: &'a Expr) -> Result<(), ScopeFault>
        ensures rules { Answers (broken self.old (λ scopes. mentions x.now Unmarked (for_of name.now false ∷ scopes))) result }
        ensures kept { OnOk result (self.new ≡ self.old) }
    {
        self.scopes.enter_for(name, false)?;
        self.expression(x, Mark::Unmarked)?;
        self.scopes.leave();
        Ok(())
    }

    /// The block of a `for`.
    #[cycle(walk)]
    fn block_of(&mut self, name: &'a Text, inside: &'a [Stmt]) -> Result<(), ScopeFault>
        ensures rules { Answers (broken self.old (λ scopes. parts.block_part (for_of name.now true ∷ scopes) inside.now)) result }
        ensures kept { OnOk result (self.new ≡ self.old) }
    {
        self.scopes.enter_for(name, true)?;
        self.block(inside)?;
        self.scopes.leave();
        Ok(())
    }
}
