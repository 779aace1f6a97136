//! The names in scope at a place.

ghost use Rattle.std.specs.Prelude.{◌≡◌, [], ◌∷◌, ◌++◌, OnOk, IfOk};
ghost use Rattle.qk_ast.specs.Names.{is_listed, those_of, pattern_names, patterns_names, declared_by, body_names, scope_names};
ghost use Rattle.qk_locals.specs.Meanings.{mark_of};
ghost use Rattle.qk_node.specs.Borrowed.{node_of};
ghost use Rattle.qk_ast.specs.Arrows.{names_around};
ghost use Rattle.qk_captures.specs.Scoping.{in_scope, with_one, with_all, inside_arrow, block_names, entered, first_names, names_before, outside_of, back_to};

use qk_ast::{Arrow, Body, Expr, Form, NameSet, Pattern, Stmt};
use qk_locals::Mark;
use qk_node::Node;
use qk_shared::{Builder, List, Text};
use std::alloc::{AllocError, Global};

/// The name that a task hides.
const TRACK: &str = "track";

/// The names in scope. Whether `track` is one of them is kept apart, since a task hides it.
#[derive(Drop)]
pub(crate) struct Scope<'a> {
    names: NameSet<'a>,
    track: bool,
}

/// What has to be remembered of a scope while an inner one is in use.
#[derive(Clone, Copy)]
pub(crate) struct Outside {
    names: usize,
    track: bool,
}

impl<'a> Scope<'a> {
    /// No names. It takes no memory.
    pub(crate) fn new(alloc: Global) -> Scope<'a>
        ensures { in_scope result ≡ [] }
    {
        Scope {
            names: NameSet::new(alloc),
            track: false,
        }
    }

    fn has(&self, name: &str) -> bool
        ensures { result ≡ is_listed name.now (in_scope self.now) }
    {
        if name == TRACK {
            self.track
        } else {
            self.names.has(name)
        }
    }

    /// Those of the names that are in scope. They aren't copied.
    pub(crate) fn those_in(&self, alloc: Global, names: &[Text]) -> Result<List<Text>, AllocError>
        ensures { IfOk result (λ those. those ≡ those_of (in_scope self.now) names.now) }
    {
        let mut those = Builder::new(alloc);
        for name in names {
            self.add_if_in(&mut those, name)?;
        }
        those.into_list(alloc)
    }

    /// The name goes last if it is in scope.
    fn add_if_in(&self, those: &mut Builder<Text>, name: &Text) -> Result<(), AllocError>
        ensures { OnOk result (those.new ≡ those.old ++ those_of (in_scope self.now) (name.now ∷ [])) }
    {
        if self.has(name.as_str()) {
            those.push(name.share()?)?;
        }
        Ok(())
    }

    /// What `leave` needs to come back to this scope.
    pub(crate) fn outside(&self) -> Outside
        ensures { result ≡ outside_of self.now }
    {
        Outside {
            names: self.names.len(),
            track: self.track,
        }
    }

    /// Back from an inner scope.
    pub(crate) fn leave(&mut self, outside: Outside)
        ensures { self.new ≡ back_to outside self.old }
    {
        self.names.cut(outside.names);
        self.track = outside.track;
    }
}

impl<'a> Scope<'a> {
    /// With this name more.
    pub(crate) fn enter(&mut self, name: &'a str) -> Result<(), AllocError>
        ensures { OnOk result (self.new ≡ with_one name.now self.old) }
    {
        self.names.add(name)?;
        self.track = self.track || name == TRACK;
        Ok(())
    }

    #[tactic(auto, unfolding(crate::specs::Scoping::with_all))]
    fn enter_all(&mut self, names: &'a [Text]) -> Result<(), AllocError>
        ensures { OnOk result (self.new ≡ with_all names.now self.old) }
    {
        for name in names {
            self.enter(name.as_str())?;
        }
        Ok(())
    }

    /// The names of a pattern.
    #[tactic(auto, unfolding(crate::specs::Scoping::with_all))]
    fn enter_pattern(&mut self, pattern: &'a Pattern) -> Result<(), AllocError>
        ensures { OnOk result (self.new ≡ with_all (pattern_names pattern.now) self.old) }
    {
        match pattern {
            Pattern::Name(name) => self.enter(name.as_str()),
            Pattern::Fields(names) => self.enter_all(names.as_slice()),
            Pattern::Scope(names) => self.enter_all(names.as_slice()),
        }
    }

    #[tactic(auto, unfolding(crate::specs::Scoping::with_all))]
    fn enter_patterns(&mut self, params: &'a [Pattern]) -> Result<(), AllocError>
        ensures { OnOk result (self.new ≡ with_all (patterns_names params.now) self.old) }
    {
        for pattern in params {
            self.enter_pattern(pattern)?;
        }
        Ok(())
    }

    /// Into an arrow. A task that has a parameter hides `track`, and has no name of its own.
    pub(crate) fn enter_arrow(
        &mut self,
        mark: Mark,
        params: &'a [Pattern],
    ) -> Result<(), AllocError>
        ensures { OnOk result (self.new ≡ inside_arrow (mark_of mark) params.now self.old) }
    {
        match (mark, params) {
            (Mark::Tasked, [_, ..]) => {
                self.track = false;
                Ok(())
            }
            _ => self.enter_patterns(params),
        }
    }

    /// The names that a statement declares in its block; those of `useLexicalScope` stand around it.
    #[tactic(auto, unfolding(crate::specs::Scoping::with_all))]
    fn enter_declared(&mut self, statement: &'a Stmt) -> Result<(), AllocError>
        ensures { OnOk result (self.new ≡ with_all (declared_by statement.now) self.old) }
    {
        match statement {
            Stmt::Const(Pattern::Scope(_), _) => Ok(()),
            Stmt::Const(pattern, _) => self.enter_pattern(pattern),
            Stmt::Let(name, _) => self.enter(name.as_str()),
            _ => Ok(()),
        }
    }

    /// Into a block.
    #[tactic(auto, unfolding(crate::specs::Scoping::with_all))]
    pub(crate) fn enter_block(&mut self, statements: &'a [Stmt]) -> Result<(), AllocError>
        ensures { OnOk result (self.new ≡ with_all (block_names statements.now) self.old) }
    {
        for statement in statements {
            self.enter_declared(statement)?;
        }
        Ok(())
    }
}

impl<'a> Scope<'a> {
    /// The names that an arrow's body declares in the arrow's own scope.
    fn enter_body(&mut self, body: &'a Body) -> Result<(), AllocError>
        ensures { OnOk result (self.new ≡ with_all (body_names body.now) self.old) }
    {
        match body {
            Body::Value(_) => Ok(()),
            Body::Block(statements) => self.enter_block(statements.as_slice()),
        }
    }

    /// Into an arrow and its body.
    fn enter_function(&mut self, arrow: &'a Arrow, mark: Mark) -> Result<(), AllocError>
        ensures { OnOk result (self.new ≡ with_all (body_names arrow.now.body) (inside_arrow (mark_of mark) arrow.now.params self.old)) }
    {
        self.enter_arrow(mark, arrow.params.as_slice())?;
        self.enter_body(&arrow.body)
    }

    /// Into a node of the tree.
    pub(crate) fn enter_inside(&mut self, node: Node<'a>) -> Result<(), AllocError>
        ensures { OnOk result (self.new ≡ entered (node_of node.entry) self.old) }
    {
        match node {
            Node::Value(Expr::Arrow(arrow), mark) => self.enter_function(arrow.get(), mark),
            Node::Block(inside) => self.enter_block(inside),
            Node::ForBlock(name, inside) => {
                self.enter(name.as_str())?;
                self.enter_block(inside)
            }
            _ => Ok(()),
        }
    }
}

/// The names of `useLexicalScope`.
#[tactic(auto, unfolding(crate::specs::Scoping::with_all))]
impl<'a> Scope<'a> {
    /// Around the value of an item. In a built file the names of the `useLexicalScope` with which its arrow begins stand there.
    pub(crate) fn enter_around(&mut self, form: Form, value: &'a Expr) -> Result<(), AllocError>
        ensures { OnOk result (self.new ≡ with_all (names_before form value.now) self.old) }
    {
        match form {
            Form::Source => Ok(()),
            Form::Built => self.enter_lexical(value),
        }
    }

    fn enter_lexical(&mut self, value: &'a Expr) -> Result<(), AllocError>
        ensures { OnOk result (self.new ≡ with_all (names_around value.now) self.old) }
    {
        match value {
            Expr::Arrow(arrow) => self.enter_first_of(&arrow.get().body),
            _ => Ok(()),
        }
    }

    fn enter_first_of(&mut self, body: &'a Body) -> Result<(), AllocError>
        ensures { OnOk result (self.new ≡ with_all (scope_names body.now) self.old) }
    {
        match body {
            Body::Value(_) => Ok(()),
            Body::Block(statements) => self.enter_first(statements.as_slice()),
        }
    }

    fn enter_first(&mut self, statements: &'a [Stmt]) -> Result<(), AllocError>
        ensures { OnOk result (self.new ≡ with_all (first_names statements.now) self.old) }
    {
        match statements {
            [Stmt::Const(Pattern::Scope(names), _), ..] => self.enter_all(names.as_slice()),
            _ => Ok(()),
        }
    }
}
