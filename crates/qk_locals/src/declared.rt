//! What a scope declares: each name with the kind of its first declaration.
#![tactic(auto, unfolding(crate::specs::Declaring::declared_at))]

ghost use Rattle.std.specs.Prelude.{◌≡◌, ℕ, List, [], ◌∷◌, None, flat_map, OnOk};
ghost use Rattle.std.specs.Option.{option_map};
ghost use Rattle.qk_ast.specs.Names.{pattern_names, patterns_names};
ghost use Rattle.qk_ast.specs.Scopes.{kind_in, declared_as, declarations_of, declarations_in};
ghost use Rattle.qk_locals.specs.Meanings.{kind_of};
ghost use Rattle.qk_locals.specs.Declaring.{declared_at, first_of};

use crate::Kind;
use qk_ast::{Body, Pattern, Stmt};
use qk_shared::Text;
use std::alloc::{AllocError, Global};
use std::collections::BTreeMap;

/// Declared names, each with its kind. The table is ordered, so that no choice of names makes it slow.
#[derive(Drop)]
pub(crate) struct Declared<'a> {
    kinds: BTreeMap<&'a str, Kind>,
}

impl<'a> Declared<'a> {
    /// Nothing yet. It takes no memory.
    pub(crate) fn new(alloc: Global) -> Declared<'a>
        ensures { (q : List ℕ) → declared_at result q ≡ None }
    {
        Declared {
            kinds: BTreeMap::new(alloc),
        }
    }

    /// How the name is declared, if it is.
    pub(crate) fn kind(&self, name: &str) -> Option<Kind>
        ensures { option_map kind_of result ≡ declared_at self.now name.now }
    {
        self.kinds.get(name).copied()
    }

    /// Declares the name, unless it is declared.
    pub(crate) fn add(&mut self, name: &'a str, kind: Kind) -> Result<(), AllocError>
        ensures { OnOk result ((q : List ℕ) → declared_at self.new q ≡ first_of (declared_at self.old q) (kind_in q (record { name = name.now; kind = kind_of kind } ∷ []))) }
    {
        if !self.kinds.contains_key(name) {
            self.kinds.insert(name, kind)?;
        }
        Ok(())
    }

    /// Each of the names, in order, as this kind.
    pub(crate) fn add_all(&mut self, names: &'a [Text], kind: Kind) -> Result<(), AllocError>
        ensures { OnOk result ((q : List ℕ) → declared_at self.new q ≡ first_of (declared_at self.old q) (kind_in q (declared_as (kind_of kind) names.now))) }
    {
        for name in names {
            self.add(name.as_str(), kind)?;
        }
        Ok(())
    }

    /// The names of a pattern.
    fn add_pattern(&mut self, pattern: &'a Pattern, kind: Kind) -> Result<(), AllocError>
        ensures { OnOk result ((q : List ℕ) → declared_at self.new q ≡ first_of (declared_at self.old q) (kind_in q (declared_as (kind_of kind) (pattern_names pattern.now)))) }
    {
        match pattern {
            Pattern::Name(name) => self.add(name.as_str(), kind),
            Pattern::Fields(names) => self.add_all(names.as_slice(), kind),
            Pattern::Scope(names) => self.add_all(names.as_slice(), kind),
        }
    }

    /// The names of an arrow's parameters.
    pub(crate) fn add_parameters(
        &mut self,
        params: &'a [Pattern],
        kind: Kind,
    ) -> Result<(), AllocError>
        ensures { OnOk result ((q : List ℕ) → declared_at self.new q ≡ first_of (declared_at self.old q) (kind_in q (declared_as (kind_of kind) (patterns_names params.now)))) }
    {
        for pattern in params {
            self.add_pattern(pattern, kind)?;
        }
        Ok(())
    }

    /// What a statement declares in its block.
    fn add_declared_by(&mut self, statement: &'a Stmt) -> Result<(), AllocError>
        ensures { OnOk result ((q : List ℕ) → declared_at self.new q ≡ first_of (declared_at self.old q) (kind_in q (declarations_of statement.now))) }
    {
        match statement {
            Stmt::Const(pattern, _) => self.add_pattern(pattern, Kind::Constant),
            Stmt::Let(name, _) => self.add(name.as_str(), Kind::Variable),
            _ => Ok(()),
        }
    }

    /// What the statements of a block declare there.
    pub(crate) fn add_block(&mut self, statements: &'a [Stmt]) -> Result<(), AllocError>
        ensures { OnOk result ((q : List ℕ) → declared_at self.new q ≡ first_of (declared_at self.old q) (kind_in q (flat_map declarations_of statements.now))) }
    {
        for statement in statements {
            self.add_declared_by(statement)?;
        }
        Ok(())
    }

    /// What the body of an arrow declares in the arrow's own scope.
    pub(crate) fn add_body(&mut self, body: &'a Body) -> Result<(), AllocError>
        ensures { OnOk result ((q : List ℕ) → declared_at self.new q ≡ first_of (declared_at self.old q) (kind_in q (declarations_in body.now))) }
    {
        match body {
            Body::Value(_) => Ok(()),
            Body::Block(statements) => self.add_block(statements.as_slice()),
        }
    }
}
