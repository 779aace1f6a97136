//! Names in the order in which they came, each once.
#![tactic(auto, using(crate::proofs::NameSets::with_both))]

ghost use Rattle.std.specs.Prelude.{◌≡◌, [], length, take, not, flat_map, OnOk, IfOk};
ghost use Rattle.qk_ast.specs.Names.{is_listed, pattern_names, patterns_names, declared_by};
ghost use Rattle.qk_ast.specs.Scopes.{names_declared};
ghost use Rattle.qk_ast.specs.Walking.{with_name, with_names};

use crate::{Pattern, Stmt};
use qk_shared::Text;
use std::alloc::{AllocError, Global};
use std::collections::BTreeMap;
use std::marker::Model;

/// Names in order, each once. Contracts see them as a list, the latest at its end.
///
/// Beside the list stands where each name is in it. A name that was cut off may have a place still, which counts only where the list has the
/// name there. The table is ordered, so that no choice of names makes it slow.
#[derive(Drop)]
pub struct NameSet<'a> {
    names: Vec<&'a str>,
    places: BTreeMap<&'a str, usize>,
}

impl<'a> Model for NameSet<'a> {
    ghost use Rattle.std.specs.Prelude.{List, ℕ};
    ghost use Rattle.qk_ast.specs.NamePlaces.{names_of, HoldPlaces};

    ghost Value = { List (List ℕ) };

    ghost view = { λ s. names_of s.names.items };

    ghost invariant = { λ s. HoldPlaces s.places (names_of s.names.items) };
}

impl<'a> NameSet<'a> {
    /// No names yet. It takes no memory.
    pub fn new(alloc: Global) -> NameSet<'a>
        ensures { result ≡ [] }
    {
        NameSet {
            names: Vec::new(alloc),
            places: BTreeMap::new(alloc),
        }
    }

    /// How many names there are.
    pub fn len(&self) -> usize
        ensures { result ≡ length self.now }
    {
        self.names.len()
    }

    /// Whether the name is among them.
    pub fn has(&self, name: &str) -> bool
        ensures { result ≡ is_listed name.now self.now }
    {
        let Some(place) = self.places.get(name) else {
            return false;
        };
        match self.names.get(*place) {
            Some(there) => *there == name,
            None => false,
        }
    }

    /// The name goes last unless it is there. The answer is whether it is new.
    ///
    /// # Errors
    ///
    /// Where memory runs out, as of each method that adds.
    pub fn add(&mut self, name: &'a str) -> Result<bool, AllocError>
        ensures names { OnOk result (self.new ≡ with_name self.old name.now) }
        ensures new { IfOk result (λ new. new ≡ not (is_listed name.now self.old)) }
    {
        if self.has(name) {
            return Ok(false);
        }
        self.places.insert(name, self.names.len())?;
        self.names.push(name)?;
        Ok(true)
    }

    /// Only that many names stay, the earliest ones.
    pub fn cut(&mut self, len: usize)
        ensures { self.new ≡ take len self.old }
    {
        self.names.truncate(len);
    }
}

impl<'a> NameSet<'a> {
    /// Each of the names, in order.
    pub fn add_all(&mut self, names: &'a [Text]) -> Result<(), AllocError>
        ensures { OnOk result (self.new ≡ with_names self.old names.now) }
    {
        for name in names {
            self.add(name.as_str())?;
        }
        Ok(())
    }

    /// The names of a pattern.
    pub fn add_pattern(&mut self, pattern: &'a Pattern) -> Result<(), AllocError>
        ensures { OnOk result (self.new ≡ with_names self.old (pattern_names pattern.now)) }
    {
        match pattern {
            Pattern::Name(name) => {
                self.add(name.as_str())?;
                Ok(())
            }
            Pattern::Fields(names) => self.add_all(names.as_slice()),
            Pattern::Scope(names) => self.add_all(names.as_slice()),
        }
    }

    /// The names of an arrow's parameters.
    pub fn add_parameters(&mut self, params: &'a [Pattern]) -> Result<(), AllocError>
        ensures { OnOk result (self.new ≡ with_names self.old (patterns_names params.now)) }
    {
        for pattern in params {
            self.add_pattern(pattern)?;
        }
        Ok(())
    }

    /// The names that a statement declares in its block.
    pub fn add_declared_by(&mut self, statement: &'a Stmt) -> Result<(), AllocError>
        ensures { OnOk result (self.new ≡ with_names self.old (names_declared statement.now)) }
    {
        match statement {
            Stmt::Const(pattern, _) => self.add_pattern(pattern),
            Stmt::Let(name, _) => {
                self.add(name.as_str())?;
                Ok(())
            }
            _ => Ok(()),
        }
    }

    /// The names that a statement declares in its block, but for those of `useLexicalScope`, which stand around it.
    fn add_own(&mut self, statement: &'a Stmt) -> Result<(), AllocError>
        ensures { OnOk result (self.new ≡ with_names self.old (declared_by statement.now)) }
    {
        match statement {
            Stmt::Const(Pattern::Scope(_), _) => Ok(()),
            _ => self.add_declared_by(statement),
        }
    }

    /// The names that the statements of a block declare there, as of `add_own`.
    pub(crate) fn add_declared(&mut self, statements: &'a [Stmt]) -> Result<(), AllocError>
        ensures { OnOk result (self.new ≡ with_names self.old (flat_map declared_by statements.now)) }
    {
        for statement in statements {
            self.add_own(statement)?;
        }
        Ok(())
    }
}
