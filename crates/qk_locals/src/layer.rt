//! One scope around a place.

ghost use Rattle.std.specs.Prelude.{◌≡◌, [], ◌∷◌, IfOk};
ghost use Rattle.std.specs.Option.{option_map};
ghost use Rattle.qk_ast.specs.declared.Pattern.TheVariants.{Fields};
ghost use Rattle.qk_ast.specs.Names.{is_listed};
ghost use Rattle.qk_ast.specs.Scopes.{kind_in, arrow_scope, behind, is_track, parameter_kind};
ghost use Rattle.qk_locals.specs.Meanings.{kind_of, mark_of};
ghost use Rattle.qk_locals.specs.Layers.{block_of, for_of};

use crate::declared::Declared;
use crate::{Kind, Mark};
use qk_ast::{Body, NameSet, Pattern, Stmt};
use qk_shared::Text;
use std::alloc::{AllocError, Global};
use std::marker::Model;

/// What a scope is of.
#[derive(Drop)]
enum Origin<'a> {
    Arrow(Mark, &'a [Pattern], &'a Body),
    Block(&'a [Stmt]),
    /// The name of a `for`, and whether its declaration has ended.
    For(&'a Text, bool),
}

/// A scope: what it is of and the statements behind which the place stands, and all that these declare, to be looked up.
#[derive(Drop)]
pub(crate) struct Layer<'a> {
    origin: Origin<'a>,
    passed: Vec<&'a Stmt>,
    declared: Declared<'a>,
    ended: NameSet<'a>,
}

impl<'a> Model for Layer<'a> {
    ghost use Rattle.std.specs.Prelude.{◌≡◌, ℕ, List, [], map};
    ghost use Rattle.qk_ast.specs.Scopes.{Scope, kind_in};
    ghost use Rattle.qk_ast.specs.Walking.{with_names};
    ghost use Rattle.qk_locals.specs.Declaring.{declared_at};
    ghost use Rattle.qk_locals.specs.Layers.{begun, behind_all};

    ghost Value = { Scope };

    ghost view = { λ s. behind_all (map (λ statement. statement.now) s.passed.items) (begun s.origin) };

    ghost invariant = { λ s. ((q : List ℕ) → declared_at s.declared q ≡ kind_in q (begun s.origin).declared)
        × (s.ended ≡ with_names [] (behind_all (map (λ statement. statement.now) s.passed.items) (begun s.origin)).ended) };
}

impl<'a> Layer<'a> {
    /// The scope of an arrow, where its body begins.
    pub(crate) fn of_arrow(
        alloc: Global,
        mark: Mark,
        params: &'a [Pattern],
        body: &'a Body,
    ) -> Result<Layer<'a>, AllocError>
        ensures { IfOk result (λ layer. layer ≡ arrow_scope (mark_of mark) params.now body.now) }
    {
        let mut declared = Declared::new(alloc);
        declared.add_parameters(params, parameter_kind(mark, params))?;
        declared.add_body(body)?;
        let mut ended = NameSet::new(alloc);
        ended.add_parameters(params)?;
        Ok(Layer {
            origin: Origin::Arrow(mark, params, body),
            passed: Vec::new(alloc),
            declared,
            ended,
        })
    }

    /// The scope of a block, before its statements.
    pub(crate) fn of_block(alloc: Global, statements: &'a [Stmt]) -> Result<Layer<'a>, AllocError>
        ensures { IfOk result (λ layer. layer ≡ block_of statements.now) }
    {
        let mut declared = Declared::new(alloc);
        declared.add_block(statements)?;
        Ok(Layer {
            origin: Origin::Block(statements),
            passed: Vec::new(alloc),
            declared,
            ended: NameSet::new(alloc),
        })
    }

    /// The scope of a `for`, around its list or, once its name's declaration has ended, around its block.
    pub(crate) fn of_for(
        alloc: Global,
        name: &'a Text,
        has_ended: bool,
    ) -> Result<Layer<'a>, AllocError>
        ensures { IfOk result (λ layer. layer ≡ for_of name.now has_ended) }
    {
        let mut declared = Declared::new(alloc);
        declared.add(name.as_str(), Kind::Constant)?;
        let mut ended = NameSet::new(alloc);
        if has_ended {
            ended.add(name.as_str())?;
        }
        Ok(Layer {
            origin: Origin::For(name, has_ended),
            passed: Vec::new(alloc),
            declared,
            ended,
        })
    }

    /// The same scope behind this statement.
    pub(crate) fn behind(self, statement: &'a Stmt) -> Result<Layer<'a>, AllocError>
        ensures { IfOk result (λ layer. layer ≡ behind statement.now self.entry) }
    {
        let Layer {
            origin,
            mut passed,
            declared,
            mut ended,
        } = self;
        ended.add_declared_by(statement)?;
        passed.push(statement)?;
        Ok(Layer {
            origin,
            passed,
            declared,
            ended,
        })
    }

    /// Whether it is an arrow's own.
    pub(crate) fn is_of_arrow(&self) -> bool
        ensures { result ≡ self.now.of_arrow }
    {
        match self.origin {
            Origin::Arrow(_, _, _) => true,
            Origin::Block(_) | Origin::For(_, _) => false,
        }
    }

    /// How the name is declared here, if it is.
    pub(crate) fn kind(&self, name: &str) -> Option<Kind>
        ensures { option_map kind_of result ≡ kind_in name.now self.now.declared }
    {
        self.declared.kind(name)
    }

    /// Whether a declaration of the name has ended.
    pub(crate) fn has_ended(&self, name: &str) -> bool
        ensures { result ≡ is_listed name.now self.now.ended }
    {
        self.ended.has(name)
    }
}

/// How the parameters of an arrow are declared that stands there.
fn parameter_kind(mark: Mark, params: &[Pattern]) -> Kind
    ensures { kind_of result ≡ parameter_kind (mark_of mark) params.now }
{
    match mark {
        Mark::Tasked if is_track(params) => Kind::Tracker,
        _ => Kind::Constant,
    }
}

/// Whether they are the one parameter `{ track }`.
fn is_track(params: &[Pattern]) -> bool
    ensures { result ≡ is_track params.now }
{
    match params {
        [Pattern::Fields(names)] => is_one_track(names.as_slice()),
        _ => false,
    }
}

/// Whether the one name is `track`.
fn is_one_track(names: &[Text]) -> bool
    ensures { result ≡ is_track (Fields names.now ∷ []) }
{
    match names {
        [name] => name.as_str() == "track",
        _ => false,
    }
}
