//! The scopes around a place.

ghost use Rattle.std.specs.Prelude.{◌≡◌, [], ◌∷◌, drop, reverse, OnOk};
ghost use Rattle.std.specs.Option.{option_map};
ghost use Rattle.qk_ast.specs.Names.{is_listed};
ghost use Rattle.qk_ast.specs.Scopes.{meaning, meaning_from, arrow_scope};
ghost use Rattle.qk_locals.specs.Meanings.{mark_of, local_of};
ghost use Rattle.qk_locals.specs.Layers.{block_of, for_of, own, passed};

use crate::layer::Layer;
use crate::{Local, Mark};
use qk_ast::{Body, Pattern, Stmt};
use qk_shared::Text;
use std::alloc::{AllocError, Global};
use std::marker::Model;

/// The scopes around a place. Contracts see them as a list, the innermost first.
///
/// A call that adds fails only for want of memory; the scopes are of no use then.
#[derive(Drop)]
pub struct Scopes<'a> {
    alloc: Global,
    layers: Vec<Layer<'a>>,
}

impl<'a> Model for Scopes<'a> {
    ghost use Rattle.std.specs.Prelude.{List, reverse};
    ghost use Rattle.qk_ast.specs.Scopes.{Scope};

    ghost Value = { List Scope };

    ghost view = { λ s. reverse s.layers.items };
}

impl<'a> Scopes<'a> {
    /// None yet. It takes no memory.
    pub fn new(alloc: Global) -> Scopes<'a>
        ensures { result ≡ [] }
    {
        Scopes {
            alloc,
            layers: Vec::new(alloc),
        }
    }

    /// Into the body of an arrow that stands there.
    ///
    /// # Errors
    ///
    /// Where memory runs out, as of each method that changes the scopes.
    pub fn enter_arrow(
        &mut self,
        mark: Mark,
        params: &'a [Pattern],
        body: &'a Body,
    ) -> Result<(), AllocError>
        ensures { OnOk result (self.new ≡ arrow_scope (mark_of mark) params.now body.now ∷ self.old) }
    {
        let layer = Layer::of_arrow(self.alloc, mark, params, body)?;
        self.layers.push(layer)?;
        Ok(())
    }

    /// Into a block.
    pub fn enter_block(&mut self, statements: &'a [Stmt]) -> Result<(), AllocError>
        ensures { OnOk result (self.new ≡ block_of statements.now ∷ self.old) }
    {
        let layer = Layer::of_block(self.alloc, statements)?;
        self.layers.push(layer)?;
        Ok(())
    }

    /// Into the list of a `for`, or, once its name's declaration has ended, to its block.
    pub fn enter_for(&mut self, name: &'a Text, has_ended: bool) -> Result<(), AllocError>
        ensures { OnOk result (self.new ≡ for_of name.now has_ended ∷ self.old) }
    {
        let layer = Layer::of_for(self.alloc, name, has_ended)?;
        self.layers.push(layer)?;
        Ok(())
    }

    /// Out of the innermost scope.
    pub fn leave(&mut self)
        ensures { self.new ≡ drop 1 self.old }
    {
        let _ = self.layers.pop();
    }

    /// Behind a statement of the innermost scope.
    pub fn pass(&mut self, statement: &'a Stmt) -> Result<(), AllocError>
        ensures { OnOk result (self.new ≡ passed statement.now self.old) }
    {
        if let Some(layer) = self.layers.pop() {
            let layer = layer.behind(statement)?;
            self.layers.push(layer)?;
        }
        Ok(())
    }

    /// What the name means, where a scope declares it.
    pub fn meaning(&self, name: &str) -> Option<Local>
        ensures { option_map local_of result ≡ meaning name.now self.now }
    {
        meaning_in(self.layers.as_slice(), false, name)
    }

    /// Whether a declaration of the name in the innermost scope has ended.
    pub fn has_ended(&self, name: &str) -> bool
        ensures { result ≡ is_listed name.now (own self.now).ended }
    {
        match self.layers.last() {
            Some(layer) => layer.has_ended(name),
            None => false,
        }
    }
}

/// What the name means in these scopes, the innermost last, inside an arrow or not.
fn meaning_in(layers: &[Layer], in_arrow: bool, name: &str) -> Option<Local>
    ensures { option_map local_of result ≡ meaning_from in_arrow name.now (reverse layers.now) }
{
    let (layer, outer) = layers.split_last()?;
    match layer.kind(name) {
        Some(kind) => Some(Local {
            kind,
            in_arrow,
            ended: layer.has_ended(name),
        }),
        None => meaning_in(outer, in_arrow || layer.is_of_arrow(), name),
    }
}
