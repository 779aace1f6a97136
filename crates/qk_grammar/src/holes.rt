//! Templates with holes.

ghost use Rattle.std.specs.Prelude.{◌≡◌, suc, [], ◌∷◌};
ghost use Rattle.qk_reading.specs.Input as input;
ghost use Rattle.qk_reading.specs.Parts as parts;
ghost use Rattle.qk_reading.specs.Forms as forms;
ghost use Rattle.qk_reading.specs.Reader.{nesting};
ghost use Rattle.qk_token.specs.Reads.{Reads, ReadsAs};
ghost use Rattle.qk_grammar.specs.Nests.{Values, Bodies, Groups};
ghost use Rattle.qk_grammar.specs.FormsSeen.{part_of, filled_of};

use crate::grammar::Grammar;
use crate::read::{Group, Inner, Read};
use qk_ast::{Body, Expr, Form, Stmt};
use qk_shared::{Builder, List, Text};
use qk_token::{Edge, Fault, Token, Tokens, written_text};
use std::alloc::Global;

/// A template's part after a hole, and whether another hole follows it.
#[derive(Drop)]
pub struct TemplatePart {
    pub text: Text,
    pub has_hole: bool,
}

/// A template's parts, and the values of the holes between them.
#[derive(Drop)]
pub struct Filled {
    pub parts: Builder<Text>,
    pub values: Builder<Expr>,
}

/// Takes a template's part after a hole.
#[tactic(auto, unfolding(qk_reading::specs::Parts::part))]
fn part(alloc: Global, tokens: &mut Tokens<'_, '_>) -> Result<TemplatePart, Fault>
    ensures { ReadsAs part_of (parts.part tokens.old) result tokens.new }
{
    match tokens.peek() {
        Some(Token::Template(Edge::Hole, inside, to)) => {
            tokens.take();
            Ok(TemplatePart {
                text: written_text(alloc, inside)?,
                has_hole: to == Edge::Hole,
            })
        }
        _ => Err(tokens.refuse()),
    }
}

impl<
    V: Fn(Global, &mut Tokens<'_, '_>, Form, usize, Inner) -> Result<Read, Fault>,
    B: Fn(Global, &mut Tokens<'_, '_>, Form, usize) -> Result<Body, Fault>,
    G: Fn(Global, &mut Tokens<'_, '_>, Form, usize, Group) -> Result<List<Stmt>, Fault>,
> Grammar<V, B, G> {
    /// Holes and the parts after them, up to the template's end.
    #[tactic(auto, unfolding(qk_reading::specs::Forms::holes_from))]
    fn filled(&self, tokens: &mut Tokens<'_, '_>, first: Text) -> Result<Filled, Fault>
        requires values { Values self.now.form self.now.room (V.pre self.now.value) (V.post self.now.value) }
        ensures { ReadsAs filled_of (forms.holes_from self.now.form self.now.room (nesting self.now.form self.now.room) (suc (input.left tokens.old)) (first ∷ []) [] tokens.old) result tokens.new }
    {
        let mut parts = Builder::new(self.alloc);
        parts.push(first)?;
        let mut values = Builder::new(self.alloc);
        for _turn in 0..tokens.left() + 1 {
            values.push(self.nested(tokens)?)?;
            let part = part(self.alloc, tokens)?;
            parts.push(part.text)?;
            if !part.has_hole {
                return Ok(Filled { parts, values });
            }
        }
        Err(tokens.refuse())
    }

    /// A template behind its first part, which a hole follows.
    #[tactic(auto, unfolding(qk_reading::specs::Forms::holes))]
    pub fn holes(&self, tokens: &mut Tokens<'_, '_>, first: Text) -> Result<Expr, Fault>
        requires values { Values self.now.form self.now.room (V.pre self.now.value) (V.post self.now.value) }
        ensures { Reads (forms.holes self.now.form self.now.room (nesting self.now.form self.now.room) first tokens.old) result tokens.new }
    {
        let found = self.filled(tokens, first)?;
        Ok(Expr::Template(
            found.parts.into_list(self.alloc)?,
            found.values.into_list(self.alloc)?,
        ))
    }
}
