//! Lists in brackets, links and holes.

ghost use Rattle.std.specs.Prelude.{◌≡◌, true};
ghost use Rattle.qk_reading.specs.Input as input;
ghost use Rattle.qk_reading.specs.Forms as forms;
ghost use Rattle.qk_reading.specs.Reader.{nesting};
ghost use Rattle.qk_token.specs.Reads.{Reads, ReadsAs};
ghost use Rattle.qk_token.specs.View.{is_ascii};
ghost use Rattle.qk_grammar.specs.Nests.{Values, Bodies, Groups};

use crate::grammar::Grammar;
use crate::read::{Group, Inner, Read};
use qk_ast::{Body, Expr, Form, Stmt};
use qk_shared::{Builder, List};
use qk_token::{Fault, Tokens};
use std::alloc::Global;

/// An expression list up to its closing sign; true where none or a comma was last.
#[derive(Drop)]
pub struct Args {
    pub items: Builder<Expr>,
    pub comma: bool,
}

/// Behind a token that needs one level more.
#[tactic(auto, unfolding(qk_reading::specs::Input::enter))]
pub fn enter(tokens: &mut Tokens<'_, '_>, room: usize) -> Result<(), Fault>
    ensures { Reads (input.enter room tokens.old) result tokens.new }
{
    if room == 0 {
        return Err(tokens.too_deep());
    }
    Ok(())
}

impl<
    V: Fn(Global, &mut Tokens<'_, '_>, Form, usize, Inner) -> Result<Read, Fault>,
    B: Fn(Global, &mut Tokens<'_, '_>, Form, usize) -> Result<Body, Fault>,
    G: Fn(Global, &mut Tokens<'_, '_>, Form, usize, Group) -> Result<List<Stmt>, Fault>,
> Grammar<V, B, G> {
    /// Expressions between commas up to that sign, which stays, after those found.
    #[tactic(auto, unfolding(qk_reading::specs::Input::separated_from))]
    pub fn separated_from(
        &self,
        tokens: &mut Tokens<'_, '_>,
        closing: &[u8],
        found: Builder<Expr>,
    ) -> Result<Args, Fault>
        requires values { Values self.now.form self.now.room (V.pre self.now.value) (V.post self.now.value) }
        requires ascii { is_ascii closing.now ≡ true }
        ensures { ReadsAs (λ a. (a.items, a.comma)) (input.separated_from (input.Sign closing.now) (forms.nested self.now.form self.now.room (nesting self.now.form self.now.room)) (input.left tokens.old) found tokens.old) result tokens.new }
    {
        let mut items = found;
        for _turn in 0..tokens.left() {
            if tokens.sees(closing) {
                return Ok(Args { items, comma: true });
            }
            items.push(self.nested(tokens)?)?;
            if !tokens.eat(b",") {
                return Ok(Args {
                    items,
                    comma: false,
                });
            }
        }
        Err(tokens.refuse())
    }

    /// Expressions between commas up to that sign, which stays.
    #[tactic(auto, unfolding(qk_reading::specs::Input::separated))]
    fn separated(&self, tokens: &mut Tokens<'_, '_>, closing: &[u8]) -> Result<Args, Fault>
        requires values { Values self.now.form self.now.room (V.pre self.now.value) (V.post self.now.value) }
        requires ascii { is_ascii closing.now ≡ true }
        ensures { ReadsAs (λ a. (a.items, a.comma)) (input.separated (input.Sign closing.now) (forms.nested self.now.form self.now.room (nesting self.now.form self.now.room)) tokens.old) result tokens.new }
    {
        self.separated_from(tokens, closing, Builder::new(self.alloc))
    }

    #[tactic(auto, unfolding(qk_reading::specs::Forms::args))]
    pub fn args(&self, tokens: &mut Tokens<'_, '_>, closing: &[u8]) -> Result<Args, Fault>
        requires values { Values self.now.form self.now.room (V.pre self.now.value) (V.post self.now.value) }
        requires ascii { is_ascii closing.now ≡ true }
        ensures { ReadsAs (λ a. (a.items, a.comma)) (forms.args self.now.form self.now.room (nesting self.now.form self.now.room) (input.Sign closing.now) tokens.old) result tokens.new }
    {
        enter(tokens, self.room)?;
        let found = self.separated(tokens, closing)?;
        tokens.expect(closing)?;
        Ok(found)
    }
}
