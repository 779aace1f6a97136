//! Blocks, parts that are none, and what follows `else`.

ghost use Rattle.std.specs.Prelude.{◌≡◌, true, []};
ghost use Rattle.qk_reading.specs.Input as input;
ghost use Rattle.qk_reading.specs.Reader.{nesting};
ghost use Rattle.qk_reading.specs.Statements as spec;
ghost use Rattle.qk_token.specs.Reads.{Reads};
ghost use Rattle.qk_grammar.specs.Nests.{Values, Bodies, Groups};
ghost use Rattle.qk_grammar.specs.Seen.{group_of};

use crate::steps::Statements;
use qk_ast::{Body, Expr, Form, Stmt};
use qk_grammar::{Group, Inner, Read, enter};
use qk_shared::{Builder, List};
use qk_token::{Fault, Tokens};
use std::alloc::Global;

impl<
    V: Fn(Global, &mut Tokens<'_, '_>, Form, usize, Inner) -> Result<Read, Fault>,
    B: Fn(Global, &mut Tokens<'_, '_>, Form, usize) -> Result<Body, Fault>,
    G: Fn(Global, &mut Tokens<'_, '_>, Form, usize, Group) -> Result<List<Stmt>, Fault>,
> Statements<V, B, G> {
    /// Statements up to `}`, which stays.
    #[tactic(auto, unfolding(qk_reading::specs::Statements::statements_from))]
    fn statements(&self, tokens: &mut Tokens<'_, '_>, looped: bool) -> Result<List<Stmt>, Fault>
        requires values { Values self.now.forms.form self.now.forms.room (V.pre self.now.forms.value) (V.post self.now.forms.value) }
        requires bodies { Bodies self.now.forms.form self.now.forms.room (B.pre self.now.forms.body) (B.post self.now.forms.body) }
        requires groups { Groups self.now.forms.form self.now.forms.room (G.pre self.now.forms.group) (G.post self.now.forms.group) }
        ensures { Reads (spec.statements_from self.now.forms.form self.now.forms.room (nesting self.now.forms.form self.now.forms.room) looped true (input.left tokens.old) [] tokens.old) result tokens.new }
    {
        let alloc = self.forms.alloc;
        let mut found = Builder::new(alloc);
        let mut first = true;
        for _turn in 0..tokens.left() {
            if tokens.sees(b"}") {
                return Ok(found.into_list(alloc)?);
            }
            found.push(self.statement(tokens, looped, first)?)?;
            first = false;
        }
        Err(tokens.refuse())
    }

    /// A block's statements behind its `{`, and its `}`.
    #[tactic(auto, unfolding(qk_reading::specs::Statements::block))]
    fn block(&self, tokens: &mut Tokens<'_, '_>, looped: bool) -> Result<List<Stmt>, Fault>
        requires values { Values self.now.forms.form self.now.forms.room (V.pre self.now.forms.value) (V.post self.now.forms.value) }
        requires bodies { Bodies self.now.forms.form self.now.forms.room (B.pre self.now.forms.body) (B.post self.now.forms.body) }
        requires groups { Groups self.now.forms.form self.now.forms.room (G.pre self.now.forms.group) (G.post self.now.forms.group) }
        ensures { Reads (spec.block self.now.forms.form self.now.forms.room (nesting self.now.forms.form self.now.forms.room) looped tokens.old) result tokens.new }
    {
        let found = self.statements(tokens, looped)?;
        tokens.expect(b"}")?;
        Ok(found)
    }

    /// One statement that is no block. No declaration stands alone.
    #[tactic(auto, unfolding(qk_reading::specs::Statements::single, qk_reading::specs::Input::sees))]
    fn single(&self, tokens: &mut Tokens<'_, '_>, looped: bool) -> Result<List<Stmt>, Fault>
        requires values { Values self.now.forms.form self.now.forms.room (V.pre self.now.forms.value) (V.post self.now.forms.value) }
        requires bodies { Bodies self.now.forms.form self.now.forms.room (B.pre self.now.forms.body) (B.post self.now.forms.body) }
        requires groups { Groups self.now.forms.form self.now.forms.room (G.pre self.now.forms.group) (G.post self.now.forms.group) }
        ensures { Reads (spec.single self.now.forms.form self.now.forms.room (nesting self.now.forms.form self.now.forms.room) looped tokens.old) result tokens.new }
    {
        if tokens.sees_word(b"const") || tokens.sees_word(b"let") {
            return Err(tokens.refuse());
        }
        let mut found = Builder::new(self.forms.alloc);
        found.push(self.statement(tokens, looped, false)?)?;
        Ok(found.into_list(self.forms.alloc)?)
    }

    /// What follows `else`.
    #[tactic(auto, unfolding(qk_reading::specs::Statements::group))]
    fn otherwise(&self, tokens: &mut Tokens<'_, '_>, looped: bool) -> Result<List<Stmt>, Fault>
        requires { Groups self.now.forms.form self.now.forms.room (G.pre self.now.forms.group) (G.post self.now.forms.group) }
        ensures { Reads (spec.group self.now.forms.form self.now.forms.room (nesting self.now.forms.form self.now.forms.room) (input.Otherwise looped) tokens.old) result tokens.new }
    {
        enter(tokens, self.forms.room)?;
        self.held(tokens, looped)
    }

    /// The statements of a block, or of a part that is none.
    #[tactic(auto, unfolding(qk_reading::specs::Statements::group))]
    pub fn group(&self, tokens: &mut Tokens<'_, '_>, which: Group) -> Result<List<Stmt>, Fault>
        requires values { Values self.now.forms.form self.now.forms.room (V.pre self.now.forms.value) (V.post self.now.forms.value) }
        requires bodies { Bodies self.now.forms.form self.now.forms.room (B.pre self.now.forms.body) (B.post self.now.forms.body) }
        requires groups { Groups self.now.forms.form self.now.forms.room (G.pre self.now.forms.group) (G.post self.now.forms.group) }
        ensures { Reads (spec.group self.now.forms.form self.now.forms.room (nesting self.now.forms.form self.now.forms.room) (group_of which) tokens.old) result tokens.new }
    {
        match which {
            Group::Braced(looped) => self.block(tokens, looped),
            Group::Single(looped) => self.single(tokens, looped),
            Group::Otherwise(looped) => self.otherwise(tokens, looped),
        }
    }
}
