//! What the rules share: how much room there is for nesting, and what reads one level further in.

ghost use Rattle.std.specs.Prelude.{◌≡◌};
ghost use Rattle.qk_reading.specs.Input as input;
ghost use Rattle.qk_reading.specs.Forms as forms;
ghost use Rattle.qk_reading.specs.Reader.{nesting};
ghost use Rattle.qk_token.specs.Reads.{Reads, ReadsAs};
ghost use Rattle.qk_grammar.specs.Nests.{Values, Bodies, Groups};
ghost use Rattle.qk_grammar.specs.Seen.{read_of, inner_of, group_of};

use crate::read::{Group, Inner, Read};
use qk_ast::{Body, Expr, Form, Stmt};
use qk_shared::List;
use qk_token::{Fault, Tokens};
use std::alloc::Global;

/// Reads what nests at most `room` levels deep. The function values read one level further in.
#[derive(Clone, Copy)]
pub struct Grammar<V, B, G> {
    pub alloc: Global,
    pub form: Form,
    /// How many levels may still nest.
    pub room: usize,
    pub value: V,
    pub body: B,
    pub group: G,
}

/// What reads an expression, an operand or an element of so much room.
impl<
    V: Fn(Global, &mut Tokens<'_, '_>, Form, usize, Inner) -> Result<Read, Fault>,
    B: Fn(Global, &mut Tokens<'_, '_>, Form, usize) -> Result<Body, Fault>,
    G: Fn(Global, &mut Tokens<'_, '_>, Form, usize, Group) -> Result<List<Stmt>, Fault>,
> Grammar<V, B, G> {
    /// What may stand one level further in.
    pub fn inner(&self, tokens: &mut Tokens<'_, '_>, which: Inner) -> Result<Read, Fault>
        requires { Values self.now.form self.now.room (V.pre self.now.value) (V.post self.now.value) }
        ensures { ReadsAs read_of ((nesting self.now.form self.now.room).value (inner_of which) tokens.old) result tokens.new }
    {
        (self.value)(self.alloc, tokens, self.form, self.room, which)
    }

    /// An expression one level further in.
    pub fn nested(&self, tokens: &mut Tokens<'_, '_>) -> Result<Expr, Fault>
        requires { Values self.now.form self.now.room (V.pre self.now.value) (V.post self.now.value) }
        ensures { Reads (forms.nested self.now.form self.now.room (nesting self.now.form self.now.room) tokens.old) result tokens.new }
    {
        Ok(self.inner(tokens, Inner::Whole)?.tree)
    }

    /// An arrow's body.
    pub fn arrow_body(&self, tokens: &mut Tokens<'_, '_>) -> Result<Body, Fault>
        requires { Bodies self.now.form self.now.room (B.pre self.now.body) (B.post self.now.body) }
        ensures { Reads ((nesting self.now.form self.now.room).body tokens.old) result tokens.new }
    {
        (self.body)(self.alloc, tokens, self.form, self.room)
    }

    /// The statements of a block, or of a part that is none.
    pub fn statements_of(
        &self,
        tokens: &mut Tokens<'_, '_>,
        which: Group,
    ) -> Result<List<Stmt>, Fault>
        requires { Groups self.now.form self.now.room (G.pre self.now.group) (G.post self.now.group) }
        ensures { Reads ((nesting self.now.form self.now.room).group (group_of which) tokens.old) result tokens.new }
    {
        (self.group)(self.alloc, tokens, self.form, self.room, which)
    }
}
