//! Steps, and an arrow's body.

ghost use Rattle.std.specs.Prelude.{◌≡◌};
ghost use Rattle.qk_reading.specs.Reader.{nesting};
ghost use Rattle.qk_reading.specs.Statements as spec;
ghost use Rattle.qk_token.specs.Reads.{Reads};
ghost use Rattle.qk_grammar.specs.Nests.{Values, Bodies, Groups};

use qk_ast::{AssignOp, Body, Expr, Form, Stmt};
use qk_grammar::{Grammar, Group, Inner, Read};
use qk_shared::{List, Shared};
use qk_token::{Fault, Tokens};
use std::alloc::Global;

/// Reads statements that nest as deep as `forms` lets them.
#[derive(Clone, Copy)]
pub struct Statements<V, B, G> {
    pub forms: Grammar<V, B, G>,
}

impl<
    V: Fn(Global, &mut Tokens<'_, '_>, Form, usize, Inner) -> Result<Read, Fault>,
    B: Fn(Global, &mut Tokens<'_, '_>, Form, usize) -> Result<Body, Fault>,
    G: Fn(Global, &mut Tokens<'_, '_>, Form, usize, Group) -> Result<List<Stmt>, Fault>,
> Statements<V, B, G> {
    /// What a target becomes by what follows it.
    fn assigned(
        &self,
        tokens: &mut Tokens<'_, '_>,
        target: Expr,
        op: Option<AssignOp>,
    ) -> Result<Expr, Fault>
        requires values { Values self.now.forms.form self.now.forms.room (V.pre self.now.forms.value) (V.post self.now.forms.value) }
        requires bodies { Bodies self.now.forms.form self.now.forms.room (B.pre self.now.forms.body) (B.post self.now.forms.body) }
        ensures { Reads (spec.assign_by self.now.forms.form self.now.forms.room (nesting self.now.forms.form self.now.forms.room) target op tokens.old) result tokens.new }
    {
        let alloc = self.forms.alloc;
        match op {
            Some(op) => {
                let value = self.forms.whole(tokens)?.tree;
                Ok(Expr::Assign(op, Shared::new(alloc, target)?, Shared::new(alloc, value)?))
            }
            None => match tokens.bump_sign() {
                Some(up) => Ok(Expr::Step(up, Shared::new(alloc, target)?)),
                None => Ok(target),
            },
        }
    }

    /// An expression, or a target with what is assigned to it.
    #[tactic(auto, unfolding(qk_reading::specs::Statements::step))]
    pub fn step(&self, tokens: &mut Tokens<'_, '_>) -> Result<Expr, Fault>
        requires values { Values self.now.forms.form self.now.forms.room (V.pre self.now.forms.value) (V.post self.now.forms.value) }
        requires bodies { Bodies self.now.forms.form self.now.forms.room (B.pre self.now.forms.body) (B.post self.now.forms.body) }
        ensures { Reads (spec.step self.now.forms.form self.now.forms.room (nesting self.now.forms.form self.now.forms.room) tokens.old) result tokens.new }
    {
        let found = self.forms.whole(tokens)?;
        if !found.kind.is_target() {
            return Ok(found.tree);
        }
        let op = tokens.assign_sign();
        self.assigned(tokens, found.tree, op)
    }

    /// What stands behind an arrow's `=>`.
    #[tactic(auto, unfolding(qk_reading::specs::Statements::body))]
    pub fn body(&self, tokens: &mut Tokens<'_, '_>) -> Result<Body, Fault>
        requires values { Values self.now.forms.form self.now.forms.room (V.pre self.now.forms.value) (V.post self.now.forms.value) }
        requires bodies { Bodies self.now.forms.form self.now.forms.room (B.pre self.now.forms.body) (B.post self.now.forms.body) }
        requires groups { Groups self.now.forms.form self.now.forms.room (G.pre self.now.forms.group) (G.post self.now.forms.group) }
        ensures { Reads (spec.body self.now.forms.form self.now.forms.room (nesting self.now.forms.form self.now.forms.room) tokens.old) result tokens.new }
    {
        if tokens.eat(b"{") {
            return Ok(Body::Block(self.forms.statements_of(tokens, Group::Braced(false))?));
        }
        Ok(Body::Value(Shared::new(self.forms.alloc, self.step(tokens)?)?))
    }
}
