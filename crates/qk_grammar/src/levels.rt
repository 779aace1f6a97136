//! Operators by their levels, choices and arrows.

ghost use Rattle.std.specs.Prelude.{◌≡◌, ◌≢◌, Err, IfOk, IfErr};
ghost use Rattle.qk_reading.specs.Input as input;
ghost use Rattle.qk_reading.specs.Forms as forms;
ghost use Rattle.qk_reading.specs.Parts as parts;
ghost use Rattle.qk_reading.specs.Reader.{nesting};
ghost use Rattle.qk_token.specs.Reads.{Reads, ReadsAs, fault_of};
ghost use Rattle.qk_token.specs.Seen.{level_of};
ghost use Rattle.qk_grammar.specs.Nests.{Values, Bodies, Groups};
ghost use Rattle.qk_grammar.specs.Seen.{read_of, inner_of};
ghost use Rattle.qk_grammar.specs.Levels.{branches, later_head, tighter_of};
ghost use Rattle.qk_token.specs.declared.fault.Fault.TheVariants.{Memory};

use crate::grammar::Grammar;
use crate::parts::arrow_head;
use crate::read::{Group, Inner, Read};
use qk_ast::{Arrow, Bin, Body, Expr, Form, Operand, Stmt, Un};
use qk_shared::{Builder, List, Shared};
use qk_token::{Fault, Kind, Level, Tokens, arrow_ahead};
use std::alloc::{AllocError, Global};

/// An expression and the operands of a level behind it; where there are none the expression alone.
fn chained(
    alloc: Global,
    level: Level,
    first: Read,
    more: Builder<Operand>,
) -> Result<Read, AllocError>
    ensures { IfOk result (λ r. read_of r ≡ parts.chained (level_of level) (read_of first) more) }
{
    if more.len() == 0 {
        return Ok(first);
    }
    Ok(Read {
        tree: Expr::Chain(Shared::new(alloc, first.tree)?, more.into_list(alloc)?),
        kind: Kind::Chained(level),
    })
}

fn choice_of(alloc: Global, test: Expr, yes: Expr, no: Expr) -> Result<Read, Fault>
    ensures tree { IfOk result (λ r. read_of r ≡ input.reading (Expr.Cond test yes no) input.Loose) }
    ensures memory { IfErr result (λ e. e ≡ Memory) }
{
    let test = Shared::new(alloc, test)?;
    let yes = Shared::new(alloc, yes)?;
    let no = Shared::new(alloc, no)?;
    Ok(Read {
        tree: Expr::Cond(test, yes, no),
        kind: Kind::Loose,
    })
}

/// Where an expression is refused and no arrow comes, its head is tried as well, and the later fault counts.
fn later_head(alloc: Global, tokens: &mut Tokens<'_, '_>, room: usize, left: usize) -> Fault
    ensures { result ≢ Memory → later_head room tokens.old left ≡ Err (fault_of result) }
{
    match arrow_head(alloc, tokens, room) {
        Ok(_) => Fault::Syntax(left),
        Err(Fault::Syntax(other)) => Fault::Syntax(left.min(other)),
        Err(Fault::TooDeep(other)) => if left <= other {
            Fault::Syntax(left)
        } else {
            Fault::TooDeep(other)
        },
        Err(Fault::Memory) => Fault::Memory,
    }
}

/// An expression that stands for itself.
fn atomic(tree: Expr) -> Read
    ensures { read_of result ≡ parts.atomic tree }
{
    Read {
        tree,
        kind: Kind::Atomic,
    }
}

impl<
    V: Fn(Global, &mut Tokens<'_, '_>, Form, usize, Inner) -> Result<Read, Fault>,
    B: Fn(Global, &mut Tokens<'_, '_>, Form, usize) -> Result<Body, Fault>,
    G: Fn(Global, &mut Tokens<'_, '_>, Form, usize, Group) -> Result<List<Stmt>, Fault>,
> Grammar<V, B, G> {
    /// An operand behind `!` or `-`.
    fn prefixed(&self, tokens: &mut Tokens<'_, '_>, op: Un) -> Result<Read, Fault>
        requires { Values self.now.form self.now.room (V.pre self.now.value) (V.post self.now.value) }
        ensures { ReadsAs read_of (forms.prefixed self.now.form self.now.room (nesting self.now.form self.now.room) op tokens.old) result tokens.new }
    {
        let operand = self.inner(tokens, Inner::Tight)?;
        Ok(Read {
            tree: Expr::Unary(op, Shared::new(self.alloc, operand.tree)?),
            kind: Kind::Prefixed,
        })
    }

    /// A unary operator and its operand, or a postfix form.
    #[tactic(auto, unfolding(qk_reading::specs::Forms::unary))]
    fn unary(&self, tokens: &mut Tokens<'_, '_>) -> Result<Read, Fault>
        requires { Values self.now.form self.now.room (V.pre self.now.value) (V.post self.now.value) }
        ensures { ReadsAs read_of (forms.unary self.now.form self.now.room (nesting self.now.form self.now.room) tokens.old) result tokens.new }
    {
        if tokens.eat(b"!") {
            return self.prefixed(tokens, Un::Not);
        }
        if tokens.eat(b"-") {
            return self.prefixed(tokens, Un::Neg);
        }
        self.postfix(tokens)
    }

    /// What an operand of the level is read by.
    #[cycle(levels)]
    #[tactic(auto, unfolding(qk_reading::specs::Forms::product, qk_reading::specs::Forms::sum, qk_reading::specs::Forms::order, qk_reading::specs::Forms::equality, qk_reading::specs::Forms::conjunction))]
    fn tighter(&self, tokens: &mut Tokens<'_, '_>, level: Level) -> Result<Read, Fault>
        requires { Values self.now.form self.now.room (V.pre self.now.value) (V.post self.now.value) }
        ensures { ReadsAs read_of (tighter_of self.now.form self.now.room (level_of level) tokens.old) result tokens.new }
    {
        match level {
            Level::Or => self.chain(tokens, Level::And),
            Level::Coalesce => self.chain(tokens, Level::Same),
            Level::And => self.chain(tokens, Level::Same),
            Level::Same => self.chain(tokens, Level::Order),
            Level::Order => self.chain(tokens, Level::Sum),
            Level::Sum => self.chain(tokens, Level::Product),
            Level::Product => self.unary(tokens),
        }
    }

    /// The operands of the level behind the first.
    #[cycle(levels)]
    #[tactic(auto, unfolding(qk_reading::specs::Input::many, qk_reading::specs::Input::many_from, qk_reading::specs::Parts::operand))]
    fn operands(&self, tokens: &mut Tokens<'_, '_>, level: Level) -> Result<Builder<Operand>, Fault>
        requires { Values self.now.form self.now.room (V.pre self.now.value) (V.post self.now.value) }
        ensures { Reads (input.many (parts.operand (level_of level) (tighter_of self.now.form self.now.room (level_of level))) tokens.old) result tokens.new }
    {
        let mut found = Builder::new(self.alloc);
        for _turn in 0..tokens.left() {
            let Some(op) = tokens.operator(level) else {
                return Ok(found);
            };
            let value = self.tighter(tokens, level)?.tree;
            found.push(Operand { op, value })?;
        }
        Ok(found)
    }

    /// Operands of a level, or one alone.
    #[cycle(levels)]
    #[tactic(auto, unfolding(qk_reading::specs::Parts::chain))]
    fn chain(&self, tokens: &mut Tokens<'_, '_>, level: Level) -> Result<Read, Fault>
        requires { Values self.now.form self.now.room (V.pre self.now.value) (V.post self.now.value) }
        ensures { ReadsAs read_of (parts.chain (level_of level) (tighter_of self.now.form self.now.room (level_of level)) tokens.old) result tokens.new }
    {
        let first = self.tighter(tokens, level)?;
        let more = self.operands(tokens, level)?;
        Ok(chained(self.alloc, level, first, more)?)
    }

    /// A chain of `??` or of `||`, or what binds tighter.
    #[tactic(auto, unfolding(qk_reading::specs::Forms::logic, qk_reading::specs::Forms::conjunction))]
    fn logic(&self, tokens: &mut Tokens<'_, '_>) -> Result<Read, Fault>
        requires { Values self.now.form self.now.room (V.pre self.now.value) (V.post self.now.value) }
        ensures { ReadsAs read_of (forms.logic self.now.form self.now.room (nesting self.now.form self.now.room) tokens.old) result tokens.new }
    {
        let first = self.chain(tokens, Level::And)?;
        let level = if tokens.sees(b"??") && first.kind.tightness() >= 3 {
            Level::Coalesce
        } else {
            Level::Or
        };
        let more = self.operands(tokens, level)?;
        Ok(chained(self.alloc, level, first, more)?)
    }

    /// What a choice has behind its `?`.
    fn branches(&self, tokens: &mut Tokens<'_, '_>) -> Result<(Expr, Expr), Fault>
        requires { Values self.now.form self.now.room (V.pre self.now.value) (V.post self.now.value) }
        ensures { Reads (branches self.now.form self.now.room tokens.old) result tokens.new }
    {
        let yes = self.nested(tokens)?;
        tokens.expect(b":")?;
        let no = self.nested(tokens)?;
        Ok((yes, no))
    }

    /// A choice, or its test alone.
    #[tactic(auto, unfolding(qk_reading::specs::Forms::choice))]
    fn choice(&self, tokens: &mut Tokens<'_, '_>) -> Result<Read, Fault>
        requires { Values self.now.form self.now.room (V.pre self.now.value) (V.post self.now.value) }
        ensures { ReadsAs read_of (forms.choice self.now.form self.now.room (nesting self.now.form self.now.room) tokens.old) result tokens.new }
    {
        let test = self.logic(tokens)?;
        if !tokens.eat(b"?") {
            return Ok(test);
        }
        let (yes, no) = self.branches(tokens)?;
        choice_of(self.alloc, test.tree, yes, no)
    }

    #[tactic(auto, unfolding(qk_reading::specs::Forms::arrow))]
    fn arrow(&self, tokens: &mut Tokens<'_, '_>) -> Result<Read, Fault>
        requires { Bodies self.now.form self.now.room (B.pre self.now.body) (B.post self.now.body) }
        ensures { ReadsAs read_of (forms.arrow self.now.form self.now.room (nesting self.now.form self.now.room) tokens.old) result tokens.new }
    {
        let head = arrow_head(self.alloc, tokens, self.room)?;
        let body = self.arrow_body(tokens)?;
        let arrow = Arrow {
            place: head.place,
            params: head.params,
            body,
        };
        Ok(Read {
            tree: Expr::Arrow(Shared::new(self.alloc, arrow)?),
            kind: Kind::Loose,
        })
    }

    /// An expression.
    #[tactic(auto, unfolding(qk_reading::specs::Forms::whole))]
    pub fn whole(&self, tokens: &mut Tokens<'_, '_>) -> Result<Read, Fault>
        requires values { Values self.now.form self.now.room (V.pre self.now.value) (V.post self.now.value) }
        requires bodies { Bodies self.now.form self.now.room (B.pre self.now.body) (B.post self.now.body) }
        ensures { ReadsAs read_of (forms.whole self.now.form self.now.room (nesting self.now.form self.now.room) tokens.old) result tokens.new }
    {
        if arrow_ahead(tokens) {
            return self.arrow(tokens);
        }
        let mut before = tokens.fork();
        match self.choice(tokens) {
            Err(Fault::Syntax(left)) => Err(later_head(self.alloc, &mut before, self.room, left)),
            read => read,
        }
    }

    /// An expression, an operand of a unary operator, or an element.
    pub fn level(&self, tokens: &mut Tokens<'_, '_>, which: Inner) -> Result<Read, Fault>
        requires values { Values self.now.form self.now.room (V.pre self.now.value) (V.post self.now.value) }
        requires bodies { Bodies self.now.form self.now.room (B.pre self.now.body) (B.post self.now.body) }
        ensures { ReadsAs read_of (forms.level self.now.form self.now.room (nesting self.now.form self.now.room) (inner_of which) tokens.old) result tokens.new }
    {
        match which {
            Inner::Whole => self.whole(tokens),
            Inner::Tight => self.unary(tokens),
            Inner::Tagged => Ok(atomic(self.tagged(tokens)?)),
            Inner::Untagged => Ok(atomic(self.untagged(tokens)?)),
        }
    }
}
