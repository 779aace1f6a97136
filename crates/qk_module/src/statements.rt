//! Statements, by the word that each begins with.

ghost use Rattle.std.specs.Prelude.{◌≡◌, chars, codes};
ghost use Rattle.qk_reading.specs.Reader.{nesting};
ghost use Rattle.qk_reading.specs.Statements as spec;
ghost use Rattle.qk_token.specs.Reads.{Reads};
ghost use Rattle.qk_grammar.specs.Nests.{Values, Bodies, Groups};
ghost use Rattle.qk_grammar.specs.Seen.{read_of};

use crate::scope::scope;
use crate::steps::Statements;
use qk_ast::{Body, Expr, Form, Stmt};
use qk_grammar::{Group, Inner, Read, enter, name, pattern};
use qk_shared::{Builder, List};
use qk_token::{Fault, Token, Tokens, is_word};
use std::alloc::Global;

impl<
    V: Fn(Global, &mut Tokens<'_, '_>, Form, usize, Inner) -> Result<Read, Fault>,
    B: Fn(Global, &mut Tokens<'_, '_>, Form, usize) -> Result<Body, Fault>,
    G: Fn(Global, &mut Tokens<'_, '_>, Form, usize, Group) -> Result<List<Stmt>, Fault>,
> Statements<V, B, G> {
    /// What `if`, `else`, `while` and `for` hold.
    #[tactic(auto, unfolding(qk_reading::specs::Statements::held))]
    pub fn held(&self, tokens: &mut Tokens<'_, '_>, looped: bool) -> Result<List<Stmt>, Fault>
        requires { Groups self.now.forms.form self.now.forms.room (G.pre self.now.forms.group) (G.post self.now.forms.group) }
        ensures { Reads (spec.held self.now.forms.form self.now.forms.room (nesting self.now.forms.form self.now.forms.room) looped tokens.old) result tokens.new }
    {
        if tokens.eat(b"{") {
            self.forms.statements_of(tokens, Group::Braced(looped))
        } else {
            self.forms.statements_of(tokens, Group::Single(looped))
        }
    }

    /// An expression in brackets.
    #[tactic(auto, unfolding(qk_reading::specs::Statements::condition))]
    fn condition(&self, tokens: &mut Tokens<'_, '_>) -> Result<Expr, Fault>
        requires { Values self.now.forms.form self.now.forms.room (V.pre self.now.forms.value) (V.post self.now.forms.value) }
        ensures { Reads (spec.condition self.now.forms.form self.now.forms.room (nesting self.now.forms.form self.now.forms.room) tokens.old) result tokens.new }
    {
        tokens.expect(b"(")?;
        let x = self.forms.nested(tokens)?;
        tokens.expect(b")")?;
        Ok(x)
    }

    /// A constant, behind `const`.
    #[tactic(auto, unfolding(qk_reading::specs::Statements::declared))]
    fn declared(&self, tokens: &mut Tokens<'_, '_>) -> Result<Stmt, Fault>
        requires values { Values self.now.forms.form self.now.forms.room (V.pre self.now.forms.value) (V.post self.now.forms.value) }
        requires bodies { Bodies self.now.forms.form self.now.forms.room (B.pre self.now.forms.body) (B.post self.now.forms.body) }
        ensures { Reads (spec.declared self.now.forms.form self.now.forms.room (nesting self.now.forms.form self.now.forms.room) tokens.old) result tokens.new }
    {
        let pattern = pattern(self.forms.alloc, tokens, self.forms.room)?;
        tokens.expect(b"=")?;
        let value = self.forms.whole(tokens)?.tree;
        tokens.expect(b";")?;
        Ok(Stmt::Const(pattern, value))
    }

    /// What stands behind `const`. In a built module a scope may begin a block.
    #[tactic(auto, unfolding(qk_reading::specs::Statements::constant))]
    fn constant(&self, tokens: &mut Tokens<'_, '_>, first: bool) -> Result<Stmt, Fault>
        requires values { Values self.now.forms.form self.now.forms.room (V.pre self.now.forms.value) (V.post self.now.forms.value) }
        requires bodies { Bodies self.now.forms.form self.now.forms.room (B.pre self.now.forms.body) (B.post self.now.forms.body) }
        ensures { Reads (spec.constant self.now.forms.form self.now.forms.room (nesting self.now.forms.form self.now.forms.room) first tokens.old) result tokens.new }
    {
        if tokens.sees(b"[") && first && self.forms.form == Form::Built {
            scope(self.forms.alloc, tokens, self.forms.room)
        } else {
            self.declared(tokens)
        }
    }

    /// What stands behind `let`.
    #[tactic(auto, unfolding(qk_reading::specs::Statements::variable))]
    fn variable(&self, tokens: &mut Tokens<'_, '_>) -> Result<Stmt, Fault>
        requires values { Values self.now.forms.form self.now.forms.room (V.pre self.now.forms.value) (V.post self.now.forms.value) }
        requires bodies { Bodies self.now.forms.form self.now.forms.room (B.pre self.now.forms.body) (B.post self.now.forms.body) }
        ensures { Reads (spec.variable self.now.forms.form self.now.forms.room (nesting self.now.forms.form self.now.forms.room) tokens.old) result tokens.new }
    {
        let name = name(self.forms.alloc, tokens)?;
        tokens.expect(b"=")?;
        let value = self.forms.whole(tokens)?.tree;
        tokens.expect(b";")?;
        Ok(Stmt::Let(name, value))
    }

    /// What stands behind `return`.
    #[tactic(auto, unfolding(qk_reading::specs::Statements::returned))]
    fn returned(&self, tokens: &mut Tokens<'_, '_>) -> Result<Stmt, Fault>
        requires values { Values self.now.forms.form self.now.forms.room (V.pre self.now.forms.value) (V.post self.now.forms.value) }
        requires bodies { Bodies self.now.forms.form self.now.forms.room (B.pre self.now.forms.body) (B.post self.now.forms.body) }
        ensures { Reads (spec.returned self.now.forms.form self.now.forms.room (nesting self.now.forms.form self.now.forms.room) tokens.old) result tokens.new }
    {
        if tokens.sees(b";") {
            tokens.take();
            return Ok(Stmt::Return(None));
        }
        let x = self.step(tokens)?;
        tokens.expect(b";")?;
        Ok(Stmt::Return(Some(x)))
    }

    /// A choice whose `else` was met, or wasn't.
    fn chosen(
        &self,
        tokens: &mut Tokens<'_, '_>,
        looped: bool,
        test: Expr,
        held: List<Stmt>,
        other: bool,
    ) -> Result<Stmt, Fault>
        requires { Groups self.now.forms.form self.now.forms.room (G.pre self.now.forms.group) (G.post self.now.forms.group) }
        ensures { Reads (spec.else_by self.now.forms.form self.now.forms.room (nesting self.now.forms.form self.now.forms.room) looped test held other tokens.old) result tokens.new }
    {
        if other {
            let others = self.forms.statements_of(tokens, Group::Otherwise(looped))?;
            return Ok(Stmt::If(test, held, others));
        }
        let alloc = self.forms.alloc;
        Ok(Stmt::If(test, held, Builder::new(alloc).into_list(alloc)?))
    }

    /// What stands behind `if`.
    #[tactic(auto, unfolding(qk_reading::specs::Statements::conditional))]
    fn conditional(&self, tokens: &mut Tokens<'_, '_>, looped: bool) -> Result<Stmt, Fault>
        requires values { Values self.now.forms.form self.now.forms.room (V.pre self.now.forms.value) (V.post self.now.forms.value) }
        requires groups { Groups self.now.forms.form self.now.forms.room (G.pre self.now.forms.group) (G.post self.now.forms.group) }
        ensures { Reads (spec.conditional self.now.forms.form self.now.forms.room (nesting self.now.forms.form self.now.forms.room) looped tokens.old) result tokens.new }
    {
        enter(tokens, self.forms.room)?;
        let test = self.condition(tokens)?;
        let held = self.held(tokens, looped)?;
        let other = tokens.eat_word(b"else");
        self.chosen(tokens, looped, test, held, other)
    }

    /// What stands behind `while`.
    #[tactic(auto, unfolding(qk_reading::specs::Statements::looping))]
    fn looping(&self, tokens: &mut Tokens<'_, '_>) -> Result<Stmt, Fault>
        requires values { Values self.now.forms.form self.now.forms.room (V.pre self.now.forms.value) (V.post self.now.forms.value) }
        requires groups { Groups self.now.forms.form self.now.forms.room (G.pre self.now.forms.group) (G.post self.now.forms.group) }
        ensures { Reads (spec.looping self.now.forms.form self.now.forms.room (nesting self.now.forms.form self.now.forms.room) tokens.old) result tokens.new }
    {
        enter(tokens, self.forms.room)?;
        let test = self.condition(tokens)?;
        Ok(Stmt::While(test, self.held(tokens, true)?))
    }

    /// What stands behind `for`.
    #[tactic(auto, unfolding(qk_reading::specs::Statements::each))]
    fn each(&self, tokens: &mut Tokens<'_, '_>) -> Result<Stmt, Fault>
        requires values { Values self.now.forms.form self.now.forms.room (V.pre self.now.forms.value) (V.post self.now.forms.value) }
        requires groups { Groups self.now.forms.form self.now.forms.room (G.pre self.now.forms.group) (G.post self.now.forms.group) }
        ensures { Reads (spec.each self.now.forms.form self.now.forms.room (nesting self.now.forms.form self.now.forms.room) tokens.old) result tokens.new }
    {
        enter(tokens, self.forms.room)?;
        tokens.expect(b"(")?;
        tokens.expect_word(b"const")?;
        let name = name(self.forms.alloc, tokens)?;
        tokens.expect_name(b"of")?;
        let items = self.forms.nested(tokens)?;
        tokens.expect(b")")?;
        Ok(Stmt::ForOf(name, items, self.held(tokens, true)?))
    }

    /// What stands behind `delete`.
    #[tactic(auto, unfolding(qk_reading::specs::Statements::deleted))]
    fn deleted(&self, tokens: &mut Tokens<'_, '_>) -> Result<Stmt, Fault>
        requires { Values self.now.forms.form self.now.forms.room (V.pre self.now.forms.value) (V.post self.now.forms.value) }
        ensures { Reads (spec.deleted self.now.forms.form self.now.forms.room (nesting self.now.forms.form self.now.forms.room) tokens.old) result tokens.new }
    {
        let found = self.forms.postfix(tokens)?;
        if !found.kind.is_member() {
            return Err(tokens.refuse());
        }
        tokens.expect(b";")?;
        Ok(Stmt::Delete(found.tree))
    }

    /// A step alone.
    #[tactic(auto, unfolding(qk_reading::specs::Statements::done))]
    fn done(&self, tokens: &mut Tokens<'_, '_>) -> Result<Stmt, Fault>
        requires values { Values self.now.forms.form self.now.forms.room (V.pre self.now.forms.value) (V.post self.now.forms.value) }
        requires bodies { Bodies self.now.forms.form self.now.forms.room (B.pre self.now.forms.body) (B.post self.now.forms.body) }
        ensures { Reads (spec.done self.now.forms.form self.now.forms.room (nesting self.now.forms.form self.now.forms.room) tokens.old) result tokens.new }
    {
        let x = self.step(tokens)?;
        tokens.expect(b";")?;
        Ok(Stmt::Do(x))
    }

    /// A statement that begins with that word, or with an expression that does.
    fn word_statement(
        &self,
        tokens: &mut Tokens<'_, '_>,
        looped: bool,
        first: bool,
        word: &str,
    ) -> Result<Stmt, Fault>
        requires values { Values self.now.forms.form self.now.forms.room (V.pre self.now.forms.value) (V.post self.now.forms.value) }
        requires bodies { Bodies self.now.forms.form self.now.forms.room (B.pre self.now.forms.body) (B.post self.now.forms.body) }
        requires groups { Groups self.now.forms.form self.now.forms.room (G.pre self.now.forms.group) (G.post self.now.forms.group) }
        ensures { Reads (spec.word_statement self.now.forms.form self.now.forms.room (nesting self.now.forms.form self.now.forms.room) looped first (chars word.now) tokens.old) result tokens.new }
    {
        if is_word(word, b"const") {
            tokens.take();
            self.constant(tokens, first)
        } else if is_word(word, b"let") {
            tokens.take();
            self.variable(tokens)
        } else if is_word(word, b"return") {
            tokens.take();
            self.returned(tokens)
        } else if is_word(word, b"if") {
            tokens.take();
            self.conditional(tokens, looped)
        } else if is_word(word, b"while") {
            tokens.take();
            self.looping(tokens)
        } else if is_word(word, b"for") {
            tokens.take();
            self.each(tokens)
        } else if is_word(word, b"break") && looped {
            tokens.take();
            tokens.expect(b";")?;
            Ok(Stmt::Break)
        } else if is_word(word, b"continue") && looped {
            tokens.take();
            tokens.expect(b";")?;
            Ok(Stmt::Continue)
        } else if is_word(word, b"delete") {
            tokens.take();
            self.deleted(tokens)
        } else {
            self.done(tokens)
        }
    }

    /// A statement, in a loop or not, and first in its block or not.
    #[tactic(auto, unfolding(qk_reading::specs::Statements::statement))]
    pub fn statement(
        &self,
        tokens: &mut Tokens<'_, '_>,
        looped: bool,
        first: bool,
    ) -> Result<Stmt, Fault>
        requires values { Values self.now.forms.form self.now.forms.room (V.pre self.now.forms.value) (V.post self.now.forms.value) }
        requires bodies { Bodies self.now.forms.form self.now.forms.room (B.pre self.now.forms.body) (B.post self.now.forms.body) }
        requires groups { Groups self.now.forms.form self.now.forms.room (G.pre self.now.forms.group) (G.post self.now.forms.group) }
        ensures { Reads (spec.statement self.now.forms.form self.now.forms.room (nesting self.now.forms.form self.now.forms.room) looped first tokens.old) result tokens.new }
    {
        match tokens.peek() {
            Some(Token::Reserved(word)) => self.word_statement(tokens, looped, first, word),
            Some(Token::Punct(sign)) => {
                if is_word(sign, b"{") {
                    tokens.take();
                    Ok(Stmt::Block(self.forms.statements_of(tokens, Group::Braced(looped))?))
                } else {
                    self.done(tokens)
                }
            }
            _ => self.done(tokens),
        }
    }
}
