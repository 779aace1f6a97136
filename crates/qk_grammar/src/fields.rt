//! Records.

ghost use Rattle.std.specs.Prelude.{◌≡◌, chars, codes};
ghost use Rattle.qk_ast.specs.Tree.{bytes};
ghost use Rattle.qk_reading.specs.Input as input;
ghost use Rattle.qk_reading.specs.Parts as parts;
ghost use Rattle.qk_reading.specs.Forms as forms;
ghost use Rattle.qk_reading.specs.Reader.{nesting};
ghost use Rattle.qk_token.specs.Reads.{Reads};
ghost use Rattle.qk_grammar.specs.Nests.{Values, Bodies, Groups};
ghost use Rattle.qk_grammar.specs.Seen.{items_of};

use crate::grammar::Grammar;
use crate::keyed::Fields;
use crate::lists::enter;
use crate::read::{Group, Inner, Read};
use qk_ast::{Body, Expr, Field, Form, Stmt};
use qk_shared::{List, Text};
use qk_token::{Fault, Token, Tokens, name_text, written_text};
use std::alloc::Global;

/// Takes a key, which none of the fields may have.
#[tactic(auto, unfolding(qk_reading::specs::Parts::fresh))]
fn fresh(tokens: &mut Tokens<'_, '_>, found: &Fields, key: &Text) -> Result<(), Fault>
    ensures { Reads (parts.fresh key.now found.now tokens.old) result tokens.new }
{
    if found.has_key(key) {
        return Err(tokens.refuse());
    }
    tokens.take();
    Ok(())
}

impl<
    V: Fn(Global, &mut Tokens<'_, '_>, Form, usize, Inner) -> Result<Read, Fault>,
    B: Fn(Global, &mut Tokens<'_, '_>, Form, usize) -> Result<Body, Fault>,
    G: Fn(Global, &mut Tokens<'_, '_>, Form, usize, Group) -> Result<List<Stmt>, Fault>,
> Grammar<V, B, G> {
    /// What follows a key that is no name.
    #[tactic(auto, unfolding(qk_reading::specs::Forms::field_value))]
    fn field_value(&self, tokens: &mut Tokens<'_, '_>, key: Text) -> Result<Field, Fault>
        requires values { Values self.now.form self.now.room (V.pre self.now.value) (V.post self.now.value) }
        ensures { Reads (forms.field_value self.now.form self.now.room (nesting self.now.form self.now.room) key tokens.old) result tokens.new }
    {
        tokens.expect(b":")?;
        let value = self.nested(tokens)?;
        Ok(Field { key, value })
    }

    /// What follows a name: its value, or else the name is the value.
    fn named(&self, tokens: &mut Tokens<'_, '_>, name: &str, key: Text) -> Result<Field, Fault>
        requires values { Values self.now.form self.now.room (V.pre self.now.value) (V.post self.now.value) }
        requires key { key ≡ bytes (chars name.now) }
        ensures { Reads (forms.named_by self.now.form self.now.room (nesting self.now.form self.now.room) (chars name.now) (input.sees (input.Sign (codes ":")) tokens.old) (input.after (input.Sign (codes ":")) tokens.old)) result tokens.new }
    {
        let value = if tokens.eat(b":") {
            self.nested(tokens)?
        } else {
            Expr::Name(key.share()?)
        };
        Ok(Field { key, value })
    }

    /// A field whose key none of those found has.
    #[tactic(auto, unfolding(qk_reading::specs::Forms::field))]
    fn field(&self, tokens: &mut Tokens<'_, '_>, found: &Fields) -> Result<Field, Fault>
        requires values { Values self.now.form self.now.room (V.pre self.now.value) (V.post self.now.value) }
        ensures { Reads (forms.field self.now.form self.now.room (nesting self.now.form self.now.room) found.now tokens.old) result tokens.new }
    {
        match tokens.peek() {
            Some(Token::Name(name)) => {
                let key = name_text(self.alloc, name)?;
                fresh(tokens, found, &key)?;
                self.named(tokens, name, key)
            }
            Some(Token::Reserved(word)) => {
                let key = name_text(self.alloc, word)?;
                fresh(tokens, found, &key)?;
                self.field_value(tokens, key)
            }
            Some(Token::Text(_, inside)) => {
                let key = written_text(self.alloc, inside)?;
                fresh(tokens, found, &key)?;
                self.field_value(tokens, key)
            }
            _ => Err(tokens.refuse()),
        }
    }

    /// Fields between commas up to `}`, which stays.
    #[tactic(auto, unfolding(qk_reading::specs::Input::collected, qk_reading::specs::Input::collected_from))]
    fn collected(&self, tokens: &mut Tokens<'_, '_>) -> Result<Fields, Fault>
        requires values { Values self.now.form self.now.room (V.pre self.now.value) (V.post self.now.value) }
        ensures { Reads (items_of (input.collected (input.Sign (codes "}")) (forms.field self.now.form self.now.room (nesting self.now.form self.now.room))) tokens.old) result tokens.new }
    {
        let mut found = Fields::new(self.alloc);
        for _turn in 0..tokens.left() {
            if tokens.sees(b"}") {
                return Ok(found);
            }
            let field = self.field(tokens, &found)?;
            found = found.with(self.alloc, field)?;
            if !tokens.eat(b",") {
                return Ok(found);
            }
        }
        Err(tokens.refuse())
    }

    /// A record behind its `{`.
    #[tactic(auto, unfolding(qk_reading::specs::Forms::fields))]
    pub fn fields(&self, tokens: &mut Tokens<'_, '_>) -> Result<List<Field>, Fault>
        requires values { Values self.now.form self.now.room (V.pre self.now.value) (V.post self.now.value) }
        ensures { Reads (forms.fields self.now.form self.now.room (nesting self.now.form self.now.room) tokens.old) result tokens.new }
    {
        enter(tokens, self.room)?;
        let found = self.collected(tokens)?;
        tokens.expect(b"}")?;
        Ok(found.into_list(self.alloc)?)
    }
}
