//! Atoms: what stands for itself, and what brackets, quotes and tags hold.

ghost use Rattle.std.specs.Prelude.{◌≡◌, chars, Some};
ghost use Rattle.qk_ast.specs.Tokens as grammar;
ghost use Rattle.qk_reading.specs.Input as input;
ghost use Rattle.qk_reading.specs.Parts as parts;
ghost use Rattle.qk_reading.specs.Forms as forms;
ghost use Rattle.qk_reading.specs.Reader.{nesting};
ghost use Rattle.qk_token.specs.Pieces.{pieces_of};
ghost use Rattle.qk_token.specs.Reads.{Reads, ReadsAs};
ghost use Rattle.qk_token.specs.View.{edge_of};
ghost use Rattle.qk_grammar.specs.Nests.{Values, Bodies, Groups};
ghost use Rattle.qk_grammar.specs.Seen.{read_of, inner_of};

use crate::grammar::Grammar;
use crate::read::{Group, Inner, Read};
use qk_ast::{Body, Expr, Form, Stmt};
use qk_shared::{Builder, List};
use qk_token::{Edge, Fault, Kind, Token, Tokens, is_word, name_text, written_text};
use std::alloc::{AllocError, Global};

/// The literal that a word is.
fn literal(word: &str) -> Option<Expr>
    ensures { result ≡ parts.literal (chars word.now) }
{
    if is_word(word, b"undefined") {
        Some(Expr::Undefined)
    } else if is_word(word, b"null") {
        Some(Expr::Null)
    } else if is_word(word, b"true") {
        Some(Expr::Bool(true))
    } else if is_word(word, b"false") {
        Some(Expr::Bool(false))
    } else {
        None
    }
}

/// Takes the word, which comes next and must be a literal.
fn word(tokens: &mut Tokens<'_, '_>, word: &str) -> Result<Expr, Fault>
    ensures { Reads (parts.word_by (parts.literal (chars word.now)) tokens.old) result tokens.new }
{
    match literal(word) {
        Some(x) => {
            tokens.take();
            Ok(x)
        }
        None => Err(tokens.refuse()),
    }
}

impl<
    V: Fn(Global, &mut Tokens<'_, '_>, Form, usize, Inner) -> Result<Read, Fault>,
    B: Fn(Global, &mut Tokens<'_, '_>, Form, usize) -> Result<Body, Fault>,
    G: Fn(Global, &mut Tokens<'_, '_>, Form, usize, Group) -> Result<List<Stmt>, Fault>,
> Grammar<V, B, G> {
    /// An expression behind its `(`.
    #[tactic(auto, unfolding(qk_reading::specs::Forms::bracketed))]
    fn bracketed(&self, tokens: &mut Tokens<'_, '_>) -> Result<Expr, Fault>
        requires values { Values self.now.form self.now.room (V.pre self.now.value) (V.post self.now.value) }
        ensures { Reads (forms.bracketed self.now.form self.now.room (nesting self.now.form self.now.room) tokens.old) result tokens.new }
    {
        let x = self.nested(tokens)?;
        tokens.expect(b")")?;
        Ok(x)
    }

    /// An element behind its `<` or `<>`.
    fn element(&self, tokens: &mut Tokens<'_, '_>, which: Inner) -> Result<Expr, Fault>
        requires values { Values self.now.form self.now.room (V.pre self.now.value) (V.post self.now.value) }
        ensures { Reads (forms.element self.now.form self.now.room (nesting self.now.form self.now.room) (inner_of which) tokens.old) result tokens.new }
    {
        Ok(self.inner(tokens, which)?.tree)
    }

    /// An element that the sign begins.
    pub fn start(&self, tokens: &mut Tokens<'_, '_>, sign: &str) -> Result<Expr, Fault>
        requires values { Values self.now.form self.now.room (V.pre self.now.value) (V.post self.now.value) }
        ensures { Reads (forms.start_by self.now.form self.now.room (nesting self.now.form self.now.room) (chars sign.now) tokens.old) result tokens.new }
    {
        if is_word(sign, b"<") {
            tokens.take();
            self.element(tokens, Inner::Tagged)
        } else if is_word(sign, b"<>") {
            tokens.take();
            self.element(tokens, Inner::Untagged)
        } else {
            Err(tokens.refuse())
        }
    }

    /// What the bracket begins: an expression in brackets, a list, a record.
    fn bracket(&self, tokens: &mut Tokens<'_, '_>, sign: &str) -> Result<Expr, Fault>
        requires values { Values self.now.form self.now.room (V.pre self.now.value) (V.post self.now.value) }
        ensures { Reads (forms.bracket_by self.now.form self.now.room (nesting self.now.form self.now.room) (chars sign.now) tokens.old) result tokens.new }
    {
        if is_word(sign, b"(") {
            tokens.take();
            self.bracketed(tokens)
        } else if is_word(sign, b"[") {
            tokens.take();
            let found = self.args(tokens, b"]")?;
            Ok(Expr::List(found.items.into_list(self.alloc)?))
        } else if is_word(sign, b"{") {
            tokens.take();
            Ok(Expr::Record(self.fields(tokens)?))
        } else {
            Err(tokens.refuse())
        }
    }

    /// Takes a template's first part, and reads the template on.
    fn template(&self, tokens: &mut Tokens<'_, '_>, inside: &str, to: Edge) -> Result<Expr, Fault>
        requires values { Values self.now.form self.now.room (V.pre self.now.value) (V.post self.now.value) }
        ensures { ReadsAs parts.atomic (forms.atom_by self.now.form self.now.room (nesting self.now.form self.now.room) (Some (grammar.Template grammar.Backquote (pieces_of (chars inside.now)) (edge_of to))) tokens.old) result tokens.new }
    {
        let text = written_text(self.alloc, inside)?;
        tokens.take();
        if to == Edge::Hole {
            return self.holes(tokens, text);
        }
        let mut parts = Builder::new(self.alloc);
        parts.push(text)?;
        let values = Builder::new(self.alloc);
        Ok(Expr::Template(parts.into_list(self.alloc)?, values.into_list(self.alloc)?))
    }

    /// What stands for itself, by its first token.
    #[tactic(auto, unfolding(qk_reading::specs::Forms::atom))]
    pub fn atom(&self, tokens: &mut Tokens<'_, '_>) -> Result<Read, Fault>
        requires values { Values self.now.form self.now.room (V.pre self.now.value) (V.post self.now.value) }
        ensures { ReadsAs read_of (forms.atom self.now.form self.now.room (nesting self.now.form self.now.room) tokens.old) result tokens.new }
    {
        let tree = match tokens.peek() {
            Some(Token::Name(name)) => {
                tokens.take();
                return Ok(Read {
                    tree: Expr::Name(name_text(self.alloc, name)?),
                    kind: Kind::Bare,
                });
            }
            Some(Token::Reserved(text)) => word(tokens, text)?,
            Some(Token::Int(_)) => {
                let value = tokens.int();
                tokens.take();
                Expr::Int(value)
            }
            Some(Token::Text(_, inside)) => {
                tokens.take();
                Expr::Text(written_text(self.alloc, inside)?)
            }
            Some(Token::Template(Edge::Backquote, inside, to)) => {
                self.template(tokens, inside, to)?
            }
            Some(Token::Punct(sign)) => self.bracket(tokens, sign)?,
            Some(Token::Begin(sign)) => self.start(tokens, sign)?,
            _ => return Err(tokens.refuse()),
        };
        Ok(Read {
            tree,
            kind: Kind::Atomic,
        })
    }
}
