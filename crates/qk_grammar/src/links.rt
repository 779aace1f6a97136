//! Postfix forms: members, indices and calls after a head.

ghost use Rattle.std.specs.Prelude.{◌≡◌, [], chars, IfOk};
ghost use Rattle.qk_reading.specs.Input as input;
ghost use Rattle.qk_reading.specs.Parts as parts;
ghost use Rattle.qk_reading.specs.Forms as forms;
ghost use Rattle.qk_reading.specs.Reader.{nesting};
ghost use Rattle.qk_token.specs.Reads.{Reads, ReadsAs};
ghost use Rattle.qk_token.specs.Seen.{kind_of};
ghost use Rattle.qk_grammar.specs.Nests.{Values, Bodies, Groups};
ghost use Rattle.qk_grammar.specs.Seen.{read_of};
ghost use Rattle.qk_grammar.specs.FormsSeen.{links_of, link_of};

use crate::grammar::Grammar;
use crate::read::{Group, Inner, Read};
use qk_ast::{Body, Expr, Form, Link, Stmt};
use qk_shared::{Builder, List, Shared, Text};
use qk_token::{Fault, Kind, Token, Tokens, is_word, name_text};
use std::alloc::{AllocError, Global};

/// A postfix form, and how tightly the whole binds with it.
#[derive(Drop)]
pub struct LinkRead {
    pub link: Link,
    pub kind: Kind,
}

/// Postfix forms, and how tightly the whole binds with them.
#[derive(Drop)]
pub struct LinksRead {
    pub links: Builder<Link>,
    pub kind: Kind,
}

/// The name or word behind a dot.
fn dot_name(alloc: Global, tokens: &mut Tokens<'_, '_>) -> Result<Text, Fault>
    ensures { Reads (parts.dot_by (input.first tokens.old.tokens) tokens.old) result tokens.new }
{
    match tokens.peek() {
        Some(Token::Name(name)) => {
            tokens.take();
            Ok(name_text(alloc, name)?)
        }
        Some(Token::Reserved(word)) => {
            tokens.take();
            Ok(name_text(alloc, word)?)
        }
        _ => Err(tokens.refuse()),
    }
}

/// An expression with the postfix forms after it.
fn linked(alloc: Global, tree: Expr, found: LinksRead) -> Result<Read, AllocError>
    ensures { IfOk result (λ r. read_of r ≡ parts.linked (input.headed tree (kind_of found.kind) []) (links_of found)) }
{
    let LinksRead { links, kind } = found;
    if links.len() == 0 {
        return Ok(Read { tree, kind });
    }
    let tree = Expr::Post(Shared::new(alloc, tree)?, links.into_list(alloc)?);
    Ok(Read { tree, kind })
}

impl<
    V: Fn(Global, &mut Tokens<'_, '_>, Form, usize, Inner) -> Result<Read, Fault>,
    B: Fn(Global, &mut Tokens<'_, '_>, Form, usize) -> Result<Body, Fault>,
    G: Fn(Global, &mut Tokens<'_, '_>, Form, usize, Group) -> Result<List<Stmt>, Fault>,
> Grammar<V, B, G> {
    /// The postfix form that begins with the sign, where one does.
    fn link_sign(&self, tokens: &mut Tokens<'_, '_>, sign: &str) -> Result<Option<LinkRead>, Fault>
        requires values { Values self.now.form self.now.room (V.pre self.now.value) (V.post self.now.value) }
        ensures { ReadsAs link_of (forms.link_sign self.now.form self.now.room (nesting self.now.form self.now.room) (chars sign.now) tokens.old) result tokens.new }
    {
        if is_word(sign, b".") {
            tokens.take();
            let link = Link::Prop(dot_name(self.alloc, tokens)?);
            return Ok(Some(LinkRead {
                link,
                kind: Kind::Member,
            }));
        }
        if is_word(sign, b"[") {
            tokens.take();
            let link = Link::Index(self.nested(tokens)?);
            tokens.expect(b"]")?;
            return Ok(Some(LinkRead {
                link,
                kind: Kind::Member,
            }));
        }
        if is_word(sign, b"(") {
            tokens.take();
            let found = self.args(tokens, b")")?;
            return Ok(Some(LinkRead {
                link: Link::Call(found.items.into_list(self.alloc)?),
                kind: Kind::Called,
            }));
        }
        Ok(None)
    }

    /// The next postfix form, where there is one more.
    #[tactic(auto, unfolding(qk_reading::specs::Forms::link))]
    fn link(&self, tokens: &mut Tokens<'_, '_>) -> Result<Option<LinkRead>, Fault>
        requires values { Values self.now.form self.now.room (V.pre self.now.value) (V.post self.now.value) }
        ensures { ReadsAs link_of (forms.link self.now.form self.now.room (nesting self.now.form self.now.room) tokens.old) result tokens.new }
    {
        match tokens.peek() {
            Some(Token::Punct(sign)) => self.link_sign(tokens, sign),
            _ => Ok(None),
        }
    }

    /// All postfix forms that come, after those found.
    #[tactic(auto, unfolding(qk_reading::specs::Forms::links, qk_reading::specs::Forms::links_from))]
    fn links(&self, tokens: &mut Tokens<'_, '_>, found: LinksRead) -> Result<LinksRead, Fault>
        requires values { Values self.now.form self.now.room (V.pre self.now.value) (V.post self.now.value) }
        ensures { ReadsAs links_of (forms.links self.now.form self.now.room (nesting self.now.form self.now.room) (kind_of found.kind) found.links tokens.old) result tokens.new }
    {
        let LinksRead {
            mut links,
            mut kind,
        } = found;
        for _turn in 0..tokens.left() {
            match self.link(tokens)? {
                Some(one) => {
                    links.push(one.link)?;
                    kind = one.kind;
                }
                None => return Ok(LinksRead { links, kind }),
            }
        }
        Ok(LinksRead { links, kind })
    }

    /// An atom or a known call, and all postfix forms after it.
    #[tactic(auto, unfolding(qk_reading::specs::Forms::postfix))]
    pub fn postfix(&self, tokens: &mut Tokens<'_, '_>) -> Result<Read, Fault>
        requires values { Values self.now.form self.now.room (V.pre self.now.value) (V.post self.now.value) }
        ensures { ReadsAs read_of (forms.postfix self.now.form self.now.room (nesting self.now.form self.now.room) tokens.old) result tokens.new }
    {
        let head = self.head(tokens)?;
        let found = LinksRead {
            links: head.links,
            kind: head.kind,
        };
        let found = self.links(tokens, found)?;
        Ok(linked(self.alloc, head.tree, found)?)
    }
}
