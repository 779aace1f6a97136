//! JSX: elements, their attributes and their children.

ghost use Rattle.std.specs.Prelude.{◌≡◌, false, codes, chars, IfOk, IfErr};
ghost use Rattle.std.specs.Option.{option_map};
ghost use Rattle.qk_ast.specs.JsxText as definition;
ghost use Rattle.qk_reading.specs.Input as input;
ghost use Rattle.qk_reading.specs.Parts as parts;
ghost use Rattle.qk_reading.specs.Forms as forms;
ghost use Rattle.qk_reading.specs.Reader.{nesting};
ghost use Rattle.qk_token.specs.Reads.{Reads, ReadsAs};
ghost use Rattle.qk_token.specs.declared.fault.Fault.TheVariants.{Memory};
ghost use Rattle.qk_grammar.specs.Nests.{Values, Bodies, Groups};
ghost use Rattle.qk_grammar.specs.FormsSeen.{child_of, element_of};

use crate::grammar::Grammar;
use crate::lists::enter;
use crate::read::{Group, Inner, Read};
use crate::tags::{same_name, tag_name, tag_of};
use qk_ast::{Body, Expr, Field, Form, Jsx, Stmt, Tag};
use qk_shared::{Builder, List, Shared};
use qk_token::{Fault, Token, Tokens, attribute_text, is_word, jsx_text, name_text};
use std::alloc::{AllocError, Global};

/// A child of an element: one that leaves nothing, or a value.
#[derive(Drop)]
pub enum Child {
    Nothing,
    Value(Expr),
}

/// The child that a run of text is. It fails only for want of memory.
#[tactic(auto, using(crate::proofs::Words::no_text, crate::proofs::Words::some_text))]
fn text_child(alloc: Global, text: &str) -> Result<Child, Fault>
    ensures text { IfOk result (λ c. child_of c ≡ parts.child_text (definition.jsx_text (chars text.now))) }
    ensures memory { IfErr result (λ e. e ≡ Memory) }
{
    let text = jsx_text(alloc, text)?;
    if text.len() == 0 {
        return Ok(Child::Nothing);
    }
    Ok(Child::Value(Expr::Text(text)))
}

/// An element.
fn element(
    alloc: Global,
    tag: Tag,
    attrs: Builder<Field>,
    children: Builder<Expr>,
) -> Result<Expr, AllocError>
    ensures { IfOk result (λ x. x ≡ element_of tag attrs children) }
{
    let jsx = Jsx {
        tag,
        attrs: attrs.into_list(alloc)?,
        children: children.into_list(alloc)?,
    };
    Ok(Expr::Jsx(Shared::new(alloc, jsx)?))
}

impl<
    V: Fn(Global, &mut Tokens<'_, '_>, Form, usize, Inner) -> Result<Read, Fault>,
    B: Fn(Global, &mut Tokens<'_, '_>, Form, usize) -> Result<Body, Fault>,
    G: Fn(Global, &mut Tokens<'_, '_>, Form, usize, Group) -> Result<List<Stmt>, Fault>,
> Grammar<V, B, G> {
    /// An attribute behind its `=`.
    fn set(&self, tokens: &mut Tokens<'_, '_>, name: &str) -> Result<Field, Fault>
        requires values { Values self.now.form self.now.room (V.pre self.now.value) (V.post self.now.value) }
        ensures { Reads (forms.set_by self.now.form self.now.room (nesting self.now.form self.now.room) (chars name.now) (input.first tokens.old.tokens) tokens.old) result tokens.new }
    {
        let key = name_text(self.alloc, name)?;
        match tokens.peek() {
            Some(Token::Attribute(_, inside)) => {
                tokens.take();
                let value = Expr::Text(attribute_text(self.alloc, inside)?);
                Ok(Field { key, value })
            }
            Some(Token::Punct(_)) => {
                tokens.expect(b"{")?;
                let value = self.nested(tokens)?;
                tokens.expect(b"}")?;
                Ok(Field { key, value })
            }
            _ => Err(tokens.refuse()),
        }
    }

    /// The next attribute, where there is one more.
    #[tactic(auto, unfolding(qk_reading::specs::Forms::attribute))]
    fn attribute(&self, tokens: &mut Tokens<'_, '_>) -> Result<Option<Field>, Fault>
        requires values { Values self.now.form self.now.room (V.pre self.now.value) (V.post self.now.value) }
        ensures { Reads (forms.attribute self.now.form self.now.room (nesting self.now.form self.now.room) tokens.old) result tokens.new }
    {
        match tokens.peek() {
            Some(Token::Name(name)) => {
                tokens.take();
                if tokens.eat(b"=") {
                    return Ok(Some(self.set(tokens, name)?));
                }
                Ok(Some(Field {
                    key: name_text(self.alloc, name)?,
                    value: Expr::Bool(true),
                }))
            }
            _ => Ok(None),
        }
    }

    /// All attributes that come.
    #[tactic(auto, unfolding(qk_reading::specs::Input::many, qk_reading::specs::Input::many_from))]
    fn attributes(&self, tokens: &mut Tokens<'_, '_>) -> Result<Builder<Field>, Fault>
        requires values { Values self.now.form self.now.room (V.pre self.now.value) (V.post self.now.value) }
        ensures { Reads (input.many (forms.attribute self.now.form self.now.room (nesting self.now.form self.now.room)) tokens.old) result tokens.new }
    {
        let mut found = Builder::new(self.alloc);
        for _turn in 0..tokens.left() {
            match self.attribute(tokens)? {
                Some(attribute) => found.push(attribute)?,
                None => return Ok(found),
            }
        }
        Ok(found)
    }

    /// A child behind its `{`.
    fn braced(&self, tokens: &mut Tokens<'_, '_>) -> Result<Option<Child>, Fault>
        requires values { Values self.now.form self.now.room (V.pre self.now.value) (V.post self.now.value) }
        ensures { ReadsAs (option_map child_of) (forms.braced_by self.now.form self.now.room (nesting self.now.form self.now.room) (input.sees (input.Sign (codes "}")) tokens.old) tokens.old) result tokens.new }
    {
        if tokens.sees(b"}") {
            tokens.take();
            return Ok(Some(Child::Nothing));
        }
        let value = self.nested(tokens)?;
        tokens.expect(b"}")?;
        Ok(Some(Child::Value(value)))
    }

    /// The next child, where there is one more.
    #[tactic(auto, unfolding(qk_reading::specs::Forms::child))]
    fn child(&self, tokens: &mut Tokens<'_, '_>) -> Result<Option<Child>, Fault>
        requires values { Values self.now.form self.now.room (V.pre self.now.value) (V.post self.now.value) }
        ensures { ReadsAs (option_map child_of) (forms.child self.now.form self.now.room (nesting self.now.form self.now.room) tokens.old) result tokens.new }
    {
        match tokens.peek() {
            Some(Token::JsxText(text)) => {
                tokens.take();
                Ok(Some(text_child(self.alloc, text)?))
            }
            Some(Token::Punct(sign)) => {
                if !is_word(sign, b"{") {
                    return Ok(None);
                }
                tokens.take();
                enter(tokens, self.room)?;
                self.braced(tokens)
            }
            Some(Token::Begin(sign)) => Ok(Some(Child::Value(self.start(tokens, sign)?))),
            _ => Ok(None),
        }
    }

    /// All children that come.
    #[tactic(auto, unfolding(qk_reading::specs::Forms::children, qk_reading::specs::Input::sparse, qk_reading::specs::Input::sparse_from))]
    fn children(&self, tokens: &mut Tokens<'_, '_>) -> Result<Builder<Expr>, Fault>
        requires values { Values self.now.form self.now.room (V.pre self.now.value) (V.post self.now.value) }
        ensures { Reads (forms.children self.now.form self.now.room (nesting self.now.form self.now.room) tokens.old) result tokens.new }
    {
        let mut found = Builder::new(self.alloc);
        for _turn in 0..tokens.left() {
            match self.child(tokens)? {
                Some(Child::Value(child)) => found.push(child)?,
                Some(Child::Nothing) => {}
                None => return Ok(found),
            }
        }
        Ok(found)
    }

    /// An element behind its attributes, where `/>` doesn't close it.
    fn open(
        &self,
        tokens: &mut Tokens<'_, '_>,
        tag: &str,
        attributes: Builder<Field>,
    ) -> Result<Expr, Fault>
        requires values { Values self.now.form self.now.room (V.pre self.now.value) (V.post self.now.value) }
        ensures { Reads (forms.tagged_by self.now.form self.now.room (nesting self.now.form self.now.room) (chars tag.now) attributes false tokens.old) result tokens.new }
    {
        tokens.expect(b">")?;
        let children = self.children(tokens)?;
        tokens.expect(b"</")?;
        same_name(tokens, tag)?;
        tokens.expect(b">")?;
        let tag = tag_of(self.alloc, tag)?;
        Ok(element(self.alloc, tag, attributes, children)?)
    }

    /// An element behind its `<`.
    #[tactic(auto, unfolding(qk_reading::specs::Forms::tagged))]
    pub fn tagged(&self, tokens: &mut Tokens<'_, '_>) -> Result<Expr, Fault>
        requires values { Values self.now.form self.now.room (V.pre self.now.value) (V.post self.now.value) }
        ensures { Reads (forms.tagged self.now.form self.now.room (nesting self.now.form self.now.room) tokens.old) result tokens.new }
    {
        let tag = tag_name(tokens)?;
        let attributes = self.attributes(tokens)?;
        if !tokens.eat(b"/>") {
            return self.open(tokens, tag, attributes);
        }
        let tag = tag_of(self.alloc, tag)?;
        Ok(element(self.alloc, tag, attributes, Builder::new(self.alloc))?)
    }

    /// A fragment behind its `<>`.
    #[tactic(auto, unfolding(qk_reading::specs::Forms::untagged))]
    pub fn untagged(&self, tokens: &mut Tokens<'_, '_>) -> Result<Expr, Fault>
        requires values { Values self.now.form self.now.room (V.pre self.now.value) (V.post self.now.value) }
        ensures { Reads (forms.untagged self.now.form self.now.room (nesting self.now.form self.now.room) tokens.old) result tokens.new }
    {
        let children = self.children(tokens)?;
        tokens.expect(b"</>")?;
        let attributes = Builder::new(self.alloc);
        Ok(element(self.alloc, Tag::Fragment, attributes, children)?)
    }
}
