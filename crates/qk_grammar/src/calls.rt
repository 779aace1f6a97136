//! What an expression begins with: an atom, or a call by a known name.

ghost use Rattle.std.specs.Prelude.{◌≡◌, ◌∷◌, [], true, IfOk, codes};
ghost use Rattle.qk_ast.specs.Tree.{bytes};
ghost use Rattle.qk_reading.specs.Input as input;
ghost use Rattle.qk_reading.specs.Parts as parts;
ghost use Rattle.qk_reading.specs.Forms as forms;
ghost use Rattle.qk_reading.specs.Reader.{nesting};
ghost use Rattle.qk_token.specs.Reads.{Reads, ReadsAs};
ghost use Rattle.qk_token.specs.Seen.{kind_of};
ghost use Rattle.qk_token.specs.View.{is_ascii};
ghost use Rattle.qk_grammar.specs.Nests.{Values, Bodies, Groups};
ghost use Rattle.qk_grammar.specs.Seen.{head_of};
ghost use Rattle.qk_grammar.specs.FormsSeen.{args_of, named_call, object_of, method_of};

use crate::grammar::Grammar;
use crate::lists::{Args, enter};
use crate::read::{Group, Head, Inner, Read};
use qk_ast::{Body, Expr, Form, Known, Link, Stmt};
use qk_shared::{Builder, List, Text};
use qk_token::{Fault, Kind, Tokens, known_ahead};
use std::alloc::{AllocError, Global};

/// A name of ASCII.
#[tactic(auto, using(crate::proofs::Words::ascii_bytes))]
fn ascii_text(alloc: Global, name: &str) -> Result<Text, AllocError>
    requires { is_ascii name.now ≡ true }
    ensures { IfOk result (λ t. t ≡ bytes name.now) }
{
    Text::from_str(alloc, name)
}

/// A name's expression.
fn named(alloc: Global, name: &str) -> Result<Expr, AllocError>
    requires { is_ascii name.now ≡ true }
    ensures { IfOk result (λ x. x ≡ Expr.Name (bytes name.now)) }
{
    Ok(Expr::Name(ascii_text(alloc, name)?))
}

/// The one link to a member of that name.
fn member(alloc: Global, name: &str) -> Result<Builder<Link>, AllocError>
    requires { is_ascii name.now ≡ true }
    ensures { IfOk result (λ links. links ≡ Link.Prop (bytes name.now) ∷ []) }
{
    let mut links = Builder::new(alloc);
    links.push(Link::Prop(ascii_text(alloc, name)?))?;
    Ok(links)
}

/// The object that a known call's name begins with, or its whole name.
fn object(alloc: Global, known: Known) -> Result<Expr, AllocError>
    ensures { IfOk result (λ x. x ≡ object_of known) }
{
    match known {
        Known::Str => named(alloc, "String"),
        Known::Log => named(alloc, "console"),
        Known::Keys => named(alloc, "Object"),
        Known::Trunc => named(alloc, "Math"),
    }
}

/// The method that a known call's name ends with, where it has one.
fn method(alloc: Global, known: Known) -> Result<Builder<Link>, AllocError>
    ensures { IfOk result (λ links. links ≡ method_of known) }
{
    match known {
        Known::Str => Ok(Builder::new(alloc)),
        Known::Log => member(alloc, "log"),
        Known::Keys => member(alloc, "keys"),
        Known::Trunc => member(alloc, "trunc"),
    }
}

/// A call by a known name that is one as any other.
fn by_name(alloc: Global, known: Known, args: List<Expr>) -> Result<Head, AllocError>
    ensures { IfOk result (λ h. head_of h ≡ named_call known args) }
{
    let mut links = method(alloc, known)?;
    links.push(Link::Call(args))?;
    Ok(Head {
        tree: object(alloc, known)?,
        kind: Kind::Called,
        links,
    })
}

/// The known call of one argument, or else a call by that name.
fn called_with(alloc: Global, known: Known, args: Args) -> Result<Head, AllocError>
    ensures { IfOk result (λ h. head_of h ≡ parts.called_with known (object_of known) (method_of known) (args_of args)) }
{
    let Args { items, comma } = args;
    if items.len() != 1 || comma {
        return by_name(alloc, known, items.into_list(alloc)?);
    }
    Ok(Head {
        tree: Expr::Known(known, items.into_list(alloc)?),
        kind: Kind::Atomic,
        links: Builder::new(alloc),
    })
}

/// `Math.trunc` of a division, without the division's brackets.
fn divided(alloc: Global, dividend: Expr, divisor: Expr) -> Result<Head, AllocError>
    ensures { IfOk result (λ h. head_of h ≡ input.headed (Expr.Known Known.Trunc (dividend ∷ divisor ∷ [])) input.Atomic []) }
{
    let mut operands = Builder::new(alloc);
    operands.push(dividend)?;
    operands.push(divisor)?;
    Ok(Head {
        tree: Expr::Known(Known::Trunc, operands.into_list(alloc)?),
        kind: Kind::Atomic,
        links: Builder::new(alloc),
    })
}

/// Whether an expression of the kind may be a dividend, and `/` follows.
#[tactic(auto, unfolding(qk_reading::specs::Input::sees))]
fn is_dividend(kind: Kind, tokens: &Tokens<'_, '_>) -> bool
    ensures { result ≡ parts.is_dividend (kind_of kind) tokens.now }
{
    kind.tightness() >= 6 && tokens.sees(b"/")
}

/// Passes over an object, a dot, a method and `(`.
fn skip_dotted(tokens: &mut Tokens<'_, '_>)
    ensures { tokens.new ≡ input.advance (input.advance (input.advance (input.advance tokens.old))) }
{
    tokens.take();
    tokens.take();
    tokens.take();
    tokens.take();
}

impl<
    V: Fn(Global, &mut Tokens<'_, '_>, Form, usize, Inner) -> Result<Read, Fault>,
    B: Fn(Global, &mut Tokens<'_, '_>, Form, usize) -> Result<Body, Fault>,
    G: Fn(Global, &mut Tokens<'_, '_>, Form, usize, Group) -> Result<List<Stmt>, Fault>,
> Grammar<V, B, G> {
    /// The arguments behind the first one.
    fn more(&self, tokens: &mut Tokens<'_, '_>, first: Expr) -> Result<Args, Fault>
        requires values { Values self.now.form self.now.room (V.pre self.now.value) (V.post self.now.value) }
        ensures { ReadsAs args_of (forms.more_by self.now.form self.now.room (nesting self.now.form self.now.room) first (input.sees (input.Sign (codes ",")) tokens.old) (input.after (input.Sign (codes ",")) tokens.old)) result tokens.new }
    {
        let mut items = Builder::new(self.alloc);
        items.push(first)?;
        if tokens.eat(b",") {
            return self.separated_from(tokens, b")", items);
        }
        Ok(Args {
            items,
            comma: false,
        })
    }

    /// Behind the first argument of `Math.trunc`, which may be a dividend.
    #[tactic(auto, unfolding(qk_reading::specs::Parts::divides))]
    fn trunc_by(&self, tokens: &mut Tokens<'_, '_>, first: Read) -> Result<Head, Fault>
        requires values { Values self.now.form self.now.room (V.pre self.now.value) (V.post self.now.value) }
        ensures { ReadsAs head_of (forms.trunc_by self.now.form self.now.room (nesting self.now.form self.now.room) first.tree (parts.is_dividend (kind_of first.kind) tokens.old) tokens.old) result tokens.new }
    {
        if is_dividend(first.kind, tokens) {
            tokens.take();
            let divisor = self.inner(tokens, Inner::Tight)?.tree;
            tokens.expect(b")")?;
            return Ok(divided(self.alloc, first.tree, divisor)?);
        }
        let found = self.more(tokens, first.tree)?;
        tokens.expect(b")")?;
        Ok(by_name(self.alloc, Known::Trunc, found.items.into_list(self.alloc)?)?)
    }

    /// A call of `Math.trunc` behind its `(`.
    #[tactic(auto, unfolding(qk_reading::specs::Forms::trunc, qk_reading::specs::Parts::divides, qk_reading::specs::Input::after))]
    fn trunc(&self, tokens: &mut Tokens<'_, '_>) -> Result<Head, Fault>
        requires values { Values self.now.form self.now.room (V.pre self.now.value) (V.post self.now.value) }
        ensures { ReadsAs head_of (forms.trunc self.now.form self.now.room (nesting self.now.form self.now.room) tokens.old) result tokens.new }
    {
        enter(tokens, self.room)?;
        if tokens.eat(b")") {
            let none = Builder::new(self.alloc);
            return Ok(by_name(self.alloc, Known::Trunc, none.into_list(self.alloc)?)?);
        }
        let first = self.inner(tokens, Inner::Whole)?;
        self.trunc_by(tokens, first)
    }

    /// A call by a known name, which comes next up to its `(`.
    #[tactic(auto, unfolding(qk_reading::specs::Forms::called))]
    fn called(&self, tokens: &mut Tokens<'_, '_>, known: Known) -> Result<Head, Fault>
        requires values { Values self.now.form self.now.room (V.pre self.now.value) (V.post self.now.value) }
        ensures { ReadsAs head_of (forms.called self.now.form self.now.room (nesting self.now.form self.now.room) known tokens.old) result tokens.new }
    {
        match known {
            Known::Trunc => {
                skip_dotted(tokens);
                return self.trunc(tokens);
            }
            Known::Str => {
                tokens.take();
                tokens.take();
            }
            _ => skip_dotted(tokens),
        }
        let found = self.args(tokens, b")")?;
        Ok(called_with(self.alloc, known, found)?)
    }

    /// A call by a known name, or an atom.
    #[tactic(auto, unfolding(qk_reading::specs::Forms::head))]
    pub fn head(&self, tokens: &mut Tokens<'_, '_>) -> Result<Head, Fault>
        requires values { Values self.now.form self.now.room (V.pre self.now.value) (V.post self.now.value) }
        ensures { ReadsAs head_of (forms.head self.now.form self.now.room (nesting self.now.form self.now.room) tokens.old) result tokens.new }
    {
        match known_ahead(tokens) {
            Some(known) => self.called(tokens, known),
            None => {
                let x = self.atom(tokens)?;
                Ok(Head {
                    tree: x.tree,
                    kind: x.kind,
                    links: Builder::new(self.alloc),
                })
            }
        }
    }
}
