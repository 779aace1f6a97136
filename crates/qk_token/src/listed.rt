//! From a text to its tokens.

ghost use Rattle.std.specs.Prelude.{◌≡◌, ◌≤◌, length, drop, chars, slice_range, IfOk, IfErr};
ghost use Rattle.std.specs.Str.{IsCharBoundary};
ghost use Rattle.qk_lex.specs.Reading.{Refused};
ghost use Rattle.qk_token.specs.Lexed as spec;
ghost use Rattle.qk_token.specs.Lexed.{Lexes, token_written};
ghost use Rattle.qk_token.specs.View.{token_of, tokens_of, AllFit, edge_of};

use crate::front::{first_of, last_of, without_first, without_last};
use crate::token::{Edge, Token};
use qk_lex::{Kind, LexFault};
use std::alloc::Global;
use std::marker::Model;

/// The tokens of a text, and the place of each.
#[derive(Drop)]
pub struct Lexed<'t> {
    tokens: Vec<Token<'t>>,
    /// Where they stand in the text.
    places: Vec<qk_lex::Token>,
    /// Where the text ends.
    end: usize,
}

impl<'t> Model for Lexed<'t> {
    ghost use Rattle.qk_token.specs.Lexed.{Listed, starts_of};
    ghost use Rattle.qk_token.specs.View.{tokens_of, AllFit};
    ghost use Rattle.std.specs.Prelude.{◌≡◌, [], ◌∷◌, ◌++◌, length};

    ghost Value = { Listed };

    ghost view = { λ t. record { tokens = tokens_of t.tokens.items; places = starts_of t.places.items ++ t.end ∷ [] } };

    ghost invariant = { λ t. (length t.places.items ≡ length t.tokens.items) × AllFit t.tokens.items };
}

fn edge_at(c: char) -> Edge
    ensures { edge_of result ≡ spec.edge_at c }
{
    if c == '`' {
        Edge::Backquote
    } else {
        Edge::Hole
    }
}

/// A text in quotes, of code or of an attribute.
fn quoted(jsx: bool, text: &str) -> Token<'_>
    ensures { token_of result ≡ token_written Kind.Text jsx (chars text.now) }
{
    let quote = first_of(text);
    let inside = without_last(without_first(text));
    if jsx {
        Token::Attribute(quote, inside)
    } else {
        Token::Text(quote, inside)
    }
}

/// A part of a template.
fn template(text: &str) -> Token<'_>
    ensures { token_of result ≡ spec.part (spec.edge_at (spec.first_of (chars text.now))) (drop 1 (chars text.now)) }
{
    let from = edge_at(first_of(text));
    let more = without_first(text);
    let before = without_last(more);
    if last_of(more) == '`' {
        Token::Template(from, before, Edge::Backquote)
    } else {
        Token::Template(from, without_last(before), Edge::Hole)
    }
}

/// The token of that kind which is spelled so.
fn token_from(kind: Kind, jsx: bool, text: &str) -> Token<'_>
    ensures { token_of result ≡ token_written kind jsx (chars text.now) }
{
    match kind {
        Kind::Name => Token::Name(text),
        Kind::Reserved => Token::Reserved(text),
        Kind::Int => Token::Int(text),
        Kind::Text => quoted(jsx, text),
        Kind::TemplatePart => template(text),
        Kind::Punct => if jsx {
            Token::Begin(text)
        } else {
            Token::Punct(text)
        },
        Kind::JsxText => Token::JsxText(text),
    }
}

/// The token that was found in the text.
fn token_at(text: &str, found: qk_lex::Token) -> Token<'_>
    requires start { IsCharBoundary text.now found.start }
    requires end { IsCharBoundary text.now found.end }
    requires order { found.start ≤ found.end }
    ensures { token_of result ≡ token_written found.kind found.jsx (chars (slice_range text.now found.start found.end)) }
{
    token_from(found.kind, found.jsx, &text[found.start..found.end])
}

/// The tokens of a whole text, and the place of each.
///
/// `Lexical` comes exactly where the text has no token list, at the first byte where no token begins.
pub fn lex<'t>(alloc: Global, text: &'t str) -> Result<Lexed<'t>, LexFault>
    ensures listed { IfOk result (Lexes (chars text.now)) }
    ensures refused { IfErr result (Refused (chars text.now)) }
{
    let found = qk_lex::tokens(alloc, text)?;
    let mut tokens = Vec::with_capacity(alloc, found.len())?;
    for token in &found {
        tokens.push(token_at(text, *token))?;
    }
    Ok(Lexed {
        tokens,
        places: found,
        end: text.len(),
    })
}

impl<'t> Lexed<'t> {
    /// The tokens, on loan.
    pub fn tokens(&self) -> &[Token<'t>]
        ensures tokens { tokens_of result.now ≡ self.now.tokens }
        ensures fit { AllFit result.now }
    {
        self.tokens.as_slice()
    }

    /// The byte where the tokens begin of which so many are left; where none is left, the text ends there.
    pub fn place_of(&self, left: usize) -> usize
        requires { left ≤ length self.now.tokens }
        ensures { result ≡ spec.place_of left self.now }
    {
        if left == 0 {
            self.end
        } else {
            self.places[self.places.len() - left].start
        }
    }
}
