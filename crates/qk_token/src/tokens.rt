//! A cursor over the tokens that are left.

ghost use Rattle.std.specs.Prelude.{◌≡◌, ◌≤◌, ◌<◌, ◌+◌, ◌^◌, true, pos, chars, length, Some};
ghost use Rattle.std.specs.Option.{option_map};
ghost use Rattle.qk_ast.specs.Characters.{Characters, is_digit, digit_value, number_after};
ghost use Rattle.qk_ast.specs.Tokens as grammar;
ghost use Rattle.qk_ast.specs.Tokens.{is_int};
ghost use Rattle.qk_reading.specs.Input as spec;
ghost use Rattle.qk_token.specs.Reads.{Reads, ReadsAs};
ghost use Rattle.qk_token.specs.View.{is_ascii, token_of, tokens_of, AllFit};

use crate::fault::Fault;
use crate::front::split_first;
use crate::token::{Token, is_word};
use std::marker::Model;

/// The tokens that are left, and how many arrows came before.
#[derive(Drop)]
pub struct Tokens<'s, 't> {
    rest: &'s [Token<'t>],
    arrows: u32,
}

impl<'s, 't> Model for Tokens<'s, 't> {
    ghost use Rattle.qk_reading.specs.Input.{Input, at};
    ghost use Rattle.qk_token.specs.View.{tokens_of, AllFit};
    ghost use Rattle.std.specs.Prelude.{ℕ, ◌+◌, ◌<◌, ◌^◌, length};

    ghost Value = { Input };

    ghost view = { λ t. at (tokens_of t.rest.now) t.arrows };

    ghost invariant = { λ t. (t.arrows + length t.rest.now < 2 ^ 32) × AllFit t.rest.now };
}

/// Whether the token is that sign.
pub fn is_sign(sign: &[u8], token: Token<'_>) -> bool
    requires { is_ascii sign.now ≡ true }
    ensures { result ≡ spec.is (spec.Sign sign.now) (token_of token.entry) }
{
    match token {
        Token::Punct(text) => is_word(text, sign),
        _ => false,
    }
}

/// Whether the token is that reserved word.
fn is_reserved(word: &[u8], token: Token<'_>) -> bool
    requires { is_ascii word.now ≡ true }
    ensures { result ≡ spec.is (spec.Word word.now) (token_of token.entry) }
{
    match token {
        Token::Reserved(text) => is_word(text, word),
        _ => false,
    }
}

/// Whether the token is that name.
fn is_given(name: &[u8], token: Token<'_>) -> bool
    requires { is_ascii name.now ≡ true }
    ensures { result ≡ spec.is (spec.Given name.now) (token_of token.entry) }
{
    match token {
        Token::Name(text) => is_word(text, name),
        _ => false,
    }
}

/// Whether the first of the tokens is that sign.
pub fn first_is_sign(sign: &[u8], tokens: &[Token<'_>]) -> bool
    requires { is_ascii sign.now ≡ true }
    ensures { result ≡ spec.first_is (spec.Sign sign.now) (tokens_of tokens.now) }
{
    match tokens {
        [token, ..] => is_sign(sign, *token),
        [] => false,
    }
}

/// The value of a digit.
fn digit_value(c: char) -> u64
    requires { is_digit c ≡ true }
    ensures value { result ≡ digit_value c }
    ensures small { result < 10 }
{
    c as u64 - 48
}

/// The number that the digits write.
fn int_value(digits: &str) -> i64
    requires { is_int (chars digits.now) ≡ true }
    ensures { result ≡ pos (number_after 10 0 (chars digits.now)) }
{
    let mut rest = digits;
    let mut value: u64 = 0;
    while let Some((c, more)) = split_first(rest) {
        value = value * 10 + digit_value(c);
        rest = more;
    }
    value as i64
}

fn rest<'s, 't>(tokens: &'s [Token<'t>]) -> &'s [Token<'t>]
    ensures rest { tokens_of result.now ≡ spec.rest (tokens_of tokens.now) }
    ensures shorter { length result.now ≤ length tokens.now }
    ensures fits { AllFit tokens.now → AllFit result.now }
{
    match tokens {
        [_, rest @ ..] => rest,
        [] => tokens,
    }
}

impl<'s, 't> Tokens<'s, 't> {
    /// The tokens of a whole text, before which no arrow came.
    pub fn new(tokens: &'s [Token<'t>]) -> Tokens<'s, 't>
        requires few { length tokens.now < 2 ^ 32 }
        requires fit { AllFit tokens.now }
        ensures { result ≡ spec.at (tokens_of tokens.now) 0 }
    {
        Tokens {
            rest: tokens,
            arrows: 0,
        }
    }

    /// A cursor of its own over the same tokens.
    pub fn fork(&self) -> Tokens<'s, 't>
        ensures { result ≡ self.now }
    {
        Tokens {
            rest: self.rest,
            arrows: self.arrows,
        }
    }

    /// The tokens that are left, on loan.
    pub fn ahead(&self) -> &'s [Token<'t>]
        ensures { tokens_of result.now ≡ self.now.tokens }
    {
        self.rest
    }

    /// How many tokens are left.
    pub fn left(&self) -> usize
        ensures left { result ≡ spec.left self.now }
        ensures few { result < 2 ^ 32 }
    {
        self.rest.len()
    }

    /// No module goes on with the next token.
    pub fn refuse(&self) -> Fault
        ensures { result ≡ Fault.Syntax (spec.left self.now) }
    {
        Fault::Syntax(self.rest.len())
    }

    /// With the token before, the nesting passes its limit.
    pub fn too_deep(&self) -> Fault
        ensures { result ≡ Fault.TooDeep (spec.left self.now + 1) }
    {
        Fault::TooDeep(self.rest.len() + 1)
    }

    /// The next token.
    pub fn peek(&self) -> Option<Token<'t>>
        ensures { option_map token_of result ≡ spec.first self.now.tokens }
    {
        match self.rest {
            [token, ..] => Some(*token),
            [] => None,
        }
    }

    /// The number of the integer that comes next; 0 where none does.
    pub fn int(&self) -> i64
        ensures { (digits : Characters) → spec.first self.now.tokens ≡ Some (grammar.Int digits) → result ≡ pos (number_after 10 0 digits) }
    {
        match self.rest {
            [Token::Int(digits), ..] => int_value(digits),
            _ => 0,
        }
    }

    /// Passes over the next token.
    pub fn take(&mut self)
        ensures { self.new ≡ spec.advance self.old }
    {
        self.rest = rest(self.rest);
    }

    /// Whether that sign comes next.
    #[tactic(auto, unfolding(qk_reading::specs::Input::sees))]
    pub fn sees(&self, sign: &[u8]) -> bool
        requires { is_ascii sign.now ≡ true }
        ensures { result ≡ spec.sees (spec.Sign sign.now) self.now }
    {
        first_is_sign(sign, self.rest)
    }

    /// Takes that sign, where it comes next.
    #[tactic(auto, unfolding(qk_reading::specs::Input::after))]
    pub fn eat(&mut self, sign: &[u8]) -> bool
        requires { is_ascii sign.now ≡ true }
        ensures found { result ≡ spec.sees (spec.Sign sign.now) self.old }
        ensures after { self.new ≡ spec.after (spec.Sign sign.now) self.old }
    {
        let found = self.sees(sign);
        if found {
            self.take();
        }
        found
    }

    /// Takes that sign, which must come next.
    #[tactic(auto, unfolding(qk_reading::specs::Input::expect))]
    pub fn expect(&mut self, sign: &[u8]) -> Result<(), Fault>
        requires { is_ascii sign.now ≡ true }
        ensures { Reads (spec.expect (spec.Sign sign.now) self.old) result self.new }
    {
        if self.sees(sign) {
            self.take();
            Ok(())
        } else {
            Err(self.refuse())
        }
    }

    /// Whether that reserved word comes next.
    #[tactic(auto, unfolding(qk_reading::specs::Input::sees))]
    pub fn sees_word(&self, word: &[u8]) -> bool
        requires { is_ascii word.now ≡ true }
        ensures { result ≡ spec.sees (spec.Word word.now) self.now }
    {
        match self.rest {
            [token, ..] => is_reserved(word, *token),
            [] => false,
        }
    }

    /// Takes that reserved word, where it comes next.
    #[tactic(auto, unfolding(qk_reading::specs::Input::after))]
    pub fn eat_word(&mut self, word: &[u8]) -> bool
        requires { is_ascii word.now ≡ true }
        ensures found { result ≡ spec.sees (spec.Word word.now) self.old }
        ensures after { self.new ≡ spec.after (spec.Word word.now) self.old }
    {
        let found = self.sees_word(word);
        if found {
            self.take();
        }
        found
    }

    /// Takes that reserved word, which must come next.
    #[tactic(auto, unfolding(qk_reading::specs::Input::expect))]
    pub fn expect_word(&mut self, word: &[u8]) -> Result<(), Fault>
        requires { is_ascii word.now ≡ true }
        ensures { Reads (spec.expect (spec.Word word.now) self.old) result self.new }
    {
        if self.sees_word(word) {
            self.take();
            Ok(())
        } else {
            Err(self.refuse())
        }
    }

    #[tactic(auto, unfolding(qk_reading::specs::Input::sees))]
    fn sees_given(&self, name: &[u8]) -> bool
        requires { is_ascii name.now ≡ true }
        ensures { result ≡ spec.sees (spec.Given name.now) self.now }
    {
        match self.rest {
            [token, ..] => is_given(name, *token),
            [] => false,
        }
    }

    /// Takes that name, which must come next.
    #[tactic(auto, unfolding(qk_reading::specs::Input::expect))]
    pub fn expect_name(&mut self, name: &[u8]) -> Result<(), Fault>
        requires { is_ascii name.now ≡ true }
        ensures { Reads (spec.expect (spec.Given name.now) self.old) result self.new }
    {
        if self.sees_given(name) {
            self.take();
            Ok(())
        } else {
            Err(self.refuse())
        }
    }

    /// Takes a name.
    #[tactic(auto, unfolding(qk_reading::specs::Input::name_that))]
    pub fn name(&mut self) -> Result<&'t str, Fault>
        ensures { ReadsAs (λ s. chars s.now) (spec.name self.old) result self.new }
    {
        match self.peek() {
            Some(Token::Name(name)) => {
                self.take();
                Ok(name)
            }
            _ => Err(self.refuse()),
        }
    }

    /// Takes the sign of an arrow, and gives the arrow its number.
    #[tactic(auto, unfolding(qk_reading::specs::Input::number, qk_reading::specs::Input::sees))]
    pub fn number(&mut self) -> Result<u32, Fault>
        ensures { Reads (spec.number self.old) result self.new }
    {
        if !self.sees(b"=>") {
            return Err(self.refuse());
        }
        let number = self.arrows;
        self.take();
        self.arrows += 1;
        Ok(number)
    }
}
