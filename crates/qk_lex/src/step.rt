// The token at the front of a text.
ghost use Rattle.std.specs.Prelude.{◌≡◌, ◌<◌, ◌≤◌, ◌-◌, ◌==◌, ◌&&◌, codes, ℕ, false, true, ◌∷◌, length, chars, IfSome, Some};
ghost use Rattle.std.specs.Option.{option_map};
ghost use Rattle.qk_ast.specs.Characters.{has, is_digit, continues_name, run, after_run};
ghost use Rattle.qk_ast.specs.Tokens.{Around, is_tag_token, is_end_token, is_child_token, In_tag, In_end, Children, is_token};
ghost use Rattle.qk_ast.specs.Tokens as tokens;
ghost use Rattle.qk_lex.specs.Quotes.{edge_of};
ghost use Rattle.qk_lex.specs.Regions.{region_of, innermost};
ghost use Rattle.qk_lex.specs.Steps as spec;

use crate::Kind;
use crate::quoted::{Edge, after_template, after_text};
use crate::regions::{Change, Region};
use crate::scan::{
    Class, after_char, after_run, begins_name, begins_with, is_digit, is_letter, skip, split_first,
};
use crate::tables::{Signs, is_before_jsx, is_reserved, is_same, sign_at};

/// A token at the front of a text.
#[derive(Clone, Copy)]
pub(crate) struct Found<'a> {
    pub(crate) kind: Kind,
    /// Whether it begins JSX, or is the text of an attribute.
    pub(crate) jsx: bool,
    /// What follows it.
    pub(crate) rest: &'a str,
    pub(crate) change: Change,
    /// Whether a `<` of code after it begins JSX.
    pub(crate) before_jsx: bool,
}

/// A token that leaves the regions as they are, and after which a `<` begins no JSX.
fn plain(kind: Kind, rest: &str) -> Found<'_>
    ensures value { spec.next_of result ≡ spec.plain kind (chars rest.now) }
    ensures same { result.rest.now ≡ rest.now }
{
    Found {
        kind,
        jsx: false,
        rest,
        change: Change::Stay,
        before_jsx: false,
    }
}

/// A name or a reserved word, which begins with that character.
fn word<'a>(text: &'a str, more: &'a str) -> Found<'a>
    requires { length more.now ≤ length text.now }
    ensures value { (c : ℕ) → chars text.now ≡ c ∷ chars more.now → spec.next_of result ≡ spec.word_next (c ∷ run continues_name (chars more.now)) (after_run continues_name (chars more.now)) }
    ensures shorter { length result.rest.now ≤ length more.now }
{
    let rest = after_run(Class::Name, more);
    let word = &text.as_bytes()[..text.len() - rest.len()];
    if is_reserved(word) {
        Found {
            kind: Kind::Reserved,
            jsx: false,
            rest,
            change: Change::Stay,
            before_jsx: is_same(word, b"return"),
        }
    } else {
        plain(Kind::Name, rest)
    }
}

/// The greatest integer that an Int may write.
const GREATEST: u64 = 9_007_199_254_740_991;

fn digit_value(c: char) -> u64
    requires { is_digit c ≡ true }
    ensures value { result ≡ c - 48 }
    ensures small { result < 10 }
{
    c as u64 - 48
}

/// The number that the digits at the front write, or one past the greatest where it is greater.
fn number(text: &str) -> u64
    ensures { result ≡ spec.number_at 0 (chars text.now) }
{
    let mut rest = text;
    let mut number: u64 = 0;
    while let Some((c, more)) = split_first(rest) {
        if !is_digit(c) {
            return number;
        }
        number = number.min(GREATEST + 1) * 10 + digit_value(c);
        rest = more;
    }
    number
}

/// An Int, whose first digit is `first`. A run of name characters that is no Int is no token.
fn int<'a>(first: char, text: &'a str, more: &'a str) -> Option<Found<'a>>
    ensures value { option_map spec.next_of result ≡ spec.int_next first (chars text.now) (chars more.now) }
    ensures shorter { IfSome result (λ f. length f.rest.now ≤ length more.now) }
{
    if first == '0' && begins_with(Class::Digit, more) {
        return None;
    }
    let rest = after_run(Class::Digit, more);
    if begins_with(Class::Name, rest) || number(text) > GREATEST {
        return None;
    }
    Some(plain(Kind::Int, rest))
}

/// A text, after its opening quote.
fn quoted(quote: char, more: &str) -> Option<Found<'_>>
    requires { (quote == 92) ≡ false }
    ensures value { spec.QuotedNext quote (chars more.now) (option_map spec.next_of result) }
    ensures shorter { IfSome result (λ f. length f.rest.now ≤ length more.now) }
{
    match after_text(quote, more) {
        None => None,
        Some(rest) => Some(plain(Kind::Text, rest)),
    }
}

/// A part of a template, after what opens it.
fn template(from: Edge, more: &str) -> Option<Found<'_>>
    ensures value { spec.PartNext (edge_of from) (chars more.now) (option_map spec.next_of result) }
    ensures shorter { IfSome result (λ f. length f.rest.now ≤ length more.now) }
{
    let Some((to, rest)) = after_template(more) else {
        return None;
    };
    let change = match (from, to) {
        (Edge::Backquote, Edge::Hole) => Change::Enter(Region::Hole),
        (Edge::Hole, Edge::Backquote) => Change::Leave,
        _ => Change::Stay,
    };
    Some(Found {
        kind: Kind::TemplatePart,
        jsx: false,
        rest,
        change,
        before_jsx: false,
    })
}

/// A `<` or `<>` that begins JSX, after its `<`.
fn begin(more: &str) -> Found<'_>
    ensures value { spec.next_of result ≡ spec.begin_next (chars more.now) }
    ensures shorter { length result.rest.now ≤ length more.now }
{
    match after_char('>', more) {
        Some(rest) => Found {
            kind: Kind::Punct,
            jsx: true,
            rest,
            change: Change::Enter(Region::Children),
            before_jsx: false,
        },
        None => Found {
            kind: Kind::Punct,
            jsx: true,
            rest: more,
            change: Change::Enter(Region::Tag),
            before_jsx: false,
        },
    }
}

/// Whether a `/` stands before a comment, closed or not.
fn opens_comment(rest: &str) -> bool
    ensures { result ≡ spec.opens_comment (chars rest.now) }
{
    begins_with(Class::Is('/'), rest) || begins_with(Class::Is('*'), rest)
}

/// A punctuator that the text begins with, and what follows it. Its first character is followed by `more`.
fn sign_of<'a>(signs: Signs, text: &str, more: &'a str) -> Option<(&'static [u8], &'a str)>
    ensures value { (c : ℕ) → chars text.now ≡ c ∷ chars more.now → option_map (λ p. (p.0.now, chars p.1.now)) result ≡ spec.sign_of signs (chars text.now) }
    ensures shorter { IfSome result (λ p. length p.1.now ≤ length more.now) }
{
    let sign = sign_at(signs, text);
    if sign.is_empty() {
        return None;
    }
    Some((sign, skip(sign.len() - 1, more)))
}

/// A punctuator, and what it does to the regions.
fn punct<'a>(sign: &[u8], rest: &'a str, change: Change) -> Found<'a>
    ensures value { spec.next_of result ≡ spec.sign_next sign.now (chars rest.now) change }
    ensures same { result.rest.now ≡ rest.now }
{
    Found {
        kind: Kind::Punct,
        jsx: false,
        rest,
        change,
        before_jsx: is_before_jsx(sign),
    }
}

fn code_change(sign: &[u8]) -> Change
    ensures { result ≡ spec.code_change sign.now }
{
    if is_same(sign, b"{") {
        return Change::Enter(Region::Braces);
    }
    if is_same(sign, b"}") {
        return Change::Leave;
    }
    Change::Stay
}

/// A punctuator of code.
fn code_sign<'a>(text: &str, more: &'a str) -> Option<Found<'a>>
    ensures value { (c : ℕ) → chars text.now ≡ c ∷ chars more.now → option_map spec.next_of result ≡ spec.code_sign_next (chars text.now) }
    ensures shorter { IfSome result (λ f. length f.rest.now ≤ length more.now) }
{
    let Some((sign, rest)) = sign_of(Signs::Code, text, more) else {
        return None;
    };
    if is_same(sign, b"/") && opens_comment(rest) {
        return None;
    }
    Some(punct(sign, rest, code_change(sign)))
}

fn is_quote(c: char) -> bool
    ensures value { result ≡ has c (codes "'\"") }
    ensures no_backslash { result ≡ true → (c == 92) ≡ false }
{
    c == '\'' || c == '"'
}

/// Whether the character, in a template's hole or not, goes on with the template.
fn goes_on(c: char, in_hole: bool) -> bool
    ensures { result ≡ ((c == 125) && in_hole) }
{
    c == '}' && in_hole
}

/// Whether the character begins JSX in code, where a `<` does or not.
fn begins_jsx(c: char, before_jsx: bool) -> bool
    ensures { result ≡ ((c == 60) && before_jsx) }
{
    c == '<' && before_jsx
}

/// A token of code. In a template's hole a `}` goes on with the template.
fn code_token(text: &str, in_hole: bool, before_jsx: bool) -> Option<Found<'_>>
    ensures value { spec.CodeSteps in_hole before_jsx (chars text.now) (option_map spec.next_of result) }
    ensures shorter { IfSome result (λ f. length f.rest.now < length text.now) }
{
    let Some((c, more)) = split_first(text) else {
        return None;
    };
    if begins_name(c) {
        return Some(word(text, more));
    }
    if is_digit(c) {
        return int(c, text, more);
    }
    if is_quote(c) {
        return quoted(c, more);
    }
    if c == '`' {
        return template(Edge::Backquote, more);
    }
    if goes_on(c, in_hole) {
        return template(Edge::Hole, more);
    }
    if begins_jsx(c, before_jsx) {
        return Some(begin(more));
    }
    code_sign(text, more)
}

/// What follows the name of a tag or attribute, after its first letter.
fn after_tag_name(text: &str) -> &str
    ensures value { chars result.now ≡ spec.after_tag_name (chars text.now) }
    ensures within { length result.now ≤ length text.now }
{
    let rest = after_run(Class::Attribute, text);
    match after_char('$', rest) {
        Some(more) => more,
        None => rest,
    }
}

/// The text of an attribute, after its opening quote.
fn attribute_text(quote: char, more: &str) -> Option<Found<'_>>
    ensures value { option_map spec.next_of result ≡ spec.attribute_next quote (chars more.now) }
    ensures shorter { IfSome result (λ f. length f.rest.now ≤ length more.now) }
{
    match after_char(quote, after_run(Class::IsNot(quote), more)) {
        None => None,
        Some(rest) => Some(Found {
            kind: Kind::Text,
            jsx: true,
            rest,
            change: Change::Stay,
            before_jsx: false,
        }),
    }
}

fn tag_change(sign: &[u8]) -> Change
    ensures { result ≡ spec.tag_change sign.now }
{
    if is_same(sign, b"{") {
        return Change::Enter(Region::Braces);
    }
    if is_same(sign, b">") {
        return Change::Turn(Region::Children);
    }
    if is_same(sign, b"/>") {
        return Change::Leave;
    }
    Change::Stay
}

/// A punctuator of an opening tag.
fn tag_sign<'a>(text: &str, more: &'a str) -> Option<Found<'a>>
    ensures value { (c : ℕ) → chars text.now ≡ c ∷ chars more.now → option_map spec.next_of result ≡ spec.tag_sign_next (chars text.now) }
    ensures shorter { IfSome result (λ f. length f.rest.now ≤ length more.now) }
{
    match sign_of(Signs::Tag, text, more) {
        None => None,
        Some((sign, rest)) => Some(punct(sign, rest, tag_change(sign))),
    }
}

/// A token of an opening tag.
fn tag_token(text: &str) -> Option<Found<'_>>
    ensures value { (around : Around) → (before_jsx : _) → spec.Steps (λ _ t rest. is_tag_token t rest) (In_tag ∷ around) before_jsx (chars text.now) (option_map spec.next_of result) }
    ensures shorter { IfSome result (λ f. length f.rest.now < length text.now) }
{
    let Some((c, more)) = split_first(text) else {
        return None;
    };
    if is_letter(c) {
        return Some(plain(Kind::Name, after_tag_name(more)));
    }
    if is_quote(c) {
        return attribute_text(c, more);
    }
    tag_sign(text, more)
}

/// A token of a closing tag.
fn end_token(text: &str) -> Option<Found<'_>>
    ensures value { (around : Around) → (before_jsx : _) → spec.Steps (λ _ t rest. is_end_token t rest) (In_end ∷ around) before_jsx (chars text.now) (option_map spec.next_of result) }
    ensures shorter { IfSome result (λ f. length f.rest.now < length text.now) }
{
    let Some((c, more)) = split_first(text) else {
        return None;
    };
    if is_letter(c) {
        return Some(plain(Kind::Name, after_tag_name(more)));
    }
    if c == '>' {
        return Some(Found {
            kind: Kind::Punct,
            jsx: false,
            rest: more,
            change: Change::Leave,
            before_jsx: false,
        });
    }
    None
}

fn child_change(sign: &[u8]) -> Change
    ensures { result ≡ spec.child_change sign.now }
{
    if is_same(sign, b"{") {
        return Change::Enter(Region::Braces);
    }
    if is_same(sign, b"</") {
        return Change::Turn(Region::End);
    }
    Change::Leave
}

/// A token between tags that is no text, whose first character is `first`: a `{`, or a `<` with what belongs to it.
fn child_sign<'a>(first: char, text: &str, more: &'a str) -> Option<Found<'a>>
    ensures value { chars text.now ≡ first ∷ chars more.now → option_map spec.next_of result ≡ spec.child_sign_next first (chars more.now) (chars text.now) }
    ensures shorter { IfSome result (λ f. length f.rest.now ≤ length more.now) }
{
    if let Some((sign, rest)) = sign_of(Signs::Child, text, more) {
        return Some(punct(sign, rest, child_change(sign)));
    }
    if first == '<' {
        Some(begin(more))
    } else {
        None
    }
}

/// A token between the tags of an element.
fn child_token(text: &str) -> Option<Found<'_>>
    ensures value { (around : Around) → (before_jsx : _) → spec.Steps (λ _ t rest. is_child_token t rest) (Children ∷ around) before_jsx (chars text.now) (option_map spec.next_of result) }
    ensures shorter { IfSome result (λ f. length f.rest.now < length text.now) }
{
    let Some((c, more)) = split_first(text) else {
        return None;
    };
    if Class::Child.has(c) {
        return Some(plain(Kind::JsxText, after_run(Class::Child, more)));
    }
    child_sign(c, text, more)
}

fn token_in(text: &str, region: Region, before_jsx: bool) -> Option<Found<'_>>
    ensures value { (around : Around) → innermost around ≡ Some (region_of region) → spec.Steps (is_token around) around before_jsx (chars text.now) (option_map spec.next_of result) }
    ensures shorter { IfSome result (λ f. length f.rest.now < length text.now) }
{
    match region {
        Region::Braces => code_token(text, false, before_jsx),
        Region::Hole => code_token(text, true, before_jsx),
        Region::Tag => tag_token(text),
        Region::End => end_token(text),
        Region::Children => child_token(text),
    }
}

/// The token at the front of a text, in the innermost region around it.
pub(crate) fn next_token(text: &str, region: Option<Region>, before_jsx: bool) -> Option<Found<'_>>
    ensures value { (around : Around) → innermost around ≡ option_map region_of region → spec.Steps (is_token around) around before_jsx (chars text.now) (option_map spec.next_of result) }
    ensures shorter { IfSome result (λ f. length f.rest.now < length text.now) }
{
    match region {
        None => code_token(text, false, before_jsx),
        Some(region) => token_in(text, region, before_jsx),
    }
}
