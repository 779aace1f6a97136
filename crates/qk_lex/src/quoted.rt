// Texts in quotes, and templates.
ghost use Rattle.std.specs.Prelude.{◌≡◌, ◌<◌, ◌≤◌, ◌==◌, true, false, length, chars, codes, IfSome, MatchOption};
ghost use Rattle.std.specs.Option.{option_map};
ghost use lib.Utf8.{scalar};
ghost use Rattle.qk_ast.specs.Characters.{has, is_hex_digit, digit_value};
ghost use Rattle.qk_lex.specs.Quotes.{with_digit, after_braced, after_digits, after_escape, Closes, Ends, edge_of, after_template_piece, after_text_piece, after_hole};

use crate::scan::{after_char, split_first};

/// More than any character's number.
const PAST_CHARACTERS: u32 = 0x11_0000;

/// Whether a character has the number. A surrogate is none.
fn is_scalar(number: u32) -> bool
    ensures { result ≡ scalar number }
{
    number < 0xd800 || (0xe000 <= number && number < PAST_CHARACTERS)
}

/// The value of a hexadecimal digit.
fn hex_value(c: char) -> Option<u32>
    ensures { MatchOption result (is_hex_digit c ≡ false) (λ v. (is_hex_digit c ≡ true) × (v ≡ digit_value c) × (v < 16)) }
{
    match c {
        '0'..='9' => Some(c as u32 - 48),
        'a'..='f' => Some(c as u32 - 87),
        'A'..='F' => Some(c as u32 - 55),
        _ => None,
    }
}

/// The number that goes on with one more hexadecimal digit. Past the characters' numbers it stays past them.
fn with_digit(number: u32, value: u32) -> u32
    requires { value < 16 }
    ensures { result ≡ with_digit number value }
{
    number.min(PAST_CHARACTERS) * 16 + value
}

/// What follows the digits of `\u{..}` and the brace after them.
fn after_braced(text: &str) -> Option<&str>
    ensures value { option_map (λ r. chars r.now) result ≡ after_braced 0 false (chars text.now) }
    ensures shorter { IfSome result (λ r. length r.now ≤ length text.now) }
{
    let mut rest = text;
    let mut number = 0;
    let mut some = false;
    while let Some((c, more)) = split_first(rest) {
        match hex_value(c) {
            None => {
                return if c == '}' && some && is_scalar(number) {
                    Some(more)
                } else {
                    None
                };
            }
            Some(value) => number = with_digit(number, value),
        }
        some = true;
        rest = more;
    }
    None
}

/// What follows the four digits of `\uHHHH`.
fn after_four(text: &str) -> Option<&str>
    ensures value { option_map (λ r. chars r.now) result ≡ after_digits 4 0 (chars text.now) }
    ensures shorter { IfSome result (λ r. length r.now ≤ length text.now) }
{
    let mut rest = text;
    let mut number = 0;
    for _ in 0..4u32 {
        let Some((c, more)) = split_first(rest) else {
            return None;
        };
        let Some(value) = hex_value(c) else {
            return None;
        };
        number = with_digit(number, value);
        rest = more;
    }
    if is_scalar(number) { Some(rest) } else { None }
}

/// Whether a backslash before it makes an escape of two characters.
fn is_escaped(c: char) -> bool
    ensures { result ≡ has c (codes "nrt\\'\"`$") }
{
    c == 'n' || c == 'r' || c == 't' || c == '\\' || c == '\'' || c == '"' || c == '`' || c == '$'
}

/// What follows the escape that the text begins with, after its backslash.
fn after_escape(text: &str) -> Option<&str>
    ensures value { option_map (λ r. chars r.now) result ≡ after_escape (chars text.now) }
    ensures shorter { IfSome result (λ r. length r.now ≤ length text.now) }
{
    match split_first(text) {
        None => None,
        Some((c, rest)) => {
            if is_escaped(c) {
                return Some(rest);
            }
            if c != 'u' {
                return None;
            }
            match after_char('{', rest) {
                Some(digits) => after_braced(digits),
                None => after_four(rest),
            }
        }
    }
}

/// What follows a piece of a text, of which `c` is the first character. A raw line feed or carriage return is none.
fn after_text_piece(c: char, more: &str) -> Option<&str>
    ensures value { option_map (λ r. chars r.now) result ≡ after_text_piece c (chars more.now) }
    ensures shorter { IfSome result (λ r. length r.now ≤ length more.now) }
{
    if c == '\\' {
        return after_escape(more);
    }
    if c == '\n' || c == '\r' {
        return None;
    }
    Some(more)
}

/// What follows the quote that closes a text.
pub(crate) fn after_text(quote: char, text: &str) -> Option<&str>
    requires { (quote == 92) ≡ false }
    ensures value { Closes quote (chars text.now) (option_map (λ r. chars r.now) result) }
    ensures shorter { IfSome result (λ r. length r.now ≤ length text.now) }
{
    let mut rest = text;
    while let Some((c, more)) = split_first(rest) {
        if c == quote {
            return Some(more);
        }
        match after_text_piece(c, more) {
            None => return None,
            Some(next) => rest = next,
        }
    }
    None
}

/// Where a part of a template ends.
#[derive(Clone, Copy)]
pub(crate) enum Edge {
    Backquote,
    Hole,
}

/// What follows a piece of a template, of which `c` is the first character. A carriage return takes the line feed after it.
fn after_template_piece(c: char, more: &str) -> Option<&str>
    ensures value { option_map (λ r. chars r.now) result ≡ after_template_piece c (chars more.now) }
    ensures shorter { IfSome result (λ r. length r.now ≤ length more.now) }
{
    if c == '\\' {
        return after_escape(more);
    }
    if c == '\r' {
        return match after_char('\n', more) {
            Some(next) => Some(next),
            None => Some(more),
        };
    }
    Some(more)
}

/// What follows `${`, of which `c` is the first character.
fn after_hole(c: char, more: &str) -> Option<&str>
    ensures value { option_map (λ r. chars r.now) result ≡ after_hole c (chars more.now) }
    ensures shorter { IfSome result (λ r. length r.now ≤ length more.now) }
{
    if c == '$' {
        after_char('{', more)
    } else {
        None
    }
}

/// What follows the part of a template, and whether it ends at the template's end or at a hole.
pub(crate) fn after_template(text: &str) -> Option<(Edge, &str)>
    ensures value { Ends (chars text.now) (option_map (λ p. (edge_of p.0, chars p.1.now)) result) }
    ensures shorter { IfSome result (λ p. length p.1.now ≤ length text.now) }
{
    let mut rest = text;
    while let Some((c, more)) = split_first(rest) {
        if c == '`' {
            return Some((Edge::Backquote, more));
        }
        if let Some(inside) = after_hole(c, more) {
            return Some((Edge::Hole, inside));
        }
        match after_template_piece(c, more) {
            None => return None,
            Some(next) => rest = next,
        }
    }
    None
}
