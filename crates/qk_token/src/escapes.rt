//! The characters that the pieces of a text or a template's part stand for.

ghost use Rattle.std.specs.Prelude.{◌≡◌, ◌≤◌, ◌<◌, ℕ, true, false, if◌then◌else◌, [], ◌∷◌, length, take, drop, chars, IfSome, MatchOption};
ghost use lib.Utf8.{scalar};
ghost use Rattle.qk_ast.specs.Characters.{is_hex_digit, digit_value, run};
ghost use Rattle.qk_ast.specs.Tokens.{Escaped, Braced, piece_value};
ghost use Rattle.qk_lex.specs.Quotes.{with_digit};
ghost use Rattle.qk_token.specs.Pieces.{standing, after_u, after_backslash, first_piece, shown};

use crate::front::{after_char, split_first, without_first};

/// More than any character's number.
const PAST_CHARACTERS: u32 = 0x11_0000;

/// The value of a hexadecimal digit.
fn hex_value(c: char) -> Option<u32>
    ensures { MatchOption result (is_hex_digit c ≡ false) (λ v. (is_hex_digit c ≡ true) × (v ≡ digit_value c) × (v < 16)) }
{
    match c {
        '0'..='9' => Some(c as u32 - 48),
        'a'..='f' => Some(c as u32 - 87),
        'A'..='F' => Some(c as u32 - 55),
        _ => None,
    }
}

/// The value of the hexadecimal digit at the front, and what follows it.
fn first_digit(text: &str) -> Option<(u32, &str)>
    ensures value { MatchOption result (run is_hex_digit (chars text.now) ≡ []) (λ p. (c : ℕ) × (chars text.now ≡ c ∷ chars p.1.now) × (is_hex_digit c ≡ true) × (p.0 ≡ digit_value c)) }
    ensures small { IfSome result (λ p. p.0 < 16) }
    ensures shorter { IfSome result (λ p. length p.1.now < length text.now) }
{
    let Some((c, rest)) = split_first(text) else {
        return None;
    };
    match hex_value(c) {
        None => None,
        Some(value) => Some((value, rest)),
    }
}

/// The number that goes on with one more hexadecimal digit. Past the characters' numbers it stays past them.
fn with_digit(number: u32, value: u32) -> u32
    requires { value < 16 }
    ensures { result ≡ with_digit number value }
{
    number.min(PAST_CHARACTERS) * 16 + value
}

/// The character of that number, or U+FFFD where none has it.
fn character(number: u32) -> char
    ensures { result ≡ (if scalar number then number else 65533) }
{
    char::from_u32(number).unwrap_or('\u{fffd}')
}

/// The character of the hexadecimal digits at the front, so many at most, and what follows them.
fn hex_character(text: &str, most: usize) -> (char, &str)
    ensures value { result.0 ≡ piece_value (standing (Braced (take most (run is_hex_digit (chars text.now))))) }
    ensures rest { chars result.1.now ≡ drop (length (take most (run is_hex_digit (chars text.now)))) (chars text.now) }
    ensures within { length result.1.now ≤ length text.now }
{
    let mut rest = text;
    let mut number = 0;
    for _ in 0..most {
        let Some((value, more)) = first_digit(rest) else {
            return (character(number), rest);
        };
        number = with_digit(number, value);
        rest = more;
    }
    (character(number), rest)
}

/// The character of an escape by number, behind its `\u`, and what follows it.
fn numbered(text: &str) -> (char, &str)
    ensures value { (result.0, chars result.1.now) ≡ shown (after_u (chars text.now)) }
    ensures within { length result.1.now ≤ length text.now }
{
    match after_char('{', text) {
        None => hex_character(text, 4),
        Some(digits) => {
            let (c, rest) = hex_character(digits, digits.len());
            (c, without_first(rest))
        }
    }
}

/// The character that a backslash makes of one.
fn escaped(c: char) -> char
    ensures { result ≡ piece_value (Escaped c) }
{
    match c {
        'n' => '\n',
        'r' => '\r',
        't' => '\t',
        _ => c,
    }
}

/// The character of an escape, behind its backslash, and what follows it.
fn unescaped(text: &str) -> (char, &str)
    ensures value { (result.0, chars result.1.now) ≡ shown (after_backslash (chars text.now)) }
    ensures within { length result.1.now ≤ length text.now }
{
    match split_first(text) {
        None => ('\\', text),
        Some((c, rest)) => {
            if c == 'u' {
                numbered(rest)
            } else {
                (escaped(c), rest)
            }
        }
    }
}

/// The character of the piece that begins with `c`, and what follows it.
#[tactic(auto, unfolding(crate::specs::Pieces::first_piece))]
pub(crate) fn first_character(c: char, more: &str) -> (char, &str)
    ensures value { (result.0, chars result.1.now) ≡ shown (first_piece c (chars more.now)) }
    ensures within { length result.1.now ≤ length more.now }
{
    if c == '\\' {
        return unescaped(more);
    }
    if c == '\r' {
        return match after_char('\n', more) {
            Some(rest) => ('\n', rest),
            None => ('\n', more),
        };
    }
    (c, more)
}
