//! Reading a text from its front and from its end.

ghost use Rattle.std.specs.Prelude.{◌≡◌, ◌<◌, ◌≤◌, [], ◌∷◌, ◌++◌, length, drop, chars, IfSome, MatchOption};
ghost use Rattle.std.specs.Option.{option_map};
ghost use Rattle.qk_lex.specs.Scan.{after_char};
ghost use Rattle.qk_token.specs.Lexed.{first_of, last_of, without_last};

/// The first character of a text, and what follows it.
pub fn split_first(text: &str) -> Option<(char, &str)>
    ensures value { MatchOption result (chars text.now ≡ []) (λ p. chars text.now ≡ p.0 ∷ chars p.1.now) }
    ensures shorter { IfSome result (λ p. length p.1.now < length text.now) }
{
    qk_lex::split_first(text)
}

/// What follows the character, where the text begins with it.
pub(crate) fn after_char(c: char, text: &str) -> Option<&str>
    ensures value { option_map (λ r. chars r.now) result ≡ after_char c (chars text.now) }
    ensures shorter { IfSome result (λ r. length r.now < length text.now) }
{
    match split_first(text) {
        None => None,
        Some((d, rest)) => { if d == c { Some(rest) } else { None } }
    }
}

/// What follows the first character.
pub(crate) fn without_first(text: &str) -> &str
    ensures value { chars result.now ≡ drop 1 (chars text.now) }
    ensures within { length result.now ≤ length text.now }
{
    match split_first(text) {
        None => text,
        Some((_, rest)) => rest,
    }
}

/// What stands before the last character of a text, and that character.
pub(crate) fn split_last(text: &str) -> Option<(&str, char)>
    ensures value { MatchOption result (chars text.now ≡ []) (λ p. chars text.now ≡ chars p.0.now ++ p.1 ∷ []) }
{
    let mut characters = text.chars();
    match characters.next_back() {
        None => None,
        Some(c) => Some((characters.as_str(), c)),
    }
}

/// The first character; NUL where there is none.
pub(crate) fn first_of(text: &str) -> char
    ensures { result ≡ first_of (chars text.now) }
{
    match split_first(text) {
        None => '\0',
        Some((c, _)) => c,
    }
}

/// The last character; NUL where there is none.
pub(crate) fn last_of(text: &str) -> char
    ensures { result ≡ last_of (chars text.now) }
{
    match split_last(text) {
        None => '\0',
        Some((_, c)) => c,
    }
}

/// What stands before the last character.
pub(crate) fn without_last(text: &str) -> &str
    ensures { chars result.now ≡ without_last (chars text.now) }
{
    match split_last(text) {
        None => text,
        Some((rest, _)) => rest,
    }
}
