// Reading a text from its front.
ghost use Rattle.std.specs.Prelude.{◌≡◌, ◌<◌, ◌≤◌, ◌==◌, [], ◌∷◌, length, drop, chars, IfSome, MatchOption};
ghost use Rattle.std.specs.Option.{option_map};
ghost use Rattle.qk_ast.specs.Characters.{is_letter, is_digit, is_blank, begins_name, continues_name, begins_with, after_run};
ghost use Rattle.qk_lex.specs.Scan.{after_char, is_in};

/// What the characters of a run have in common.
#[derive(Clone, Copy)]
pub(crate) enum Class {
    /// What goes on with a name.
    Name,
    Digit,
    /// What goes on with the name of a tag or attribute.
    Attribute,
    /// What stands in a comment to the line's end.
    Line,
    /// What stands in the text between tags.
    Child,
    Is(char),
    IsNot(char),
}

pub(crate) fn is_letter(c: char) -> bool
    ensures { result ≡ is_letter c }
{
    c.is_ascii_alphabetic()
}

pub(crate) fn is_digit(c: char) -> bool
    ensures { result ≡ is_digit c }
{
    c.is_ascii_digit()
}

pub(crate) fn is_blank(c: char) -> bool
    ensures { result ≡ is_blank c }
{
    c == ' ' || c == '\t' || c == '\n' || c == '\r'
}

pub(crate) fn begins_name(c: char) -> bool
    ensures { result ≡ begins_name c }
{
    if c == '_' || c == '$' {
        return true;
    }
    if (c as u32) < 128 {
        return is_letter(c);
    }
    unicode_ident::is_xid_start(c)
}

fn continues_name(c: char) -> bool
    ensures { result ≡ continues_name c }
{
    if c == '_' || c == '$' {
        return true;
    }
    if (c as u32) < 128 {
        return is_letter(c) || is_digit(c);
    }
    unicode_ident::is_xid_continue(c)
}

impl Class {
    pub(crate) fn has(self, c: char) -> bool
        ensures { result ≡ is_in self c }
    {
        match self {
            Class::Name => continues_name(c),
            Class::Digit => is_digit(c),
            Class::Attribute => is_letter(c) || is_digit(c) || c == '-' || c == ':',
            Class::Line => c != '\n',
            Class::Child => !(c == '{' || c == '<' || c == '>' || c == '}'),
            Class::Is(d) => c == d,
            Class::IsNot(d) => c != d,
        }
    }
}

/// The first character of a text, of one or more bytes, and what follows it.
fn split_first_decoded(text: &str) -> Option<(char, &str)>
    ensures value { MatchOption result (chars text.now ≡ []) (λ p. chars text.now ≡ p.0 ∷ chars p.1.now) }
    ensures shorter { IfSome result (λ p. length p.1.now < length text.now) }
{
    let mut characters = text.chars();
    match characters.next() {
        None => None,
        Some(c) => Some((c, characters.as_str())),
    }
}

/// The first character of a text, and what follows it.
pub fn split_first(text: &str) -> Option<(char, &str)>
    ensures value { MatchOption result (chars text.now ≡ []) (λ p. chars text.now ≡ p.0 ∷ chars p.1.now) }
    ensures shorter { IfSome result (λ p. length p.1.now < length text.now) }
{
    match text.as_bytes() {
        [first, ..] => {
            if *first < 128 {
                Some((*first as char, &text[1..]))
            } else {
                split_first_decoded(text)
            }
        }
        [] => None,
    }
}

/// What follows the character, where the text begins with it.
pub(crate) fn after_char(c: char, text: &str) -> Option<&str>
    ensures value { option_map (λ r. chars r.now) result ≡ after_char c (chars text.now) }
    ensures shorter { IfSome result (λ r. length r.now < length text.now) }
{
    match split_first(text) {
        None => None,
        Some((d, rest)) => { if d == c { Some(rest) } else { None } }
    }
}

/// Whether the first character is of the class.
pub(crate) fn begins_with(class: Class, text: &str) -> bool
    ensures { result ≡ begins_with (is_in class) (chars text.now) }
{
    match split_first(text) {
        None => false,
        Some((c, _)) => class.has(c),
    }
}

/// What follows the characters of the class at the front.
pub(crate) fn after_run(class: Class, text: &str) -> &str
    ensures value { chars result.now ≡ after_run (is_in class) (chars text.now) }
    ensures within { length result.now ≤ length text.now }
{
    let mut rest = text;
    while let Some((c, more)) = split_first(rest) {
        if !class.has(c) {
            return rest;
        }
        rest = more;
    }
    rest
}

/// What follows the first `count` characters.
pub(crate) fn skip(count: usize, text: &str) -> &str
    ensures value { chars result.now ≡ drop count (chars text.now) }
    ensures within { length result.now ≤ length text.now }
{
    let mut rest = text;
    for _ in 0..count {
        let Some((_, more)) = split_first(rest) else {
            return rest;
        };
        rest = more;
    }
    rest
}
