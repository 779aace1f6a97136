// The reserved words and the punctuators.
ghost use Rattle.std.specs.Prelude.{◌≡◌, ◌&&◌, if◌then◌else◌, nat_lt, [], length, map, chars, Some};
ghost use Rattle.qk_ast.specs.Characters.{same, is_one_of, is_front};
ghost use Rattle.qk_ast.specs.Tokens.{reserved_words, code_signs, tag_signs, child_signs, allows_jsx, longest_after};
ghost use Rattle.qk_ast.specs.Tokens as tokens;
ghost use Rattle.qk_lex.specs.Tables.{beginning, sign_at, signs_before_jsx, signs_of};

/// The words that are no names, of those that begin with that letter.
fn reserved_words(first: u8) -> &'static [&'static [u8]]
    ensures { map (λ k. k.now) result.now ≡ beginning first reserved_words }
{
    match first {
        b'a' => &[b"arguments", b"await"],
        b'b' => &[b"break"],
        b'c' => &[b"case", b"catch", b"class", b"const", b"continue"],
        b'd' => &[b"debugger", b"default", b"delete", b"do"],
        b'e' => &[b"else", b"enum", b"eval", b"export", b"extends"],
        b'f' => &[b"false", b"finally", b"for", b"function"],
        b'i' => &[
            b"if",
            b"implements",
            b"import",
            b"in",
            b"instanceof",
            b"interface",
        ],
        b'l' => &[b"let"],
        b'n' => &[b"new", b"null"],
        b'p' => &[b"package", b"private", b"protected", b"public"],
        b'r' => &[b"return"],
        b's' => &[b"static", b"super", b"switch"],
        b't' => &[b"this", b"throw", b"true", b"try", b"typeof"],
        b'u' => &[b"undefined"],
        b'v' => &[b"var", b"void"],
        b'w' => &[b"while", b"with"],
        b'y' => &[b"yield"],
        _ => &[],
    }
}

/// The punctuators of code that begin with that byte.
fn code_signs(first: u8) -> &'static [&'static [u8]]
    ensures { map (λ k. k.now) result.now ≡ beginning first code_signs }
{
    match first {
        b'(' => &[b"("],
        b')' => &[b")"],
        b'[' => &[b"["],
        b']' => &[b"]"],
        b'{' => &[b"{"],
        b'}' => &[b"}"],
        b'.' => &[b"."],
        b',' => &[b","],
        b';' => &[b";"],
        b':' => &[b":"],
        b'?' => &[b"?", b"??"],
        b'=' => &[b"=", b"=>", b"==="],
        b'!' => &[b"!", b"!=="],
        b'+' => &[b"+", b"++", b"+="],
        b'-' => &[b"-", b"--", b"-="],
        b'*' => &[b"*", b"*="],
        b'/' => &[b"/"],
        b'%' => &[b"%"],
        b'<' => &[b"<", b"<="],
        b'>' => &[b">", b">="],
        b'&' => &[b"&&"],
        b'|' => &[b"||"],
        _ => &[],
    }
}

/// The punctuators of a tag that begin with that byte.
fn tag_signs(first: u8) -> &'static [&'static [u8]]
    ensures { map (λ k. k.now) result.now ≡ beginning first tag_signs }
{
    match first {
        b'=' => &[b"="],
        b'{' => &[b"{"],
        b'>' => &[b">"],
        b'/' => &[b"/>"],
        _ => &[],
    }
}

/// The punctuators between tags that begin with that byte.
fn child_signs(first: u8) -> &'static [&'static [u8]]
    ensures { map (λ k. k.now) result.now ≡ beginning first child_signs }
{
    match first {
        b'{' => &[b"{"],
        b'<' => &[b"</", b"</>"],
        _ => &[],
    }
}

/// The punctuators after which a `<` of code begins JSX, of those that begin with that byte.
fn signs_before_jsx(first: u8) -> &'static [&'static [u8]]
    ensures { map (λ k. k.now) result.now ≡ beginning first signs_before_jsx }
{
    match first {
        b'(' => &[b"("],
        b',' => &[b","],
        b'=' => &[b"=", b"=>"],
        b'?' => &[b"?", b"??"],
        b':' => &[b":"],
        b'&' => &[b"&&"],
        b'|' => &[b"||"],
        b'{' => &[b"{"],
        b'[' => &[b"["],
        _ => &[],
    }
}

/// The tables of punctuators.
#[derive(Clone, Copy)]
pub(crate) enum Signs {
    Code,
    Tag,
    Child,
}

/// Whether the bytes are those. Most words that are compared differ in their first byte.
pub fn is_same(mut a: &[u8], mut b: &[u8]) -> bool
    ensures { result ≡ same a.entry.now b.entry.now }
{
    while let [c, a_rest @ ..] = a {
        match b {
            [d, b_rest @ ..] => {
                if c != d {
                    return false;
                }
                b = b_rest;
            }
            [] => return false,
        }
        a = a_rest;
    }
    b.is_empty()
}

fn is_listed(mut table: &[&[u8]], word: &[u8]) -> bool
    ensures { result ≡ is_one_of word.now (map (λ k. k.now) table.entry.now) }
{
    while let [entry, rest @ ..] = table {
        if is_same(word, entry) {
            return true;
        }
        table = rest;
    }
    false
}

fn begins_with(mut sign: &[u8], mut text: &[u8]) -> bool
    ensures { result ≡ is_front sign.entry.now text.entry.now }
{
    while let [c, sign_rest @ ..] = sign {
        match text {
            [d, text_rest @ ..] => {
                if c != d {
                    return false;
                }
                text = text_rest;
            }
            [] => return false,
        }
        sign = sign_rest;
    }
    true
}

/// The sign, where the text begins with it and it is longer than the best so far.
fn better<'a>(best: &'a [u8], sign: &'a [u8], text: &[u8]) -> &'a [u8]
    ensures { result.now ≡ (if is_front sign.now text.now && nat_lt (length best.now) (length sign.now) then sign.now else best.now) }
{
    if !begins_with(sign, text) {
        return best;
    }
    if best.len() < sign.len() { sign } else { best }
}

/// The longest of the signs that the text begins with; empty where it begins with none.
fn longest<'a>(mut table: &[&'a [u8]], text: &[u8]) -> &'a [u8]
    ensures { result.now ≡ longest_after [] (map (λ k. k.now) table.entry.now) text.now }
{
    let mut best: &'a [u8] = b"";
    while let [sign, rest @ ..] = table {
        best = better(best, sign, text);
        table = rest;
    }
    best
}

pub(crate) fn is_reserved(word: &[u8]) -> bool
    ensures { result ≡ is_one_of word.now reserved_words }
{
    match word {
        [first, ..] => is_listed(reserved_words(*first), word),
        [] => false,
    }
}

/// Whether a `<` after this sign begins JSX.
pub(crate) fn is_before_jsx(sign: &[u8]) -> bool
    ensures { result ≡ allows_jsx (Some (tokens.Punct sign.now)) }
{
    match sign {
        [first, ..] => is_listed(signs_before_jsx(*first), sign),
        [] => false,
    }
}

/// The signs of the table that begin with that byte.
fn signs_with(signs: Signs, first: u8) -> &'static [&'static [u8]]
    ensures { map (λ k. k.now) result.now ≡ beginning first (signs_of signs) }
{
    match signs {
        Signs::Code => code_signs(first),
        Signs::Tag => tag_signs(first),
        Signs::Child => child_signs(first),
    }
}

/// The longest sign of the table that the text begins with; empty where it begins with none.
fn longest_sign(signs: Signs, text: &[u8]) -> &'static [u8]
    ensures { result.now ≡ longest_after [] (signs_of signs) text.now }
{
    match text {
        [first, ..] => longest(signs_with(signs, *first), text),
        [] => b"",
    }
}

/// The longest sign that the text begins with; empty where it begins with none.
pub(crate) fn sign_at(signs: Signs, text: &str) -> &'static [u8]
    ensures { result.now ≡ sign_at signs (chars text.now) }
{
    longest_sign(signs, text.as_bytes())
}
