// The text between JSX tags, and the text of an attribute.
ghost use Rattle.std.specs.Prelude.{◌≡◌, ◌≢◌, ◌<◌, ◌≤◌, ◌-◌, ◌++◌, ◌∷◌, if◌then◌else◌, length, map, take, drop, chars, IfOk, IfErr, OnOk};
ghost use Rattle.std.specs.Str.{encode_utf8_all};
ghost use Rattle.std.specs.String.{string_bytes};
ghost use Rattle.qk_ast.specs.Characters.{every, is_front};
ghost use Rattle.qk_ast.specs.JsxText as definition;
ghost use Rattle.qk_lex.specs.Joining.{line_end, drop_return, appended, first_decoded, stays};
ghost use Rattle.qk_lex.specs.declared.LexFault.TheVariants.{Memory};

use crate::LexFault;
use crate::scan::split_first;
use std::alloc::{AllocError, Global};

/// A tab counts as a space.
fn untabbed(c: char) -> char
    ensures { result ≡ definition.untabbed c }
{
    if c == '\t' { ' ' } else { c }
}

fn without_spaces_before(line: &[char]) -> &[char]
    ensures { result.now ≡ definition.without_spaces_before line.now }
{
    let mut rest = line;
    while let [first, more @ ..] = rest {
        if *first != ' ' {
            return rest;
        }
        rest = more;
    }
    rest
}

fn without_spaces_after(line: &[char]) -> &[char]
    ensures { result.now ≡ definition.without_spaces_after line.now }
{
    let mut end = line.len();
    while end > 0 {
        if line[end - 1] != ' ' {
            return &line[..end];
        }
        end -= 1;
    }
    &line[..0]
}

/// The place of the first line feed, or the end.
fn line_end(text: &[char]) -> usize
    ensures value { result ≡ line_end text.now }
    ensures within { result ≤ length text.now }
{
    for i in 0..text.len() {
        if text[i] == '\n' {
            return i;
        }
    }
    text.len()
}

/// A line without the carriage return at its end.
fn without_return(line: &[char]) -> &[char]
    ensures { result.now ≡ drop_return line.now }
{
    let count = line.len();
    if count == 0 {
        return line;
    }
    if line[count - 1] == '\r' {
        return &line[..count - 1];
    }
    line
}

/// One line more, after a space where it isn't the first that has something.
fn append_line(joined: &mut Vec<char>, line: &[char]) -> Result<(), AllocError>
    ensures { OnOk result (joined.new.items ≡ appended joined.old.items line.now) }
{
    if line.is_empty() {
        return Ok(());
    }
    if !joined.is_empty() {
        joined.push(' ')?;
    }
    joined.extend_from_slice(line)?;
    Ok(())
}

/// What follows so many characters.
fn after(text: &[char], count: usize) -> &[char]
    ensures value { result.now ≡ drop count text.now }
    ensures len { length result.now ≡ length text.now - count }
{
    &text[count.min(text.len())..]
}

/// A line without the spaces at its start, unless it is the first.
fn start_of(line: &[char], first: bool) -> &[char]
    ensures { result.now ≡ (if first then line.now else definition.without_spaces_before line.now) }
{
    if first {
        line
    } else {
        without_spaces_before(line)
    }
}

/// The lines of a text, without the spaces around their ends, joined by one space each.
fn joined_lines(alloc: Global, text: &[char]) -> Result<Vec<char>, AllocError>
    ensures { IfOk result (λ v. v.items ≡ definition.joined (definition.trimmed (definition.lines text.now))) }
{
    let mut joined = Vec::new(alloc);
    let mut rest = text;
    let mut first = true;
    loop {
        let end = line_end(rest);
        if end == rest.len() {
            append_line(&mut joined, start_of(rest, first))?;
            return Ok(joined);
        }
        let start = start_of(without_return(&rest[..end]), first);
        append_line(&mut joined, without_spaces_after(start))?;
        rest = after(after(rest, end), 1);
        first = false;
    }
}

/// The character at the front of a text, an entity counting as one, and how many characters spell it.
fn first_decoded(text: &[char]) -> (char, usize)
    requires { 0 < length text.now }
    ensures value { result ≡ first_decoded text.now }
    ensures some { 0 < result.1 }
{
    if text.starts_with(&['&', 'a', 'm', 'p', ';']) {
        return ('&', 5);
    }
    if text.starts_with(&['&', 'l', 't', ';']) {
        return ('<', 4);
    }
    if text.starts_with(&['&', 'g', 't', ';']) {
        return ('>', 4);
    }
    if text.starts_with(&['&', 'q', 'u', 'o', 't', ';']) {
        return ('"', 6);
    }
    if text.starts_with(&['&', 'n', 'b', 's', 'p', ';']) {
        return ('\u{a0}', 6);
    }
    (text[0], 1)
}

/// The text with each of the five entities as its character.
fn decoded_text(alloc: Global, text: &[char]) -> Result<String, AllocError>
    ensures { IfOk result (λ s. string_bytes s ≡ encode_utf8_all (definition.decoded text.now)) }
{
    let mut decoded = String::new(alloc);
    let mut rest = text;
    while !rest.is_empty() {
        let (c, count) = first_decoded(rest);
        decoded.push(c)?;
        rest = after(rest, count);
    }
    Ok(decoded)
}

/// Whether each character of a text is read as it is written.
fn is_plain(text: &str) -> bool
    ensures { result ≡ every stays (chars text.now) }
{
    let mut rest = text;
    while let Some((c, more)) = split_first(rest) {
        if c == '&' || c == '\n' || c == '\t' {
            return false;
        }
        rest = more;
    }
    true
}

fn characters_of(alloc: Global, raw: &str) -> Result<Vec<char>, AllocError>
    ensures { IfOk result (λ v. v.items ≡ chars raw.now) }
{
    raw.chars().collect(alloc)
}

fn untabbed_characters(alloc: Global, raw: &str) -> Result<Vec<char>, AllocError>
    ensures { IfOk result (λ v. v.items ≡ map definition.untabbed (chars raw.now)) }
{
    raw.chars().map(untabbed).collect(alloc)
}

/// The text that a `JsxText` token stands for: a tab counts as a space, the spaces at the ends of its lines go, but not those that it begins and
/// ends with, the lines that aren't empty are joined by one space, and the five entities are decoded. It fails only for want of memory.
pub fn jsx_text(alloc: Global, raw: &str) -> Result<String, LexFault>
    ensures text { IfOk result (λ s. string_bytes s ≡ encode_utf8_all (definition.jsx_text (chars raw.now))) }
    ensures memory { IfErr result (λ fault. fault ≡ Memory) }
{
    if is_plain(raw) {
        return Ok(String::from_str(alloc, raw)?);
    }
    let characters = untabbed_characters(alloc, raw)?;
    let joined = joined_lines(alloc, characters.as_slice())?;
    Ok(decoded_text(alloc, joined.as_slice())?)
}

/// The text that an attribute's text stands for, without its quotes: the five entities are decoded. It fails only for want of memory.
pub fn attribute_text(alloc: Global, raw: &str) -> Result<String, LexFault>
    ensures text { IfOk result (λ s. string_bytes s ≡ encode_utf8_all (definition.decoded (chars raw.now))) }
    ensures memory { IfErr result (λ fault. fault ≡ Memory) }
{
    if is_plain(raw) {
        return Ok(String::from_str(alloc, raw)?);
    }
    let characters = characters_of(alloc, raw)?;
    Ok(decoded_text(alloc, characters.as_slice())?)
}
