//! Places in texts.

ghost use Rattle.std.specs.Prelude.{◌≡◌, suc, length, take};
ghost use Rattle.qk_modules.specs.Places as spec;

use qk_parse::ParseFault;

/// A place in a text: a line, and a column of it in bytes, each counted from 1.
#[derive(Clone, Copy, Debug, PartialEq, Eq)]
pub struct Place {
    pub line: u64,
    pub column: u64,
}

/// The beginning of a text.
pub(crate) const BEGINNING: Place = Place { line: 1, column: 1 };

/// The place of a fault of the text. Where that is too long, it is its beginning.
pub(crate) fn place_of(text: &[u8], fault: ParseFault) -> Place
    ensures { result ≡ spec.place_of text.now fault }
{
    match fault {
        ParseFault::Lexical { at } => place_at(text, at),
        ParseFault::Syntax { at } => place_at(text, at),
        ParseFault::TooDeep { at } => place_at(text, at),
        ParseFault::TooLong | ParseFault::Memory => BEGINNING,
    }
}

/// The place of a byte of the text.
fn place_at(text: &[u8], at: usize) -> Place
    ensures { result ≡ spec.place_in text.now at }
{
    let front = before(text, at);
    Place {
        line: line_after(front),
        column: column_after(front),
    }
}

/// What stands before a byte of the text.
fn before(text: &[u8], at: usize) -> &[u8]
    ensures { result.now ≡ take at text.now }
{
    &text[..at.min(text.len())]
}

/// The line of what follows.
fn line_after(front: &[u8]) -> u64
    ensures { result ≡ suc (spec.feeds front.now) }
{
    let mut line = 1;
    let mut rest = front;
    while let [byte, more @ ..] = rest {
        if *byte == b'\n' {
            line += 1;
        }
        rest = more;
    }
    line
}

/// The column of what follows.
fn column_after(front: &[u8]) -> u64
    ensures { result ≡ suc (length (spec.after_feeds front.now)) }
{
    let mut column = 1;
    let mut rest = front;
    while let [byte, more @ ..] = rest {
        if *byte == b'\n' {
            column = 1;
        } else {
            column += 1;
        }
        rest = more;
    }
    column
}
