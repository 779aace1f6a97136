//! Texts with those of their characters by name that mean something in HTML.

ghost use Rattle.qk_meaning.specs.Html as meaning;
ghost use Rattle.qk_html.specs.Appends.{Appends};

use crate::writing::{HtmlFault, push};

/// Appends the text of a node.
pub(crate) fn text(bytes: &[u8], most: usize, out: &mut Vec<u8>) -> Result<(), HtmlFault>
    ensures { Appends (meaning.written meaning.text_char bytes.now) most out.old.items out.new.items result }
{
    for byte in bytes {
        text_byte(*byte, most, out)?;
    }
    Ok(())
}

fn text_byte(byte: u8, most: usize, out: &mut Vec<u8>) -> Result<(), HtmlFault>
    ensures { Appends (meaning.text_char byte) most out.old.items out.new.items result }
{
    match byte {
        b'&' => push(b"&amp;", most, out),
        b'<' => push(b"&lt;", most, out),
        b'>' => push(b"&gt;", most, out),
        _ => push(&[byte], most, out),
    }
}

/// Appends the text of an attribute.
pub(crate) fn attribute_text(bytes: &[u8], most: usize, out: &mut Vec<u8>) -> Result<(), HtmlFault>
    ensures { Appends (meaning.written meaning.attribute_char bytes.now) most out.old.items out.new.items result }
{
    for byte in bytes {
        attribute_byte(*byte, most, out)?;
    }
    Ok(())
}

fn attribute_byte(byte: u8, most: usize, out: &mut Vec<u8>) -> Result<(), HtmlFault>
    ensures { Appends (meaning.attribute_char byte) most out.old.items out.new.items result }
{
    match byte {
        b'"' => push(b"&quot;", most, out),
        _ => text_byte(byte, most, out),
    }
}
