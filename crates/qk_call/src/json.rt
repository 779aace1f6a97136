//! Texts in JSON, with the escapes that engines write.

use std::alloc::AllocError;

const DIGITS: [u8; 16] = *b"0123456789abcdef";

/// Appends a text in quotes.
pub(crate) fn put_quoted(text: &str, out: &mut Vec<u8>) -> Result<(), AllocError> {
    out.push(b'"')?;
    for byte in text.as_bytes() {
        put_byte(*byte, out)?;
    }
    out.push(b'"')?;
    Ok(())
}

fn put_byte(byte: u8, out: &mut Vec<u8>) -> Result<(), AllocError> {
    match byte {
        b'"' => out.extend_from_slice(b"\\\""),
        b'\\' => out.extend_from_slice(b"\\\\"),
        0..=31 => put_control(byte, out),
        _ => out.extend_from_slice(&[byte]),
    }
}

/// A character below 32.
fn put_control(byte: u8, out: &mut Vec<u8>) -> Result<(), AllocError> {
    match byte {
        8 => out.extend_from_slice(b"\\b"),
        9 => out.extend_from_slice(b"\\t"),
        10 => out.extend_from_slice(b"\\n"),
        12 => out.extend_from_slice(b"\\f"),
        13 => out.extend_from_slice(b"\\r"),
        _ => {
            out.extend_from_slice(b"\\u00")?;
            out.extend_from_slice(&[
                DIGITS[(byte / 16) as usize % 16],
                DIGITS[(byte % 16) as usize],
            ])
        }
    }
}
