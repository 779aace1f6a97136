//! What is printed of a call.

ghost use Rattle.std.specs.Prelude.{◌≡◌, ◌++◌, IfOk, OnOk, flat_map, codes};
ghost use Rattle.qk_meaning.specs.Output.{printed_char, line};
ghost use Rattle.qk_call.specs.Printing.{IsText, EndsIn, log_line};

use crate::components::Component;
use crate::played::{Came, Played};
use crate::values::text_of;
use qk_shared::Text;
use std::alloc::{AllocError, Global};

/// The text that is printed of a call: its console lines, and then how it came out.
pub(crate) fn played_text(
    alloc: Global,
    played: &Played,
    components: &[Component],
) -> Result<Vec<u8>, AllocError>
    ensures { IfOk result (λ text. IsText played.now text.items) }
{
    let mut out = Vec::new(alloc);
    put_lines(played.lines.as_slice(), &mut out)?;
    let last = last_line(alloc, played, components)?;
    out.extend_from_slice(last.as_slice())?;
    Ok(out)
}

/// Console lines.
fn put_lines(lines: &[Text], out: &mut Vec<u8>) -> Result<(), AllocError>
    ensures { OnOk result (out.new.items ≡ out.old.items ++ flat_map log_line lines.now) }
{
    for line in lines {
        put_line(line, out)?;
    }
    Ok(())
}

fn put_line(line: &Text, out: &mut Vec<u8>) -> Result<(), AllocError>
    ensures { OnOk result (out.new.items ≡ out.old.items ++ log_line line.now) }
{
    out.extend_from_slice(b"log ")?;
    put_escaped(line.as_str().as_bytes(), out)?;
    out.extend_from_slice(b"\n")
}

/// How the call came out, on a line.
fn last_line(
    alloc: Global,
    played: &Played,
    components: &[Component],
) -> Result<Vec<u8>, AllocError>
    ensures { IfOk result (λ text. EndsIn played.now.came text.items) }
{
    let mut out = Vec::new(alloc);
    match &played.came {
        Came::Value(v) => {
            let text = text_of(alloc, &played.heap, components, v)?;
            put_escaped(text.as_slice(), &mut out)?;
        }
        Came::Fault(f) => {
            out.extend_from_slice(b"fault ")?;
            out.extend_from_slice(f.name().as_bytes())?;
        }
        Came::Ended => out.extend_from_slice(b"ended")?,
    }
    out.extend_from_slice(b"\n")?;
    Ok(out)
}

/// A text in which a backslash, a line feed and a carriage return are written by two characters.
fn put_escaped(text: &[u8], out: &mut Vec<u8>) -> Result<(), AllocError>
    ensures { OnOk result (out.new.items ≡ out.old.items ++ flat_map printed_char text.now) }
{
    for byte in text {
        put_byte(*byte, out)?;
    }
    Ok(())
}

fn put_byte(byte: u8, out: &mut Vec<u8>) -> Result<(), AllocError>
    ensures { OnOk result (out.new.items ≡ out.old.items ++ printed_char byte) }
{
    match byte {
        b'\\' => out.extend_from_slice(b"\\\\"),
        b'\n' => out.extend_from_slice(b"\\n"),
        b'\r' => out.extend_from_slice(b"\\r"),
        _ => out.extend_from_slice(&[byte]),
    }
}
