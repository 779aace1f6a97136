//! Texts, numbers, names and signs.
#![tactic(auto, using(crate::proofs::Fronts::begins_same, crate::proofs::Fronts::begins_with, crate::proofs::Fronts::begins_after))]

ghost use Rattle.std.specs.Prelude.{◌≡◌, ◌++◌, ◌<◌, OnOk, OnErr, flat_map, map, codes};
ghost use Rattle.std.specs.Fmt.{signed_decimal};
ghost use Rattle.qk_print.specs.Growing.{Begins};
ghost use Rattle.qk_print.specs.Letters.{control, escaped, quoted, template_part, digit, truth, un_sign, bin_sign, assign_sign, bump_sign};

use qk_ast::{AssignOp, Bin, Un};
use qk_shared::Text;
use std::alloc::AllocError;

/// A text as it is.
pub(crate) fn put(text: &str, out: &mut Vec<u8>) -> Result<(), AllocError>
    ensures ok { OnOk result (out.new.items ≡ out.old.items ++ text.now) }
    ensures front { OnErr result (Begins out.old.items out.new.items) }
{
    out.extend_from_slice(text.as_bytes())
}

/// An integer in decimal.
pub(crate) fn integer(n: i64, out: &mut Vec<u8>) -> Result<(), AllocError>
    ensures ok { OnOk result (out.new.items ≡ out.old.items ++ signed_decimal n) }
    ensures front { OnErr result (Begins out.old.items out.new.items) }
{
    let mut buffer = itoa::Buffer::new();
    out.extend_from_slice(buffer.format(n).as_bytes())
}

/// A text in quotes.
pub(crate) fn quoted(text: &Text, out: &mut Vec<u8>) -> Result<(), AllocError>
    ensures ok { OnOk result (out.new.items ≡ out.old.items ++ quoted text.now) }
    ensures front { OnErr result (Begins out.old.items out.new.items) }
{
    out.extend_from_slice(b"\"")?;
    escaped(text.as_str().as_bytes(), b"\"\\", out)?;
    out.extend_from_slice(b"\"")
}

/// What stands between two holes of a template.
pub(crate) fn template_part(text: &Text, out: &mut Vec<u8>) -> Result<(), AllocError>
    ensures ok { OnOk result (out.new.items ≡ out.old.items ++ template_part text.now) }
    ensures front { OnErr result (Begins out.old.items out.new.items) }
{
    escaped(text.as_str().as_bytes(), b"`\\$", out)
}

/// The bytes of a text, those below 32 as escapes, and these two or three with a backslash before them.
fn escaped(text: &[u8], marked: &[u8], out: &mut Vec<u8>) -> Result<(), AllocError>
    ensures ok { OnOk result (out.new.items ≡ out.old.items ++ flat_map (escaped marked.now) text.now) }
    ensures front { OnErr result (Begins out.old.items out.new.items) }
{
    for byte in text {
        escaped_byte(*byte, marked, out)?;
    }
    Ok(())
}

fn escaped_byte(byte: u8, marked: &[u8], out: &mut Vec<u8>) -> Result<(), AllocError>
    ensures ok { OnOk result (out.new.items ≡ out.old.items ++ escaped marked.now byte) }
    ensures front { OnErr result (Begins out.old.items out.new.items) }
{
    if byte < 32 {
        return control(byte, out);
    }
    if marked.contains(&byte) {
        return out.extend_from_slice(&[b'\\', byte]);
    }
    out.push(byte)?;
    Ok(())
}

/// A character below 32 as an escape.
fn control(byte: u8, out: &mut Vec<u8>) -> Result<(), AllocError>
    ensures ok { OnOk result (out.new.items ≡ out.old.items ++ control byte) }
    ensures front { OnErr result (Begins out.old.items out.new.items) }
{
    match byte {
        b'\n' => out.extend_from_slice(b"\\n"),
        b'\r' => out.extend_from_slice(b"\\r"),
        b'\t' => out.extend_from_slice(b"\\t"),
        _ => {
            out.extend_from_slice(b"\\u00")?;
            out.push(digit(byte / 16))?;
            out.push(digit(byte % 16))?;
            Ok(())
        }
    }
}

/// A hexadecimal digit in small letters.
fn digit(n: u8) -> u8
    requires { n < 16 }
    ensures { result ≡ digit n }
{
    if n < 10 { b'0' + n } else { b'a' + (n - 10) }
}

pub(crate) fn truth(value: bool) -> &'static str
    ensures { result.now ≡ truth value }
{
    if value { "true" } else { "false" }
}

pub(crate) fn un_sign(op: Un) -> &'static str
    ensures { result.now ≡ un_sign op }
{
    match op {
        Un::Not => "!",
        Un::Neg => "-",
    }
}

/// A binary operator with its spaces.
pub(crate) fn bin_sign(op: Bin) -> &'static str
    ensures { result.now ≡ bin_sign op }
{
    match op {
        Bin::Or => " || ",
        Bin::And => " && ",
        Bin::Coalesce => " ?? ",
        Bin::Same => " === ",
        Bin::NotSame => " !== ",
        Bin::Less => " < ",
        Bin::LessEq => " <= ",
        Bin::More => " > ",
        Bin::MoreEq => " >= ",
        Bin::Add => " + ",
        Bin::Sub => " - ",
        Bin::Mul => " * ",
        Bin::Rem => " % ",
    }
}

/// The sign of an assignment with its spaces.
pub(crate) fn assign_sign(op: AssignOp) -> &'static str
    ensures { result.now ≡ assign_sign op }
{
    match op {
        AssignOp::Set => " = ",
        AssignOp::Add => " += ",
        AssignOp::Sub => " -= ",
        AssignOp::Mul => " *= ",
    }
}

pub(crate) fn bump_sign(up: bool) -> &'static str
    ensures { result.now ≡ bump_sign up }
{
    if up { "++" } else { "--" }
}
