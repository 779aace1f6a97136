//! Bytes at the end of a buffer, up to a limit on its length.

ghost use Rattle.qk_html.specs.Appends.{Appends};

use qk_shared::Text;
use std::alloc::AllocError;

/// Why there is no HTML.
#[derive(Clone, Copy, Debug, Drop, PartialEq, Eq)]
pub enum HtmlFault {
    /// The text has more than 16,777,216 bytes.
    TooLong,
    /// Memory ran out.
    Memory,
}

impl From<AllocError> for HtmlFault {
    ghost use Rattle.std.specs.Prelude.{◌≡◌};
    ghost use Rattle.qk_html.specs.declared.writing.HtmlFault.TheVariants.{Memory};

    ghost from_gives = { λ _ e. e ≡ Memory };

    fn from(_: AllocError) -> HtmlFault {
        HtmlFault::Memory
    }
}

/// Appends bytes, unless the buffer would have more than `most` then.
pub(crate) fn push(bytes: &[u8], most: usize, out: &mut Vec<u8>) -> Result<(), HtmlFault>
    ensures { Appends bytes.now most out.old.items out.new.items result }
{
    if bytes.len() > most.saturating_sub(out.len()) {
        return Err(HtmlFault::TooLong);
    }
    out.extend_from_slice(bytes)?;
    Ok(())
}

/// Appends a text as it is.
pub(crate) fn put(text: &Text, most: usize, out: &mut Vec<u8>) -> Result<(), HtmlFault>
    ensures { Appends text.now most out.old.items out.new.items result }
{
    push(text.as_str().as_bytes(), most, out)
}
