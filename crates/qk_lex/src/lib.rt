//! Cuts a module's text into its tokens, and reads the text between JSX tags.
//!
//! A text is read once from its front, one character at a time, and nothing of it is copied: what is left is a part of the text on loan. Which
//! tokens may stand at a place is decided by the regions around it and by the token before it.
#![tactic(auto)]

ghost use Rattle.std.specs.Prelude.{◌≡◌};
ghost use Rattle.qk_lex.specs.declared.LexFault.TheVariants.{Memory};

mod gap;
mod jsx;
mod quoted;
mod reading;
mod regions;
mod scan;
mod step;
mod tables;

pub use jsx::{attribute_text, jsx_text};
pub use reading::tokens;
pub use scan::split_first;
use std::alloc::{AllocError, AllocFailed};
pub use tables::is_same;

/// A token of a text.
#[derive(Clone, Copy, Debug, PartialEq, Eq)]
pub struct Token {
    pub kind: Kind,
    /// Whether it is a `<` or `<>` that begins JSX, or the text of an attribute. Of the others each kind has one form.
    pub jsx: bool,
    /// The place of its first byte.
    pub start: usize,
    /// The place after its last byte.
    pub end: usize,
}

/// What a token is.
#[derive(Clone, Copy, Debug, PartialEq, Eq)]
pub enum Kind {
    /// A name of code that isn't reserved, or any name of a tag or attribute.
    Name,
    /// A word of code that is no name.
    Reserved,
    Int,
    /// A text in quotes, of code or of an attribute.
    Text,
    /// A template up to its end or its first hole, or from the end of a hole to the next or to the template's end.
    TemplatePart,
    /// A punctuator, and a `<` or `<>` that begins JSX.
    Punct,
    /// A run of text between JSX tags.
    JsxText,
}

/// Why a text has no token list.
#[derive(Clone, Copy, Debug, PartialEq, Eq, Drop)]
pub enum LexFault {
    /// At the byte `at` stands no token, no blank and no comment.
    Lexical { at: usize },
    /// Memory ran out.
    Memory,
}

impl From<AllocError> for LexFault {
    ghost from_gives = { λ _ e. e ≡ Memory };

    fn from(_: AllocError) -> LexFault {
        LexFault::Memory
    }
}

impl<T: Drop> From<AllocFailed<T>> for LexFault {
    ghost from_gives = { λ _ e. e ≡ Memory };

    fn from(_: AllocFailed<T>) -> LexFault {
        LexFault::Memory
    }
}
