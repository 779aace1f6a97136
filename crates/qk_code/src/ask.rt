//! What a code is asked for.

use crate::stop::CodeFault;
use qk_shared::Text;

/// What a code is asked for: the arrow of a symbol, the plain arrow of that number in a file, or what a name of a file's root means.
#[derive(Drop)]
pub enum Ask {
    Body(Text),
    Plain(Text, u32),
    Root(Text, Text),
}

/// What a code was asked for in vain, and why it gave nothing.
#[derive(Drop)]
pub struct Refusal {
    pub ask: Ask,
    pub why: CodeFault,
}
