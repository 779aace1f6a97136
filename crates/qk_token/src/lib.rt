//! The tokens of a module as the parser meets them: what they are, a cursor over those that are left, and what comes ahead.
#![tactic(auto)]

mod ahead;
mod escapes;
mod fault;
mod front;
mod listed;
mod token;
mod tokens;
mod written;

pub use ahead::{Kind, Level, arrow_ahead, known_ahead};
pub use fault::Fault;
pub use front::split_first;
pub use listed::{Lexed, lex};
pub use token::{Edge, Token, is_word};
pub use tokens::{Tokens, first_is_sign, is_sign};
pub use written::{attribute_text, jsx_text, name_text, written_text};
