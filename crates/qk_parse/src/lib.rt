//! The parser: from a module's text to its syntax tree, or to where and why the text derives none.
#![tactic(auto)]

mod parse;

pub use parse::{ParseFault, parse_module};
