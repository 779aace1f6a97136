//! The HTML of a page's nodes, and the first element of an id among them.
#![tactic(auto)]

mod attributes;
mod escaping;
mod finding;
mod nodes;
mod writing;

pub use finding::find;
pub use nodes::html;
pub use writing::HtmlFault;
