//! The making of lists, records, functions and JSX values, within their limits.
#![tactic(auto)]

mod attributes;
mod children;
mod fixed;
mod functions;
mod lists;
mod markup;
mod records;

pub use functions::{make_function, make_lifted, marked};
pub use lists::make_list;
pub use markup::make_markup;
pub use records::make_record;
