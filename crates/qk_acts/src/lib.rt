//! What code does in steps in which no other code runs: objects are read, written and changed, and the known calls called.
#![tactic(auto)]

mod arguments;
mod arrays;
mod items;
mod known;
mod lists;
mod method;
mod reading;
mod way;
mod writing;

pub use arrays::{pop, push, splice};
pub use items::items_of;
pub use known::call_known;
pub use lists::{join, slice, text_method};
pub use method::{Method, method_of};
pub use reading::{Look, look_up, tell_read};
pub use writing::{remove_member, write_member};
