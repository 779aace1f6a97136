//! Reading a module's tree off its tokens: a function for each rule of the reader (`qk_reading`), proved equal to it but for want of memory.
//!
//! What nests one level deeper is read by three function values of `Grammar`, so that each rule is proved by itself.
#![tactic(auto)]

mod atoms;
mod calls;
mod fields;
mod grammar;
mod holes;
mod jsx;
mod keyed;
mod levels;
mod links;
mod lists;
mod parts;
mod read;
mod tags;

pub use grammar::Grammar;
pub use lists::enter;
pub use parts::{name, names, pattern};
pub use read::{Group, Inner, Read};
