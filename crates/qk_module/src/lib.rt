//! Reading statements and whole modules off their tokens: a function for each rule of the reader (`qk_reading`), proved equal to it but for want of memory.
#![tactic(auto)]

mod blocks;
mod module;
mod nested;
mod scope;
mod statements;
mod steps;

pub use module::read_module;
