//! The rules of names: what each name of a module means, and the first use or declaration that is refused.
#![tactic(auto)]

mod declaring;
mod fault;
mod importing;
mod items;
mod keeper;
mod resolver;
mod roots;
mod rules;
mod symbols;
mod using;

pub use fault::ScopeFault;
pub use resolver::{Names, resolve};
