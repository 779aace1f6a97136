//! Running code: what an expression stands for, what a statement does, what a function gives when it is called.
#![tactic(auto)]

mod callee;
mod evaluation;
mod flow;
mod function;
mod here;
mod machine;
mod names;
mod pieces;
mod reference;
mod rooted;
mod running;
mod stepping;

pub use function::call;
pub use machine::Machine;
pub use rooted::root_value;
