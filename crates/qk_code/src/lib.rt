//! What code stands on while it runs: where its functions come from, who is told of what it does, and why it stops.
#![tactic(auto)]

mod ask;
mod code;
mod func;
mod host;
mod known;
mod mode;
mod stop;

pub use ask::{Ask, Refusal};
pub use code::Code;
pub use func::{Func, Root};
pub use host::{HookAnswer, HookKind, Host};
pub use mode::{Mode, Part};
pub use stop::{CodeFault, Stop};
