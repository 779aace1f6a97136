//! Applications: the modules are gathered, then the rules of names are tried in each, then those of places in each.
#![tactic(auto)]

mod accepting;
mod application;
mod fault;
mod laws;
mod naming;
mod placing;

pub use accepting::accept;
pub use application::Application;
pub use fault::ApplicationFault;
pub use laws::{accepted_or_refused, one_application, one_refusal};
