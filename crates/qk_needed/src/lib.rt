//! Playing only what must be played: definitions for contracts, and the laws that hold of them.
#![tactic(auto)]

pub mod laws;
