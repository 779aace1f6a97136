//! The budget that code runs on: turns, and levels of depth.
#![tactic(auto)]

pub mod limits;
mod meter;

pub use meter::{Budget, Meter};
