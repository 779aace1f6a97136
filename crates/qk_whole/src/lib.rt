//! The code of an accepted application as it is written: functions and the names of roots come from its modules, unsplit.
#![tactic(auto)]

mod arrows;
mod files;
mod filing;
mod firsts;
mod functions;
mod heights;
mod known;
mod literals;
mod met;
mod numbers;
mod origins;
mod roots;
mod whole;

pub use whole::WholeCode;
