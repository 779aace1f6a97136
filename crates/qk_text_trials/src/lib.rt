//! Trials of the crates that read and print texts, over their public calls: what no clause tells. Nothing stands on this crate.
#![tactic(auto)]

#[cfg(test)]
mod lexing;
#[cfg(test)]
mod parsing;
#[cfg(test)]
mod printing;
#[cfg(test)]
mod scripts;
#[cfg(test)]
mod sharing;
#[cfg(test)]
mod stores;
