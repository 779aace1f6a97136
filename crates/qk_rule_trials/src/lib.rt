//! Trials of the crates that gather modules and try their rules, over their public calls: what no clause tells. Nothing stands on this crate.
#![tactic(auto)]

#[cfg(test)]
mod accepting;
#[cfg(test)]
mod gathering;
#[cfg(test)]
mod naming;
