//! Trials of the top call, over files in memory and over an outside that fails: what no clause tells. Nothing stands on this crate.
#![tactic(auto)]

#[cfg(test)]
mod examples;
#[cfg(test)]
mod outside;
#[cfg(test)]
mod playing;
#[cfg(test)]
mod shapes;
#[cfg(test)]
mod sources;
