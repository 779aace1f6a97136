//! Trials of values, operators, objects and single steps of code, apart from them so that they are proved once.
#![tactic(auto)]

#[cfg(test)]
mod acts;
#[cfg(test)]
mod due;
#[cfg(test)]
mod heard;
#[cfg(test)]
mod making;
#[cfg(test)]
mod names;
#[cfg(test)]
mod operators;
#[cfg(test)]
mod pages;
#[cfg(test)]
mod showing;
#[cfg(test)]
mod values;
