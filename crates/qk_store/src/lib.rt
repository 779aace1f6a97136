//! The outside of the framework: files by name, and a sink for printed bytes, as traits with a written meaning. Code above is proved once, over
//! the traits; here stand the ones in memory, and the thin edge to a real folder and to standard output.
#![tactic(auto)]

mod calls;
mod folder;
mod found;
mod held;
mod mem_sink;
mod mem_store;
mod no_fail;
mod sink;
mod stdout;
mod store;
mod stream;

pub use folder::DirStore;
pub use found::{Found, Seen, StoreFault};
pub use mem_sink::MemSink;
pub use mem_store::MemStore;
pub use no_fail::{NoFailSink, NoFailStore};
pub use sink::{Sink, SinkFault};
pub use stdout::OutSink;
pub use store::Store;

#[cfg(test)]
mod tests;
