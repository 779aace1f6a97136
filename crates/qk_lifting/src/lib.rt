//! What is built of an application: the file of each dollar site, the files that remain of the modules, and the index.
#![tactic(auto)]

mod laws;

pub use laws::{
    captures_are_told, entries_are_in_order, hooks_are_kept, kinds_are_marks, lifting_keeps_arrows,
    lifting_keeps_captures, modules_keep_captures, numbering_keeps_names, scopes_are_clear,
    segments_fit, sites_are_arrows, symbols_are_sites,
};
use qk_shared::{List, Text};

/// What the arrow of a segment is.
#[derive(Clone, Copy, Debug, PartialEq, Eq)]
pub enum SegmentKind {
    Component,
    Task,
    Computed,
    Fn,
}

/// What the index says of a symbol: what its arrow is, how many names it captures, and a letter for each of its hooks.
#[derive(Drop)]
pub struct Entry {
    pub symbol: Text,
    pub kind: SegmentKind,
    pub captures: u32,
    pub hooks: Text,
}

/// The index of an application: the symbol of its `App`, and all symbols.
#[derive(Drop)]
pub struct AppIndex {
    pub app: Text,
    pub symbols: List<Entry>,
}
