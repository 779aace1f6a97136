//! The instances of a page, and what their hooks made.

use qk_heap::Loc;
use qk_nodes::Step;
use qk_shared::{List, Text};
use qk_value::{Addr, Fun, Value};

/// An instance of a component: where it stands, which component it is, the address of its props, what its hooks made, its last view, and what its last
/// execution read outside tasks.
#[derive(Drop)]
pub struct Instance {
    pub path: List<Step>,
    /// The symbol of the component.
    pub symbol: Text,
    pub props: Addr,
    /// In the order of the calls.
    pub hooks: Vec<Hook>,
    pub view: Value,
    pub reads: Vec<Loc>,
}

/// What a hook of an instance made: a value, a provided value with the id of its context, or a task.
#[derive(Drop)]
pub enum Hook {
    Value(Value),
    Provider(Text, Value),
    Task(Task),
}

/// A task: its function, what its last run read inside `track`, and whether any of that changed since that run began.
#[derive(Drop)]
pub struct Task {
    pub run: Fun,
    pub tracks: Vec<Loc>,
    pub due: bool,
}
