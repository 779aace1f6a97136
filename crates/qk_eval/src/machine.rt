//! What code runs on.

use qk_base::Meter;
use qk_heap::Heap;
use std::alloc::Global;

/// What code runs on: memory, what is left of the budget, and the objects.
#[derive(Drop)]
pub struct Machine {
    pub alloc: Global,
    pub meter: Meter,
    pub heap: Heap,
}
