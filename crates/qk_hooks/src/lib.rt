//! The instances of a page, and what is found among them: the task that is due first, and the value of a context. A location that changes makes tasks due, and a task that has run is no longer so.
#![tactic(auto)]

mod contexts;
mod due;
mod locations;
mod marking;
mod ran;
mod state;

pub use contexts::context;
pub use due::{TaskId, first_due};
pub use marking::mark;
pub use ran::{task_at, task_ran};
pub use state::{Hook, Instance, Task};
