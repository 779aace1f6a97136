//! Which task is due first.

ghost use Rattle.std.specs.Prelude.{◌≡◌, List};
ghost use Rattle.qk_ast.specs.Texts as texts;
ghost use Rattle.qk_meaning.specs.Value.{Site};
ghost use Rattle.qk_meaning.specs.World as W;
ghost use Rattle.qk_meaning.specs.Settling.{due_from};
ghost use Rattle.qk_hooks.specs.Standing.{AreInstances};
ghost use Rattle.qk_hooks.specs.Spots.{spot_at, is_marked, marked_hook, marked_from};

use crate::state::{Hook, Instance};

/// A task by where it stands: its instance and its hook there, each counted from 0.
#[derive(Clone, Copy, Debug, Drop, PartialEq, Eq)]
pub struct TaskId {
    pub instance: usize,
    pub hook: usize,
}

/// The first due task, by instance and hook order; `None` exactly where none is due. It takes no memory.
pub fn first_due(all: &[Instance]) -> Option<TaskId>
    ensures marked { result ≡ marked_from 0 all.now }
    ensures due { (names : Site → List texts.Text) (log : List W.Loc) (meant : List W.Instance) → AreInstances names log all.now meant → spot_at (due_from log 0 meant) ≡ result }
{
    first_marked(all)
}

fn first_marked(all: &[Instance]) -> Option<TaskId>
    ensures { result ≡ marked_from 0 all.now }
{
    let mut i = 0;
    while i < all.len() {
        if let Some(hook) = first_hook(&all[i].hooks) {
            return Some(TaskId { instance: i, hook });
        }
        i += 1;
    }
    None
}

/// The first hook that is a due task.
fn first_hook(hooks: &[Hook]) -> Option<usize>
    ensures { result ≡ marked_hook 0 hooks.now }
{
    let mut h = 0;
    while h < hooks.len() {
        if is_due(&hooks[h]) {
            return Some(h);
        }
        h += 1;
    }
    None
}

fn is_due(hook: &Hook) -> bool
    ensures { result ≡ is_marked hook.now }
{
    match hook {
        Hook::Task(task) => task.due,
        Hook::Value(_) => false,
        Hook::Provider(_, _) => false,
    }
}
