//! A task by its place, and a task that has run again.

ghost use Rattle.std.specs.Prelude.{◌≡◌, List, Some};
ghost use Rattle.std.specs.Option.{option_copied};
ghost use Rattle.qk_ast.specs.Texts as texts;
ghost use Rattle.qk_meaning.specs.Value.{Site};
ghost use Rattle.qk_meaning.specs.World as W;
ghost use Rattle.qk_meaning.specs.Settling.{put_task};
ghost use Rattle.qk_hooks.specs.Standing.{AreInstances};
ghost use Rattle.qk_hooks.specs.Ran_again.{task_of, task_among, task_in, hook_ran, hooks_ran, HasRun, HasRunAt, task_meant, MayBeTask, Behind_run};

use crate::due::TaskId;
use crate::state::{Hook, Instance, Task};
use qk_heap::Loc;

/// The task at a place; `None` exactly where none stands there. It takes no memory.
pub fn task_at(all: &[Instance], id: TaskId) -> Option<&Task>
    ensures found { option_copied result ≡ task_in id.instance id.hook all.now }
    ensures meant { (names : Site → List texts.Text) (log : List W.Loc) (meant : List W.Instance) → AreInstances names log all.now meant → MayBeTask names log (option_copied result) (task_meant id.instance id.hook meant) }
{
    found_at(all, id)
}

fn found_at(all: &[Instance], id: TaskId) -> Option<&Task>
    ensures { option_copied result ≡ task_in id.instance id.hook all.now }
{
    if id.instance < all.len() {
        return found_among(&all[id.instance].hooks, id.hook);
    }
    None
}

fn found_among(hooks: &[Hook], hook: usize) -> Option<&Task>
    ensures { option_copied result ≡ task_among hook hooks.now }
{
    if hook < hooks.len() {
        return as_task(&hooks[hook]);
    }
    None
}

fn as_task(hook: &Hook) -> Option<&Task>
    ensures { option_copied result ≡ task_of hook.now }
{
    match hook {
        Hook::Task(task) => Some(task),
        Hook::Value(_) => None,
        Hook::Provider(_, _) => None,
    }
}

/// The task at a place has run again: it tracks these locations now, and whether it is due is `due`. Where no task stands there nothing changes. It takes no
/// memory.
pub fn task_ran(all: &mut [Instance], id: TaskId, tracks: Vec<Loc>, due: bool)
    ensures ran { HasRunAt id.instance id.hook tracks due all.old all.new }
    ensures meant { (names : Site → List texts.Text) (log : List W.Loc) (meant : List W.Instance) (before after : W.Task) → AreInstances names log all.old meant → task_meant id.instance id.hook meant ≡ Some before
        → Behind_run names log tracks.items due before after → AreInstances names log all.new (put_task id.instance id.hook after meant) }
{
    ran_at(all, id, tracks, due);
}

fn ran_at(all: &mut [Instance], id: TaskId, tracks: Vec<Loc>, due: bool)
    ensures { HasRunAt id.instance id.hook tracks due all.old all.new }
{
    if id.instance < all.len() {
        instance_ran(&mut all[id.instance], id.hook, tracks, due);
    }
}

fn instance_ran(instance: &mut Instance, hook: usize, tracks: Vec<Loc>, due: bool)
    ensures { HasRun hook tracks due instance.old instance.new }
{
    ran_among(&mut instance.hooks, hook, tracks, due);
}

fn ran_among(hooks: &mut [Hook], hook: usize, tracks: Vec<Loc>, due: bool)
    ensures { hooks.new ≡ hooks_ran hook tracks due hooks.old }
{
    if hook < hooks.len() {
        one_ran(&mut hooks[hook], tracks, due);
    }
}

fn one_ran(hook: &mut Hook, tracks: Vec<Loc>, due: bool)
    ensures { hook.new ≡ hook_ran tracks due hook.old }
{
    if let Hook::Task(task) = hook {
        task.tracks = tracks;
        task.due = due;
    }
}
