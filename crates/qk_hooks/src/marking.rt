//! Tasks become due.

ghost use Rattle.std.specs.Prelude.{◌≡◌, ◌++◌, ◌∷◌, [], List, map};
ghost use Rattle.qk_ast.specs.Texts as texts;
ghost use Rattle.qk_meaning.specs.Value.{Site};
ghost use Rattle.qk_meaning.specs.World as W;
ghost use Rattle.qk_heap.specs.Seen.{loc_seen};
ghost use Rattle.qk_hooks.specs.Standing.{AreInstances};
ghost use Rattle.qk_hooks.specs.Marking.{AreMarked, IsMarked, hook_marked};

use crate::locations::is_among;
use crate::state::{Hook, Instance};
use qk_heap::Loc;

/// A location changes: each task whose last run read it inside `track` is due. It takes no memory.
pub fn mark(all: &mut [Instance], l: &Loc)
    ensures marked { AreMarked l.now all.old all.new }
    ensures due { (names : Site → List texts.Text) (log : List W.Loc) (meant : List W.Instance) → AreInstances names log all.old meant → AreInstances names (log ++ loc_seen l.now ∷ []) all.new meant }
{
    mark_each(all, l)
}

fn mark_each(all: &mut [Instance], l: &Loc)
    ensures { AreMarked l.now all.old all.new }
{
    for instance in all.iter_mut() {
        mark_instance(instance, l);
    }
}

fn mark_instance(instance: &mut Instance, l: &Loc)
    ensures { IsMarked l.now instance.old instance.new }
{
    mark_hooks(&mut instance.hooks, l);
}

fn mark_hooks(hooks: &mut [Hook], l: &Loc)
    ensures { hooks.new ≡ map (hook_marked l.now) hooks.old }
{
    for hook in hooks.iter_mut() {
        mark_hook(hook, l);
    }
}

fn mark_hook(hook: &mut Hook, l: &Loc)
    ensures { hook.new ≡ hook_marked l.now hook.old }
{
    if let Hook::Task(task) = hook {
        if is_among(l, &task.tracks) {
            task.due = true;
        }
    }
}
