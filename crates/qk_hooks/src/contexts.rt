//! Which value a context has.

ghost use Rattle.std.specs.Prelude.{◌≡◌, List};
ghost use Rattle.std.specs.Option.{option_copied, option_map};
ghost use Rattle.qk_ast.specs.Texts as texts;
ghost use Rattle.qk_meaning.specs.Value.{Site};
ghost use Rattle.qk_meaning.specs.World as W;
ghost use Rattle.qk_meaning.specs.Hooks as M;
ghost use Rattle.qk_value.specs.View.{seen};
ghost use Rattle.qk_nodes.specs.Tree.{path_of};
ghost use Rattle.qk_hooks.specs.Standing.{AreInstances};
ghost use Rattle.qk_hooks.specs.Providing.{provided, context_of};

use crate::state::{Hook, Instance};
use qk_nodes::{Step, is_above};
use qk_shared::Text;
use qk_value::Value;

/// The value of a context for an instance at a path, which the nearest instance above it that provides the id gives, and of its providers the last; `None`
/// exactly where none provides it. The instances stand in document order. It takes no memory.
pub fn context<'a>(all: &'a [Instance], path: &[Step], id: &Text) -> Option<&'a Value>
    ensures found { option_copied result ≡ context_of id.now (path_of path.now) all.now }
    ensures meant { (names : Site → List texts.Text) (log : List W.Loc) (meant : List W.Instance) → AreInstances names log all.now meant → M.context id.now (path_of path.now) meant ≡ option_map (seen names) (option_copied result) }
{
    nearest(all, path, id)
}

fn nearest<'a>(all: &'a [Instance], path: &[Step], id: &Text) -> Option<&'a Value>
    ensures { option_copied result ≡ context_of id.now (path_of path.now) all.now }
{
    let mut found = None;
    for instance in all {
        if is_above(instance.path.as_slice(), path) {
            if let Some(v) = last_provided(&instance.hooks, id) {
                found = Some(v);
            }
        }
    }
    found
}

/// The value of the last of these hooks that provides the id.
fn last_provided<'a>(hooks: &'a [Hook], id: &Text) -> Option<&'a Value>
    ensures { option_copied result ≡ provided id.now hooks.now }
{
    let mut found = None;
    for hook in hooks {
        if let Hook::Provider(other, v) = hook {
            if other.is_same(id) {
                found = Some(v);
            }
        }
    }
    found
}
