//! The tree of settled views.

ghost use Rattle.std.specs.Prelude.{◌≡◌, ◌<◌, List, Option, Some, None, IfSome, IfNone, drop, get_or, length, true, false};
ghost use Rattle.std.specs.List.{list_any};
ghost use Rattle.qk_ast.specs.Texts as texts;
ghost use Rattle.qk_meaning.specs.Value as M;
ghost use Rattle.qk_meaning.specs.Value.{Site};
ghost use Rattle.qk_meaning.specs.World.{Instance};
ghost use Rattle.qk_meaning.specs.Expansion as E;
ghost use Rattle.qk_meaning.specs.Laws.{Each_first};
ghost use Rattle.qk_meaning.specs.Tree.{view_at};
ghost use Rattle.qk_tree.specs.Settled.{Shows, Tree_comes, stands_at};
ghost use Rattle.qk_tree.specs.declared.settled.View.{View as Placed_view};

use crate::visit::{Stop, Visit};
use crate::walk::expand_app;
use qk_nodes::{Node, Step, is_same_path};
use qk_shared::{List, Text};
use qk_value::{ElemTag, Fault, Value};
use std::alloc::Global;
use std::convert::Infallible;

/// The most nodes of a tree.
const MOST_NODES: usize = 65536;

/// The view of an instance, with its path.
#[derive(Drop)]
pub struct View {
    pub path: List<Step>,
    pub view: Value,
}

/// Why there is no tree.
#[derive(Clone, Copy, Debug, Drop, PartialEq, Eq)]
pub enum TreeStop {
    /// As TreeTooLarge, where it has more than 65,536 nodes, and TreeTooDeep.
    Fault(Fault),
    /// A component is met at a path of which there is no view.
    NoView,
    Memory,
}

/// Views are looked up by their path. Those of a settled session are met in their order, so each search begins behind the view that was met last.
#[derive(Drop)]
struct Settled<'a> {
    views: &'a [View],
    next: usize,
}

impl<'a> Visit for Settled<'a> {
    ghost use Rattle.std.specs.Prelude.{List};
    ghost use Rattle.qk_ast.specs.Texts as texts;
    ghost use Rattle.qk_meaning.specs.Value.{Site};
    ghost use Rattle.qk_meaning.specs.World.{Instance};
    ghost use Rattle.qk_meaning.specs.Laws.{Each_first};
    ghost use Rattle.qk_meaning.specs.Tree.{view_at};
    ghost use Rattle.qk_tree.specs.Settled.{Shows};

    type Refusal = Infallible;

    ghost State = { Unit {0} };

    ghost Way = { (Site → List texts.Text) × List Instance };

    ghost fits = { λ w v. Unit {0} };

    ghost names = { λ w. w.0 };

    ghost stands = { λ w v s. Shows w.0 v.views.now w.1 × Each_first w.1 w.1 };

    ghost refused = { λ w v why s. ⊥ };

    ghost visits = { λ w. view_at w.1 };

    fn meet(
        &mut self,
        path: &[Step],
        _tag: &ElemTag,
        _fields: &List<(Text, Value)>,
    ) -> Result<Value, Stop<Infallible>> {
        let Some(at) = position(self.views, self.next, path) else {
            return Err(Stop::Ended);
        };
        self.next = at + 1;
        Ok(self.views[at].view.share()?)
    }

    ghost still = { λ w v why met s h. h };
}

/// The index of a view of this path: the first from an index on, or the first of all.
fn position(views: &[View], from: usize, path: &[Step]) -> Option<usize>
    ensures some { IfSome result (λ at. (at < length views.now) × ((other : Placed_view) → stands_at path.now (get_or views.now at other) ≡ true)) }
    ensures none { IfNone result (list_any (stands_at path.now) views.now ≡ false) }
{
    match position_from(views, from, path) {
        Some(at) => Some(at),
        None => position_from(views, 0, path),
    }
}

fn position_from(views: &[View], from: usize, path: &[Step]) -> Option<usize>
    ensures some { IfSome result (λ at. (at < length views.now) × ((other : Placed_view) → stands_at path.now (get_or views.now at other) ≡ true)) }
    ensures none { IfNone result (list_any (stands_at path.now) (drop from views.now) ≡ false) }
{
    let mut at = from;
    while at < views.len() {
        if is_same_path(views[at].path.as_slice(), path) {
            return Some(at);
        }
        at += 1;
    }
    None
}

/// The tree of an application, by the symbol of its component and the views of its instances in document order.
///
/// # Errors
///
/// The faults `TreeTooLarge` where it has more than 65,536 nodes, `TreeTooDeep` where a path has more than 128 steps, and `NotText` for an item that no view may hold; `NoView` where a component is met at a path of which there is no view; and want of memory.
pub fn expand(alloc: Global, app: &Text, views: &[View]) -> Result<Vec<Node>, TreeStop>
    ensures { (names : Site → List texts.Text) → (all : List Instance) → Shows names views.now all → Each_first all all → Tree_comes names (E.expand_app (view_at all) (M.Lifted_component app.now) (tt {0})) result }
{
    let mut visit = Settled { views, next: 0 };
    let mut room = MOST_NODES;
    match expand_app(alloc, &mut visit, app, &mut room) {
        Ok(nodes) => Ok(nodes),
        Err(Stop::Fault(fault)) => Err(TreeStop::Fault(fault)),
        Err(Stop::Ended) => Err(TreeStop::NoView),
        Err(Stop::TooMany) => Err(TreeStop::Fault(Fault::TreeTooLarge)),
        Err(Stop::Memory) => Err(TreeStop::Memory),
        Err(Stop::Refused(never)) => match never {},
    }
}
