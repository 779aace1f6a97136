//! The arrows of a module.

ghost use Rattle.std.specs.Prelude.{◌≡◌, ◌++◌, List, map, IfOk, OnOk};
ghost use Rattle.qk_ast.specs.Texts as texts;
ghost use Rattle.qk_ast.specs.Arrows.{item_arrows};
ghost use Rattle.qk_locals.specs.Meanings.{mark_of};
ghost use Rattle.qk_node.specs.Borrowed.{node_of};
ghost use Rattle.qk_node.specs.Found.{arrow_here, arrows_in};
ghost use Rattle.qk_node.specs.Growing.{tree};
ghost use Rattle.qk_whole.specs.Meeting.{met_seen, arrow_seen};

use crate::heights::is_shallow;
use crate::met::Met;
use qk_ast::{Arrow, Expr, Item};
use qk_locals::Mark;
use qk_node::Node;
use qk_shared::{Builder, List, Shared};
use std::alloc::{AllocError, Global};

/// The arrows of these items, in text order.
///
/// # Errors
///
/// For want of memory. So is refused, too, an arrow whose tree has a million levels; no text nests as deep.
pub(crate) fn arrows(alloc: Global, items: &[Item]) -> Result<List<Met>, AllocError>
    ensures { IfOk result (λ all. map met_seen all ≡ map arrow_seen (item_arrows items.now)) }
{
    let mut all = Builder::new(alloc);
    for item in items {
        meet_inside(&mut all, Node::Value(&item.init, Mark::Unmarked))?;
    }
    all.into_list(alloc)
}

/// A node and all that is inside it.
fn meet_inside(all: &mut Builder<Met>, node: Node<'_>) -> Result<(), AllocError>
    ensures { OnOk result ((scope : List texts.Text) → map met_seen all.new ≡ map met_seen all.old ++ map arrow_seen (arrows_in (tree (node_of node.entry)) scope)) }
{
    meet(all, node)?;
    for child in node.children() {
        meet_inside(all, child)?;
    }
    Ok(())
}

/// The node itself, where it is an arrow.
fn meet(all: &mut Builder<Met>, node: Node<'_>) -> Result<(), AllocError>
    ensures { OnOk result ((scope : List texts.Text) → map met_seen all.new ≡ map met_seen all.old ++ map arrow_seen (arrow_here (node_of node.entry) scope)) }
{
    match node {
        Node::Value(Expr::Arrow(arrow), mark) => all.push(met(arrow, mark)?),
        _ => Ok(()),
    }
}

/// An arrow with its mark.
///
/// # Errors
///
/// As of `arrows`.
pub(crate) fn met(arrow: &Shared<Arrow>, mark: Mark) -> Result<Met, AllocError>
    ensures { IfOk result (λ m. met_seen m ≡ (arrow.now, mark_of mark)) }
{
    if !is_shallow(arrow.get()) {
        return Err(AllocError);
    }
    Ok(Met {
        arrow: arrow.share()?,
        mark,
    })
}
