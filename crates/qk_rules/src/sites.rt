//! Whether a module has more dollar sites than it may: the sites are counted down, from one more than it may have.

ghost use Rattle.std.specs.Prelude.{◌≡◌, ◌-◌, true, not, nat_le, length};
ghost use Rattle.qk_ast.specs.Arrows.{item_arrows, of_kind};
ghost use Rattle.qk_ast.specs.Placing.{most_sites};
ghost use Rattle.qk_node.specs.Growing.{tree};
ghost use Rattle.qk_node.specs.Borrowed.{node_of};
ghost use Rattle.qk_rules.specs.Site_counts.{dollar_here, sites, item_sites};

use qk_ast::{Expr, Item};
use qk_locals::Mark;
use qk_node::Node;

/// One more than the dollar sites that a module may have.
const TOO_MANY: usize = 4097;

/// What is left after the node itself.
fn less_own(left: usize, node: Node) -> usize
    ensures { result ≡ left - dollar_here (node_of node.entry) }
{
    match node {
        Node::Value(Expr::Arrow(_), Mark::Marked | Mark::Tasked) => left.saturating_sub(1),
        _ => left,
    }
}

fn in_node(left: usize, node: Node) -> usize
    ensures { result ≡ left - sites (tree (node_of node.entry)) }
{
    let mut more = less_own(left, node);
    for child in node.children() {
        more = in_node(more, child);
    }
    more
}

fn in_items(left: usize, items: &[Item]) -> usize
    ensures { result ≡ left - item_sites items.now }
{
    let mut more = left;
    for item in items {
        more = in_node(more, Node::Value(&item.init, Mark::Unmarked));
    }
    more
}

/// Whether the items have more dollar sites than those of a module may.
pub(crate) fn has_too_many(items: &[Item]) -> bool
    ensures { result ≡ not (nat_le (length (of_kind true (item_arrows items.now))) most_sites) }
{
    in_items(TOO_MANY, items) == 0
}
