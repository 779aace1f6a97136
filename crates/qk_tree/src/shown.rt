//! Nodes that are pushed, and what an item shows that takes no step.

ghost use Rattle.std.specs.Prelude.{◌≡◌, ◌++◌, ◌∷◌, [], List, OnOk};
ghost use Rattle.qk_ast.specs.Texts as texts;
ghost use Rattle.qk_meaning.specs.Value.{Site};
ghost use Rattle.qk_meaning.specs.Texts.{integer_text};
ghost use Rattle.qk_tree.specs.Doings.{Took, LeafDone, TextDone};

use crate::visit::Stop;
use qk_nodes::Node;
use qk_shared::Text;
use qk_value::{Fault, Value};
use std::alloc::{AllocError, Global};

/// What an item that takes no step shows.
pub(crate) fn leaf<R: Drop>(
    alloc: Global,
    item: &Value,
    room: &mut usize,
    out: &mut Vec<Node>,
) -> Result<(), Stop<R>>
    ensures { (names : Site → List texts.Text) → LeafDone names item.now room.old room.new out.old.items out.new.items result }
{
    match item {
        Value::Undefined => Ok(()),
        Value::Null => Ok(()),
        Value::Bool(_) => Ok(()),
        Value::Int(n) => shown_integer(alloc, *n, room, out),
        Value::Text(text) => shown_text(text.share()?, room, out),
        Value::Ref(_) => Err(Stop::Fault(Fault::NotText)),
        Value::List(_) => Err(Stop::Fault(Fault::NotText)),
        Value::Record(_) => Err(Stop::Fault(Fault::NotText)),
        Value::Elem(_) => Err(Stop::Fault(Fault::NotText)),
        Value::Fun(_) => Err(Stop::Fault(Fault::NotText)),
    }
}

fn shown_integer<R: Drop>(
    alloc: Global,
    n: i64,
    room: &mut usize,
    out: &mut Vec<Node>,
) -> Result<(), Stop<R>>
    ensures { (names : Site → List texts.Text) → TextDone names (integer_text n) room.old room.new out.old.items out.new.items result }
{
    let mut buffer = itoa::Buffer::new();
    let text = Text::from_str(alloc, buffer.format(n))?;
    shown_text(text, room, out)
}

/// A text that isn't empty is a node.
fn shown_text<R: Drop>(text: Text, room: &mut usize, out: &mut Vec<Node>) -> Result<(), Stop<R>>
    ensures { (names : Site → List texts.Text) → TextDone names text room.old room.new out.old.items out.new.items result }
{
    if text.len() == 0 {
        return Ok(());
    }
    take_room(room)?;
    push_node(out, Node::Text(text))?;
    Ok(())
}

/// Room for one node more is taken.
pub(crate) fn take_room<R: Drop>(room: &mut usize) -> Result<(), Stop<R>>
    ensures { Took room.old room.new result }
{
    if *room == 0 {
        return Err(Stop::TooMany);
    }
    *room -= 1;
    Ok(())
}

pub(crate) fn push_node(out: &mut Vec<Node>, node: Node) -> Result<(), AllocError>
    ensures { OnOk result (out.new.items ≡ out.old.items ++ node ∷ []) }
{
    out.push(node)?;
    Ok(())
}
