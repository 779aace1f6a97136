//! The children that an instance was given.

ghost use Rattle.std.specs.Prelude.{◌≡◌, List, IfOk};
ghost use Rattle.qk_ast.specs.Texts as texts;
ghost use Rattle.qk_meaning.specs.Value.{Site};
ghost use Rattle.qk_meaning.specs.Expansion as E;
ghost use Rattle.qk_value.specs.View.{seen};
ghost use Rattle.qk_tree.specs.Doings.{is_named};

use qk_shared::{List, Shared, Text};
use qk_value::Value;
use std::alloc::AllocError;

/// What Slots show: the children given to the instance whose view is expanded.
#[cycle(given)]
#[derive(Drop)]
pub(crate) enum Given {
    Nothing,
    Children(Shared<Frame>),
}

/// Given children, with what was given to the instance whose view holds them.
#[cycle(given)]
#[derive(Drop)]
pub(crate) struct Frame {
    pub(crate) children: List<Value>,
    pub(crate) outer: Given,
}

impl Given {
    /// The same once more.
    pub(crate) fn share(&self) -> Result<Given, AllocError>
        ensures { IfOk result (λ g. g ≡ self.now) }
    {
        match self {
            Given::Nothing => Ok(Given::Nothing),
            Given::Children(frame) => Ok(Given::Children(frame.share()?)),
        }
    }
}

/// Whether a Slot of this name shows the item; where there is no name all are shown.
pub(crate) fn is_shown(only: &Option<Text>, item: &Value) -> bool
    ensures { (names : Site → List texts.Text) → result ≡ is_named only.now (seen names item.now) }
{
    match only {
        None => true,
        Some(name) => asks_for(name, item),
    }
}

fn asks_for(name: &Text, item: &Value) -> bool
    ensures { (names : Site → List texts.Text) → result ≡ texts.same_text (E.slot_of (seen names item.now)) name.now }
{
    if let Value::Elem(element) = item {
        return element.get().slot.is_same(name);
    }
    name.len() == 0
}
