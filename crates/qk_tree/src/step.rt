//! Steps of paths, and the places in them.

ghost use Rattle.std.specs.Prelude.{◌≡◌, ◌+◌, ◌<◌, ◌++◌, ◌^◌, ◌∷◌, [], ℕ, List, IfOk, OnOk};
ghost use Rattle.qk_ast.specs.Texts as texts;
ghost use Rattle.qk_meaning.specs.Value.{Site};
ghost use Rattle.qk_meaning.specs.World as W;
ghost use Rattle.qk_meaning.specs.Expansion as E;
ghost use Rattle.qk_meaning.specs.Markup.{key_of};
ghost use Rattle.qk_value.specs.View.{seen, shown_by};
ghost use Rattle.qk_nodes.specs.Tree.{place_of};
ghost use Rattle.qk_nodes.specs.declared.node.Step.{Step};

use qk_nodes::{Place, Step};
use qk_shared::{List, Text};
use qk_value::{Elem, ElemTag, Value};
use std::alloc::{AllocError, Global};

/// The place of an item, where `number` items without a key stand before it; it counts itself.
pub(crate) fn place_at(item: &Value, number: &mut usize) -> Result<Place, AllocError>
    requires { number.now + 1 < 2 ^ 64 }
    ensures place { (names : Site → List texts.Text) → (others : ℕ → List E.Placed) →
        IfOk result (λ p. E.placed_item (key_of (seen names item.now)) number.old (seen names item.now) others ≡ record { place = place_of p; value = seen names item.now } ∷ others number.new) }
    ensures counted { number.new < number.old + 2 }
{
    if let Value::Elem(element) = item {
        return element_place(element.get(), number);
    }
    Ok(next_place(number))
}

fn element_place(element: &Elem, number: &mut usize) -> Result<Place, AllocError>
    requires { number.now + 1 < 2 ^ 64 }
    ensures place { (v : _) → (others : ℕ → List E.Placed) →
        IfOk result (λ p. E.placed_item element.now.key number.old v others ≡ record { place = place_of p; value = v } ∷ others number.new) }
    ensures counted { number.new < number.old + 2 }
{
    match &element.key {
        Some(key) => Ok(Place::Keyed(key.share()?)),
        None => Ok(next_place(number)),
    }
}

fn next_place(number: &mut usize) -> Place
    requires { number.now + 1 < 2 ^ 64 }
    ensures place { place_of result ≡ W.Nth number.old }
    ensures counted { number.new ≡ number.old + 1 }
{
    let at = *number;
    *number = at + 1;
    Place::Nth(at)
}

/// The same place once more.
pub(crate) fn same_place(place: &Place) -> Result<Place, AllocError>
    ensures { IfOk result (λ p. p ≡ place.now) }
{
    match place {
        Place::Keyed(key) => Ok(Place::Keyed(key.share()?)),
        Place::Nth(n) => Ok(Place::Nth(*n)),
    }
}

/// The name in a step.
pub(crate) fn step_name(alloc: Global, tag: &ElemTag) -> Result<Text, AllocError>
    ensures { IfOk result (λ name. name ≡ E.step_name (shown_by tag.now)) }
{
    match tag {
        ElemTag::Element(tag) => Ok(tag.share()?),
        ElemTag::Component(symbol) => Ok(symbol.share()?),
        ElemTag::Fragment => Ok(Text::from_str(alloc, "")?),
        ElemTag::Slot(name) => {
            let mut text = String::from_str(alloc, "slot:")?;
            text.push_str(name.as_str())?;
            Ok(Text::from_string(alloc, text)?)
        }
    }
}

pub(crate) fn push_step(path: &mut Vec<Step>, place: Place, name: Text) -> Result<(), AllocError>
    ensures { OnOk result (path.new.items ≡ path.old.items ++ record { place = place; name = name } ∷ []) }
{
    path.push(Step { place, name })?;
    Ok(())
}

/// The step that was pushed last is taken away.
pub(crate) fn pop_step(path: &mut Vec<Step>)
    ensures { (front : List Step) → (s : Step) → path.old.items ≡ front ++ s ∷ [] → path.new.items ≡ front }
{
    path.pop();
}

pub(crate) fn copied(alloc: Global, path: &[Step]) -> Result<List<Step>, AllocError>
    ensures { IfOk result (λ steps. steps ≡ path.now) }
{
    let mut steps = Vec::new(alloc);
    for step in path {
        push_step(&mut steps, same_place(&step.place)?, step.name.share()?)?;
    }
    Ok(List::from_vec(alloc, steps)?)
}
