//! The one traversal of views, in document order.

ghost use Rattle.std.specs.Prelude.{◌≡◌, [], IfOk, OnOk};
ghost use Rattle.qk_meaning.specs.Value as M;
ghost use Rattle.qk_meaning.specs.Expansion as E;
ghost use Rattle.qk_value.specs.View.{seen, seen_all, seen_fields, shown_by};
ghost use Rattle.qk_value.specs.declared.value.ElemTag.TheVariants.{Component};
ghost use Rattle.qk_nodes.specs.Tree.{place_of, path_of};
ghost use Rattle.qk_tree.specs.Giving.{given_of};
ghost use Rattle.qk_tree.specs.Doings.{Walked, Expanded, among};

use crate::given::{Frame, Given, is_shown};
use crate::shown::{leaf, push_node, take_room};
use crate::step::{copied, place_at, pop_step, push_step, step_name};
use crate::visit::{Stop, Visit};
use qk_nodes::{Element, Inside, Node, Place, Step};
use qk_shared::{List, Shared, Text};
use qk_value::{Elem, ElemTag, Fault, Value};
use std::alloc::{AllocError, Global};

/// The most steps of a path.
const MOST_STEPS: u32 = 128;

/// The page of an application: its component, which this symbol is, at the empty path. One of `room` is taken for each node.
///
/// # Errors
///
/// The first stop that is met in document order: of a visit, of an item that shows nothing that a page has, for a path of more than 128 steps, for want of room, or of memory.
pub fn expand_app<V: Visit>(
    alloc: Global,
    visit: &mut V,
    app: &Text,
    room: &mut usize,
) -> Result<Vec<Node>, Stop<V::Refusal>>
    ensures { Expanded V.fits V.names V.stands V.refused (λ w. E.expand_app (V.visits w) (M.Lifted_component app.now)) visit.old visit.new room.old room.new result }
{
    let element = app_element(alloc, app)?;
    let mut path = Vec::new(alloc);
    let mut out = Vec::new(alloc);
    component(
        alloc,
        visit,
        MOST_STEPS,
        &mut path,
        &Given::Nothing,
        &element,
        room,
        &mut out,
    )?;
    Ok(out)
}

/// A component that is given nothing.
fn app_element(alloc: Global, app: &Text) -> Result<Elem, AllocError>
    ensures { IfOk result (λ e. (e.tag ≡ Component app.now) × (e.attrs ≡ []) × (e.children ≡ [])) }
{
    Ok(Elem {
        tag: ElemTag::Component(app.share()?),
        key: None,
        slot: Text::from_str(alloc, "")?,
        attrs: List::from_vec(alloc, Vec::new(alloc))?,
        children: List::from_vec(alloc, Vec::new(alloc))?,
    })
}

/// The items of a sequence in order; with a name only those that a Slot of that name shows.
#[cycle(walk)]
fn in_order<V: Visit>(
    alloc: Global,
    visit: &mut V,
    left: u32,
    path: &mut Vec<Step>,
    given: &Given,
    items: &[Value],
    only: &Option<Text>,
    room: &mut usize,
    out: &mut Vec<Node>,
) -> Result<(), Stop<V::Refusal>>
    ensures told { Walked V.fits V.names V.stands V.refused (λ w. E.in_order (E.expand_item (V.visits w) left (path_of path.old.items) (given_of (V.names w) given.now)) (among only.now (E.placed (seen_all (V.names w) items.now)))) visit.old visit.new out.old.items out.new.items room.old room.new result }
    ensures path { OnOk result (path.new.items ≡ path.old.items) }
{
    let mut number = 0;
    for item in items {
        let place = place_at(item, &mut number)?;
        if is_shown(only, item) {
            one(alloc, visit, left, path, given, place, item, room, out)?;
        }
    }
    Ok(())
}

/// An item at its place.
#[cycle(walk)]
fn one<V: Visit>(
    alloc: Global,
    visit: &mut V,
    left: u32,
    path: &mut Vec<Step>,
    given: &Given,
    place: Place,
    item: &Value,
    room: &mut usize,
    out: &mut Vec<Node>,
) -> Result<(), Stop<V::Refusal>>
    ensures told { Walked V.fits V.names V.stands V.refused (λ w. E.expand_item (V.visits w) left (path_of path.old.items) (given_of (V.names w) given.now) (place_of place) (seen (V.names w) item.now)) visit.old visit.new out.old.items out.new.items room.old room.new result }
    ensures path { OnOk result (path.new.items ≡ path.old.items) }
{
    match item {
        Value::List(all) => {
            if left == 0 {
                return Err(Stop::Fault(Fault::TreeTooDeep));
            }
            push_step(path, place, Text::from_str(alloc, "")?)?;
            in_order(
                alloc,
                visit,
                left - 1,
                path,
                given,
                all.as_slice(),
                &None,
                room,
                out,
            )?;
            pop_step(path);
            Ok(())
        }
        Value::Elem(element) => {
            if left == 0 {
                return Err(Stop::Fault(Fault::TreeTooDeep));
            }
            let element = element.get();
            push_step(path, place, step_name(alloc, &element.tag)?)?;
            inside(alloc, visit, left - 1, path, given, element, room, out)?;
            pop_step(path);
            Ok(())
        }
        _ => leaf(alloc, item, room, out),
    }
}

/// An element, component, fragment or Slot at this path.
#[cycle(walk)]
fn inside<V: Visit>(
    alloc: Global,
    visit: &mut V,
    left: u32,
    path: &mut Vec<Step>,
    given: &Given,
    element: &Elem,
    room: &mut usize,
    out: &mut Vec<Node>,
) -> Result<(), Stop<V::Refusal>>
    ensures told { Walked V.fits V.names V.stands V.refused (λ w. E.elem_with (V.visits w) (E.expand_item (V.visits w) left) (path_of path.old.items) (given_of (V.names w) given.now) (shown_by element.now.tag) (seen_fields (V.names w) element.now.attrs) (seen_all (V.names w) element.now.children)) visit.old visit.new out.old.items out.new.items room.old room.new result }
    ensures path { OnOk result (path.new.items ≡ path.old.items) }
{
    match &element.tag {
        ElemTag::Element(tag) => {
            take_room(room)?;
            let mut inner = Vec::new(alloc);
            in_order(
                alloc,
                visit,
                left,
                path,
                given,
                element.children.as_slice(),
                &None,
                room,
                &mut inner,
            )?;
            push_node(
                out,
                Node::Element(Element {
                    tag: tag.share()?,
                    attrs: element.attrs.share()?,
                    children: List::from_vec(alloc, inner)?,
                }),
            )?;
            Ok(())
        }
        ElemTag::Component(_) => component(alloc, visit, left, path, given, element, room, out),
        ElemTag::Fragment => in_order(
            alloc,
            visit,
            left,
            path,
            given,
            element.children.as_slice(),
            &None,
            room,
            out,
        ),
        ElemTag::Slot(name) => match given {
            Given::Nothing => Ok(()),
            Given::Children(frame) => {
                let frame = frame.get();
                in_order(
                    alloc,
                    visit,
                    left,
                    path,
                    &frame.outer,
                    frame.children.as_slice(),
                    &Some(name.share()?),
                    room,
                    out,
                )
            }
        },
    }
}

/// A component: it is visited, then its view is expanded.
#[cycle(walk)]
fn component<V: Visit>(
    alloc: Global,
    visit: &mut V,
    left: u32,
    path: &mut Vec<Step>,
    given: &Given,
    element: &Elem,
    room: &mut usize,
    out: &mut Vec<Node>,
) -> Result<(), Stop<V::Refusal>>
    ensures told { Walked V.fits V.names V.stands V.refused (λ w. E.component_with (V.visits w) (E.expand_item (V.visits w) left) (path_of path.old.items) (given_of (V.names w) given.now) (shown_by element.now.tag) (seen_fields (V.names w) element.now.attrs) (seen_all (V.names w) element.now.children)) visit.old visit.new out.old.items out.new.items room.old room.new result }
    ensures path { OnOk result (path.new.items ≡ path.old.items) }
{
    take_room(room)?;
    let view = [visit.meet(path.as_slice(), &element.tag, &element.attrs)?];
    let frame = Frame {
        children: element.children.share()?,
        outer: given.share()?,
    };
    let given = Given::Children(Shared::new(alloc, frame)?);
    let mut inner = Vec::new(alloc);
    in_order(
        alloc, visit, left, path, &given, &view, &None, room, &mut inner,
    )?;
    push_node(
        out,
        Node::Instance(Inside {
            path: copied(alloc, path.as_slice())?,
            nodes: List::from_vec(alloc, inner)?,
        }),
    )?;
    Ok(())
}
