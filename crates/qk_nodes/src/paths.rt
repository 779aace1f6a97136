//! When paths are the same, and when one is above another.

ghost use Rattle.std.specs.Prelude.{◌≡◌};
ghost use Rattle.qk_meaning.specs.Places as places;
ghost use Rattle.qk_nodes.specs.Tree.{place_of, step_of, path_of};

use crate::node::{Place, Step};

/// Whether the two are the same path.
pub fn is_same_path(a: &[Step], b: &[Step]) -> bool
    ensures { result ≡ places.same_path (path_of a.now) (path_of b.now) }
{
    if a.len() != b.len() {
        return false;
    }
    let mut at = 0;
    while at < a.len() {
        if !is_same_step(&a[at], &b[at]) {
            return false;
        }
        at += 1;
    }
    true
}

/// Whether the first path is a proper beginning of the second.
pub fn is_above(a: &[Step], b: &[Step]) -> bool
    ensures { result ≡ places.is_above (path_of a.now) (path_of b.now) }
{
    if a.len() >= b.len() {
        return false;
    }
    let mut at = 0;
    while at < a.len() {
        if !is_same_step(&a[at], &b[at]) {
            return false;
        }
        at += 1;
    }
    true
}

fn is_same_step(a: &Step, b: &Step) -> bool
    ensures { result ≡ places.same_step (step_of a.now) (step_of b.now) }
{
    is_same_place(&a.place, &b.place) && a.name.is_same(&b.name)
}

fn is_same_place(a: &Place, b: &Place) -> bool
    ensures { result ≡ places.same_place (place_of a.now) (place_of b.now) }
{
    match (a, b) {
        (Place::Keyed(key), Place::Keyed(other)) => key.is_same(other),
        (Place::Nth(number), Place::Nth(other)) => number == other,
        _ => false,
    }
}
