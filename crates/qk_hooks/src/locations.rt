//! When two locations are the same.

ghost use Rattle.std.specs.Prelude.{◌≡◌};
ghost use Rattle.std.specs.List.{list_any};
ghost use Rattle.qk_meaning.specs.Places.{same_key, same_location};
ghost use Rattle.qk_heap.specs.Seen.{key_seen, loc_seen};

use qk_heap::{Key, Loc};

/// Whether the location is among these.
pub(crate) fn is_among(l: &Loc, all: &[Loc]) -> bool
    ensures { result ≡ list_any (λ m. same_location (loc_seen l.now) (loc_seen m)) all.now }
{
    for m in all {
        if is_same(l, m) {
            return true;
        }
    }
    false
}

fn is_same(a: &Loc, b: &Loc) -> bool
    ensures { result ≡ same_location (loc_seen a.now) (loc_seen b.now) }
{
    a.addr == b.addr && is_same_key(&a.key, &b.key)
}

fn is_same_key(a: &Key, b: &Key) -> bool
    ensures { result ≡ same_key (key_seen a.now) (key_seen b.now) }
{
    match (a, b) {
        (Key::Keys, Key::Keys) => true,
        (Key::Length, Key::Length) => true,
        (Key::Index(n), Key::Index(m)) => n == m,
        (Key::Prop(k), Key::Prop(l)) => k.is_same(l),
        _ => false,
    }
}
