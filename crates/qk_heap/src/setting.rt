//! The props of an instance are set to the fields that the view gives.
ghost use Rattle.std.specs.Prelude.{◌≡◌, ◌||◌, Bool, true, List, OnOk, OnErr, IfOk};
ghost use Rattle.std.specs.Option.{option_copied};
ghost use Rattle.qk_ast.specs.Texts as texts;
ghost use Rattle.qk_meaning.specs.Value.{Site};
ghost use Rattle.qk_meaning.specs.World.{Prop};
ghost use Rattle.qk_meaning.specs.Changes.{unless_same};
ghost use Rattle.qk_meaning.specs.Same as alike;
ghost use Rattle.qk_meaning.specs.Props as meaning;
ghost use Rattle.qk_value.specs.View.{seen, seen_fields};
ghost use Rattle.qk_heap.specs.Told.{Hears, all_changed, keys_changed};
ghost use Rattle.qk_heap.specs.Set_props.{PropsSet, changed_at, passes, value_seen, older_or_new};

use crate::fields::Fields;
use crate::location::Key;
use crate::telling::{tell, tell_unless_same};
use crate::watch::{Watch, WatchFault};
use qk_shared::Text;
use qk_value::{Addr, Value, same};
use std::alloc::{AllocError, Global};

/// The fields become those given, and the watch is told. All that can fail comes before the change.
pub(crate) fn set_fields<W: Watch>(
    alloc: Global,
    held: &mut Fields,
    given: &Fields,
    a: Addr,
    w: &mut W,
) -> Result<(), WatchFault>
    ensures became { OnOk result ((names : Site → List texts.Text) → PropsSet W.stands_for names a.0 given.now held.old held.new w.old w.new) }
    ensures kept { OnErr result (held.new ≡ held.old) }
{
    let after = with_new(kept(alloc, held, given)?, held, given)?;
    tell_set(held, given, a, w)?;
    *held = after;
    Ok(())
}

/// The fields that stand and are given, in the order in which they stand; one that is the same keeps its value.
fn kept(alloc: Global, held: &Fields, given: &Fields) -> Result<Fields, AllocError>
    ensures { IfOk result (λ after. (names : Site → List texts.Text) → seen_fields names after ≡ meaning.kept_fields (alike.same names) (seen_fields names held.now) (seen_fields names given.now)) }
{
    let mut after = Fields::new(alloc);
    for at in 0..held.len() {
        let (name, older) = held.entry(at);
        let Some(newer) = given.get(name) else {
            continue;
        };
        after.put(name.share()?, older_unless_new(older, newer)?)?;
    }
    Ok(after)
}

/// The older value where both are the same, else the newer.
fn older_unless_new(older: &Value, newer: &Value) -> Result<Value, AllocError>
    ensures { IfOk result (λ v. (names : Site → List texts.Text) → seen names v ≡ older_or_new names (seen names older.now) (seen names newer.now)) }
{
    if same(older, newer) {
        older.share()
    } else {
        newer.share()
    }
}

/// Behind the fields that were kept come the given ones that don't stand, in the order in which they are given.
fn with_new(kept: Fields, held: &Fields, given: &Fields) -> Result<Fields, AllocError>
    requires { (names : Site → List texts.Text) → seen_fields names kept ≡ meaning.kept_fields (alike.same names) (seen_fields names held.now) (seen_fields names given.now) }
    ensures { IfOk result (λ after. (names : Site → List texts.Text) → seen_fields names after ≡ meaning.fields_after (alike.same names) (seen_fields names held.now) (seen_fields names given.now)) }
{
    let mut after = kept;
    for at in 0..given.len() {
        let (name, v) = given.entry(at);
        let Some(_) = held.get(name) else {
            after.put(name.share()?, v.share()?)?;
            continue;
        };
    }
    Ok(after)
}

/// Tells of what setting these fields changes: what goes, then what is written, last the key list.
fn tell_set<W: Watch>(held: &Fields, given: &Fields, a: Addr, w: &mut W) -> Result<(), WatchFault>
    ensures { OnOk result ((names : Site → List texts.Text) → Hears W.stands_for w.old (all_changed (meaning.props_log (alike.same names) a.0 (seen_fields names held.now) (seen_fields names given.now))) w.new) }
{
    tell_changed(held, true, held, given, a, w)?;
    tell_changed(given, false, held, given, a, w)?;
    if names_differ(held, given) {
        return tell(a, Key::Keys, w);
    }
    Ok(())
}

/// Tells of those of these names under which the two have not the same value; where `gone`, of those that aren't given.
fn tell_changed<W: Watch>(
    listed: &Fields,
    gone: bool,
    held: &Fields,
    given: &Fields,
    a: Addr,
    w: &mut W,
) -> Result<(), WatchFault>
    ensures { OnOk result ((names : Site → List texts.Text) → Hears W.stands_for w.old (all_changed (meaning.changed (alike.same names) a.0 (passes gone (seen_fields names given.now)) (seen_fields names listed.now) (seen_fields names held.now) (seen_fields names given.now))) w.new) }
{
    for at in 0..listed.len() {
        let (name, _) = listed.entry(at);
        tell_name(name, gone, held, given, a, w)?;
    }
    Ok(())
}

/// Tells of a name, unless the two have the same value under it; where `gone`, unless it is given.
fn tell_name<W: Watch>(
    name: &Text,
    gone: bool,
    held: &Fields,
    given: &Fields,
    a: Addr,
    w: &mut W,
) -> Result<(), WatchFault>
    ensures { OnOk result ((names : Site → List texts.Text) → Hears W.stands_for w.old (keys_changed a.0 (changed_at names (passes gone (seen_fields names given.now) name.now) name.now (seen_fields names held.now) (seen_fields names given.now))) w.new) }
{
    if gone {
        return tell_gone(name, held, given, a, w);
    }
    tell_between(name, held.get(name), given.get(name), a, w)
}

/// Tells of a name that isn't given, unless its value was undefined.
fn tell_gone<W: Watch>(
    name: &Text,
    held: &Fields,
    given: &Fields,
    a: Addr,
    w: &mut W,
) -> Result<(), WatchFault>
    ensures { OnOk result ((names : Site → List texts.Text) → Hears W.stands_for w.old (keys_changed a.0 (changed_at names (passes true (seen_fields names given.now) name.now) name.now (seen_fields names held.now) (seen_fields names given.now))) w.new) }
{
    let Some(_) = given.get(name) else {
        return tell_between(name, held.get(name), None, a, w);
    };
    Ok(())
}

/// Tells of a name, unless both values are the same; one that is missing is undefined.
fn tell_between<W: Watch>(
    name: &Text,
    older: Option<&Value>,
    newer: Option<&Value>,
    a: Addr,
    w: &mut W,
) -> Result<(), WatchFault>
    ensures { OnOk result ((names : Site → List texts.Text) → Hears W.stands_for w.old (keys_changed a.0 (unless_same names (value_seen names (option_copied older.entry)) (value_seen names (option_copied newer.entry)) (Prop name.now))) w.new) }
{
    let key = Key::Prop(name.share()?);
    match older {
        Some(v) => match newer {
            Some(x) => tell_unless_same(a, key, v, x, w),
            None => tell_unless_same(a, key, v, &Value::Undefined, w),
        },
        None => match newer {
            Some(x) => tell_unless_same(a, key, &Value::Undefined, x, w),
            None => tell_unless_same(a, key, &Value::Undefined, &Value::Undefined, w),
        },
    }
}

/// Whether some name stands in one of them alone.
fn names_differ(fields: &Fields, others: &Fields) -> bool
    ensures { (names : Site → List texts.Text) → result ≡ (meaning.lacks_some (seen_fields names fields.now) (seen_fields names others.now) || meaning.lacks_some (seen_fields names others.now) (seen_fields names fields.now)) }
{
    lacks_some(fields, others) || lacks_some(others, fields)
}

/// Whether a name of the one stands in no field of the other.
fn lacks_some(fields: &Fields, other: &Fields) -> bool
    ensures { (names : Site → List texts.Text) → result ≡ meaning.lacks_some (seen_fields names fields.now) (seen_fields names other.now) }
{
    for at in 0..fields.len() {
        let (name, _) = fields.entry(at);
        let Some(_) = other.get(name) else {
            return true;
        };
    }
    false
}
