//! The children of JSX values.

ghost use Rattle.std.specs.Prelude.{◌≡◌, [], OnOk};
ghost use Rattle.std.specs.Option.{option_copied};
ghost use Rattle.qk_meaning.specs.Markup as meaning;
ghost use Rattle.qk_value.specs.View.{seen, seen_all};
ghost use Rattle.qk_environment.specs.Scoping.{Captures};
ghost use Rattle.qk_making.specs.Trying.{Tried};
ghost use Rattle.qk_making.specs.Keys.{key_fault, keys_with};

use qk_ast::NameSet;
use qk_code::Stop;
use qk_shared::Text;
use qk_value::{Fault, Value};
use std::alloc::Global;

/// Tries a sequence of children in their order. A list among them is a sequence of its own.
///
/// # Errors
///
/// The first fault: `NotText` or `DuplicateKey`.
#[cycle(children)]
pub(crate) fn try_children(alloc: Global, children: &[Value]) -> Result<(), Stop>
    ensures { (names : Captures) → Tried (meaning.sequence_fault (seen_all names children.now) []) result }
{
    let mut keys = NameSet::new(alloc);
    for child in children {
        try_child(alloc, child)?;
        try_key(&mut keys, child)?;
    }
    Ok(())
}

#[cycle(children)]
fn try_child(alloc: Global, child: &Value) -> Result<(), Stop>
    ensures { (names : Captures) → Tried (meaning.child_fault (seen names child.now)) result }
{
    match child {
        Value::List(items) => try_children(alloc, items.as_slice()),
        Value::Undefined => Ok(()),
        Value::Null => Ok(()),
        Value::Bool(_) => Ok(()),
        Value::Int(_) => Ok(()),
        Value::Text(_) => Ok(()),
        Value::Elem(_) => Ok(()),
        Value::Ref(_) => Err(Stop::Fault(Fault::NotText)),
        Value::Record(_) => Err(Stop::Fault(Fault::NotText)),
        Value::Fun(_) => Err(Stop::Fault(Fault::NotText)),
    }
}

/// Tries the key of a child, where it has one, against those before it in its sequence; then it is one of them.
fn try_key<'a>(keys: &mut NameSet<'a>, child: &'a Value) -> Result<(), Stop>
    ensures tried { (names : Captures) → Tried (key_fault (meaning.key_of (seen names child.now)) keys.old) result }
    ensures added { OnOk result ((names : Captures) → keys.new ≡ keys_with keys.old (meaning.key_of (seen names child.now))) }
{
    let Some(key) = key_of(child) else {
        return Ok(());
    };
    if keys.add(key.as_str())? {
        Ok(())
    } else {
        Err(Stop::Fault(Fault::DuplicateKey))
    }
}

/// The key of a child.
fn key_of(child: &Value) -> Option<&Text>
    ensures { (names : Captures) → option_copied result ≡ meaning.key_of (seen names child.now) }
{
    match child {
        Value::Elem(element) => element.get().key.as_ref(),
        Value::Undefined => None,
        Value::Null => None,
        Value::Bool(_) => None,
        Value::Int(_) => None,
        Value::Text(_) => None,
        Value::Ref(_) => None,
        Value::List(_) => None,
        Value::Record(_) => None,
        Value::Fun(_) => None,
    }
}
