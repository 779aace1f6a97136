//! Members are written and deleted.

ghost use Rattle.qk_meaning.specs.References as references;
ghost use Rattle.qk_meaning.specs.Setting.{is_effect};
ghost use Rattle.qk_making.specs.Acting.{ActsIn, seen_in};
ghost use Rattle.qk_acts.specs.Naming.{nothing};

use crate::way::way_to;
use qk_code::{Host, Mode, Stop};
use qk_heap::{Heap, key_name};
use qk_value::Value;
use std::alloc::Global;

/// A member of a value is written, and the host is told what of it isn't the same.
///
/// # Errors
///
/// `NoProperty` of a value that has no properties, `FixedWrite` of fixed values, props and computeds, `RenderWrite` in another mode than Effect; then what
/// the object's kind refuses.
pub fn write_member<H: Host>(
    mode: Mode,
    heap: &mut Heap,
    object: &Value,
    key: &Value,
    v: Value,
    host: &mut H,
) -> Result<(), Stop>
    ensures { ActsIn mode nothing (λ here. references.written_to here (seen_in here object.now) (seen_in here key.now) (seen_in here v)) heap.old (H.stands_for host.old) result heap.new (H.stands_for host.new) }
{
    let a = way_to(mode, heap, object)?;
    heap.write(a, key, v, host)?;
    Ok(())
}

/// A member of a value is deleted, and the host is told what of it isn't the same.
///
/// # Errors
///
/// As for a write; then `TypeMismatch` of an array and of a signal.
pub fn remove_member<H: Host>(
    alloc: Global,
    mode: Mode,
    heap: &mut Heap,
    object: &Value,
    key: &Value,
    host: &mut H,
) -> Result<(), Stop>
    ensures { ActsIn mode nothing (λ here. references.member_removed here (is_effect here.mode) (seen_in here object.now) (seen_in here key.now)) heap.old (H.stands_for host.old) result heap.new (H.stands_for host.new) }
{
    let a = way_to(mode, heap, object)?;
    let name = key_name(alloc, key)?;
    heap.remove(a, name.as_str(), host)?;
    Ok(())
}
