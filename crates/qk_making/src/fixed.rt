//! Fixed values.

ghost use Rattle.qk_meaning.specs.Making as making;
ghost use Rattle.qk_meaning.specs.Setting.{Setting};
ghost use Rattle.qk_making.specs.Acting.{Leaves, seen_in};

use qk_code::Stop;
use qk_value::{Value, limited};

/// The most items of a list, and fields of a record.
pub(crate) const MOST: usize = 65536;

/// A fixed value, where it keeps the limits.
pub(crate) fn fixed(v: Value) -> Result<Value, Stop>
    ensures { (here : Setting) → Leaves (seen_in here) (making.made here (seen_in here v)) result }
{
    Ok(limited(v)?)
}
