//! Functions by their numbers.

ghost use Rattle.std.specs.Prelude.{◌≡◌};
ghost use Rattle.std.specs.Option.{option_copied};
ghost use Rattle.qk_whole.specs.Numbers.{numbered};

use qk_code::Func;
use qk_shared::{List, Shared};

/// The function of that number, from 1.
pub(crate) fn numbered(functions: &List<Shared<Func>>, number: u32) -> Option<&Shared<Func>>
    ensures { option_copied result ≡ numbered functions.now number }
{
    let before = number.checked_sub(1)?;
    functions.get(before as usize)
}
