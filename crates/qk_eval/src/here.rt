//! Where the code that runs stands.

ghost use Rattle.std.specs.Prelude.{◌≡◌};
ghost use Rattle.qk_meaning.specs.Setting.{has_tracker};
ghost use Rattle.qk_code.specs.Standing.{code_of};

use qk_code::{Func, Mode};
use qk_value::Addr;

/// Where the code that runs stands: its function, its mode, the computeds under way, the levels of depth that are left, and whether its
/// hook calls are answered.
#[derive(Clone, Copy, Drop)]
pub struct Here<'a> {
    pub func: &'a Func,
    pub mode: Mode,
    pub running: &'a [Addr],
    pub levels: u32,
    pub hooked: bool,
}

/// Whether an arrow is a task's with the parameter `track`.
pub fn tracks(func: &Func) -> bool
    ensures { result ≡ has_tracker (code_of func.now) }
{
    func.task && !func.arrow.get().params.is_empty()
}
