//! Calls of functions from outside.

ghost use Rattle.qk_meaning.specs.Value.{Fields};
ghost use Rattle.qk_meaning.specs.Program.{Program};
ghost use Rattle.qk_eval.specs.Standing.{with_scope};
ghost use Rattle.qk_eval.specs.Called.{Calls};

use crate::evaluation::enter;
use crate::machine::Machine;
use qk_code::{Code, Host, Mode, Stop};
use qk_value::{Fun, Value};

/// Calls a function with these arguments, with the turns and levels that the budget has left. Where `hooked` is true the host answers its hook calls, else each
/// gives undefined.
///
/// A value that it gives, what it does to the objects, what it tells the host and what it asks the code for are those of the meaning, in the meaning's order.
/// What it did before it stopped stays done.
///
/// # Errors
///
/// `Fault` for the first fault that it comes to, `Ended` where it needs a turn or level that the budget hasn't, `Code` where the code gives nothing, `Memory` for
/// want of memory. So is told, too, a plain function that was made up with another number of values than its arrow captures; no code makes one.
pub fn call<C: Code, H: Host>(
    f: &Fun,
    given: &[Value],
    mode: Mode,
    hooked: bool,
    machine: &mut Machine,
    code: &mut C,
    host: &mut H,
) -> Result<Value, Stop>
    ensures { (around : Program → Fields) → Calls C.form hooked mode f.now given.now (with_scope (C.sources code.old) (C.counts code.old) (C.asked code.old) machine.old around (H.stands_for host.old)) result (with_scope (C.sources code.new) (C.counts code.new) (C.asked code.new) machine.new around (H.stands_for host.new)) }
{
    let levels = machine.meter.depth_left();
    enter(f, given, mode, &[], levels, hooked, machine, code, host)
}
