//! The call of a root arrow.

ghost use Rattle.std.specs.Prelude.{◌≡◌, IfOk};
ghost use Rattle.qk_meaning.specs.Program.{Program};
ghost use Rattle.qk_meaning.specs.References.{root_reference, Of};
ghost use Rattle.qk_meaning.specs.Value as M;
ghost use Rattle.qk_value.specs.declared.value.Value.{Fun as Function};
ghost use Rattle.qk_code.specs.Modes.{mode_seen};
ghost use Rattle.qk_code.specs.Sources.{Sources, Extends, reading};
ghost use Rattle.qk_code.specs.Standing.{Means, MeansIn};
ghost use Rattle.qk_eval.specs.Seeing.{value_seen};
ghost use Rattle.qk_call.specs.Playing.{IsNamed, Plays, PlaysNamed, answered_by};

use crate::console::Console;
use crate::played::{Came, Played};
use crate::stop::Stop;
use qk_base::{Budget, Meter};
use qk_code::{Code, Mode, Root, Stop as Halt};
use qk_eval::{Machine, call, root_value};
use qk_heap::Heap;
use qk_shared::Text;
use qk_value::{Fun, Value};
use std::alloc::Global;

/// Calls the arrow of that name of a file's root, without arguments and from nothing.
pub(crate) fn play_named<C: Code>(
    alloc: Global,
    code: &mut C,
    file: &Text,
    name: &Text,
    mode: Mode,
    most: Budget,
) -> Result<Played, Stop>
    ensures plays { IfOk result (PlaysNamed (reading C.form (C.sources code.new)) file.now name.now most (mode_seen mode)) }
    ensures grows { Extends (C.sources code.old) (C.sources code.new) }
{
    let f = function_named(alloc, code, file, name)?;
    play(alloc, code, &f, mode, most)
}

/// The function that a name of a file's root is.
fn function_named<C: Code>(
    alloc: Global,
    code: &mut C,
    file: &Text,
    name: &Text,
) -> Result<Fun, Stop>
    ensures named { IfOk result (λ f. IsNamed C.form (C.sources code.new) file.now name.now f) }
    ensures grows { Extends (C.sources code.old) (C.sources code.new) }
{
    let root = root_named(code, file, name)?;
    function_of(alloc, &root)
}

/// What a name of a file's root is.
fn root_named<C: Code>(code: &mut C, file: &Text, name: &Text) -> Result<Root, Stop>
    ensures means { IfOk result (λ r. MeansIn C.form (C.sources code.new) file.now name.now r) }
    ensures grows { Extends (C.sources code.old) (C.sources code.new) }
{
    Ok(code.root(file, name)?)
}

/// The function that it is.
fn function_of(alloc: Global, root: &Root) -> Result<Fun, Stop>
    ensures { IfOk result (λ f. (p : Program) (file name : M.Text) → Means p file name root.now → root_reference (p.root file name) ≡ Of (value_seen p (Function f))) }
{
    let v = root_value(alloc, root)?;
    match v {
        Value::Fun(f) => Ok(f),
        _other => Err(Stop::NoArrow),
    }
}

/// Calls a function without arguments and from nothing.
fn play<C: Code>(
    alloc: Global,
    code: &mut C,
    f: &Fun,
    mode: Mode,
    most: Budget,
) -> Result<Played, Stop>
    ensures plays { IfOk result (λ played. let p = reading C.form (C.sources code.new) in Plays p most (mode_seen mode) (value_seen p (Function f.now)) played) }
    ensures grows { Extends (C.sources code.old) (C.sources code.new) }
{
    let mut console = Console::new(alloc);
    let mut machine = Machine {
        alloc,
        meter: Meter::new(most),
        heap: Heap::new(alloc),
    };
    let result = call(f, &[], mode, false, &mut machine, code, &mut console);
    Ok(Played {
        lines: console.lines,
        came: came_by(result)?,
        heap: machine.heap,
    })
}

/// How a call came out that answered this.
fn came_by(answer: Result<Value, Halt>) -> Result<Came, Stop>
    ensures { IfOk result (λ came. answer ≡ answered_by came) }
{
    match answer {
        Ok(v) => Ok(Came::Value(v)),
        Err(Halt::Fault(f)) => Ok(Came::Fault(f)),
        Err(Halt::Ended) => Ok(Came::Ended),
        Err(Halt::Code(_)) => Err(Stop::NoArrow),
        Err(Halt::Memory) => Err(Stop::Memory),
    }
}
