//! The names of an arrow that is entered.

ghost use Rattle.std.specs.Prelude.{◌≡◌, IfOk, OnOk, map};
ghost use Rattle.qk_meaning.specs.Parts.{zipped};
ghost use Rattle.qk_meaning.specs.Flow.{opened};
ghost use Rattle.qk_meaning.specs.Evaluation.{own_names, scope_of};
ghost use Rattle.qk_value.specs.View.{seen};
ghost use Rattle.qk_code.specs.Standing.{code_of};
ghost use Rattle.qk_environment.specs.Scoping.{Captures, scope_seen};

use crate::here::tracks;
use qk_code::Func;
use qk_environment::Scope;
use qk_value::Value;
use std::alloc::{AllocError, Global};

/// The names that an arrow captures with these values; a task's arrow sees no `track` of them where it has the parameter.
pub fn captured_scope(alloc: Global, func: &Func, captured: &[Value]) -> Result<Scope, AllocError>
    ensures { IfOk result (λ s. (names : Captures) → scope_seen names s.names.items ≡ scope_of (code_of func.now) (zipped func.now.captures (map (seen names) captured.now))) }
{
    if tracks(func) {
        return Scope::filled_for_task(alloc, func.captures.as_slice(), captured);
    }
    Scope::filled(alloc, func.captures.as_slice(), captured)
}

/// The names that an arrow declares in its own scope, in front of the others: its parameters, but for that of a task, and those of its body.
pub fn open_own(func: &Func, scope: &mut Scope) -> Result<(), AllocError>
    ensures { OnOk result ((names : Captures) → scope_seen names scope.new.names.items ≡ opened (own_names (code_of func.now)) (scope_seen names scope.old.names.items)) }
{
    let arrow = func.arrow.get();
    if !tracks(func) {
        scope.open_parameters(arrow.params.as_slice())?;
    }
    scope.open_body(&arrow.body)
}
