//! What a call calls.

ghost use Rattle.std.specs.Prelude.{◌≡◌};
ghost use Rattle.qk_meaning.specs.Program.{Program};
ghost use Rattle.qk_meaning.specs.Methods.{looked_up};
ghost use Rattle.qk_meaning.specs.Calls.{framework_callees, framework_callee as callee_of};
ghost use Rattle.qk_eval.specs.Seeing.{callee_seen};

use qk_acts::Method;
use qk_code::HookKind;
use qk_shared::Text;
use qk_value::Value;

/// What a call calls: a value, a method of a value, or a name of the framework that is only called.
#[derive(Drop)]
pub enum Callee {
    Value(Value),
    Method(Method, Value),
    Tracker,
    Dollar,
    Mark,
    Qrl,
    Hook(HookKind),
}

/// What a name of the framework calls; `undefined` where it is none that is called.
pub fn framework_callee(name: &Text) -> Callee
    ensures { (p : Program) → callee_seen p result ≡ callee_of (looked_up name.now framework_callees) }
{
    match name.as_str() {
        "$" => Callee::Dollar,
        "noSerialize" => Callee::Mark,
        "qrl" => Callee::Qrl,
        "useSignal" => Callee::Hook(HookKind::Signal),
        "useStore" => Callee::Hook(HookKind::Store),
        "useComputed$" => Callee::Hook(HookKind::Computed),
        "useComputedQrl" => Callee::Hook(HookKind::Computed),
        "useTask$" => Callee::Hook(HookKind::Task),
        "useTaskQrl" => Callee::Hook(HookKind::Task),
        "useContextProvider" => Callee::Hook(HookKind::Provider),
        "useContext" => Callee::Hook(HookKind::Context),
        _ => Callee::Value(Value::Undefined),
    }
}
