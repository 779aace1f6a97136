//! The names of the framework and of the fixed calls.

ghost use Rattle.std.specs.Prelude.{◌≡◌, map};
ghost use Rattle.qk_ast.specs.Texts.{is_among};
ghost use Rattle.qk_ast.specs.Framework as framework;

use crate::Form;

/// The names that a module may import from the framework.
const FRAMEWORK_NAMES: [&str; 11] = [
    "$",
    "Slot",
    "component$",
    "createContextId",
    "noSerialize",
    "useComputed$",
    "useContext",
    "useContextProvider",
    "useSignal",
    "useStore",
    "useTask$",
];

/// The names that only a built file imports.
const BUILT_NAMES: [&str; 5] = [
    "componentQrl",
    "qrl",
    "useComputedQrl",
    "useTaskQrl",
    "useLexicalScope",
];

/// The names whose calls a built file has in another form.
const LIFTED_NAMES: [&str; 4] = ["$", "component$", "useComputed$", "useTask$"];

/// The names of the fixed calls.
const FIXED_NAMES: [&str; 4] = ["console", "Math", "Object", "String"];

/// Whether the name stands in fixed calls alone.
pub fn is_fixed(name: &str) -> bool
    ensures { result ≡ framework.is_fixed name.now }
{
    is_one_of(name, &FIXED_NAMES)
}

/// Whether a declaration may have the name only as an import of it.
pub fn is_taken(name: &str) -> bool
    ensures { result ≡ framework.is_taken name.now }
{
    is_one_of(name, &FRAMEWORK_NAMES) || is_one_of(name, &BUILT_NAMES) || is_fixed(name)
}

/// Whether the text is one of those.
fn is_one_of(text: &str, texts: &[&str]) -> bool
    ensures { result ≡ is_among text.now (map (λ t. t.now) texts.now) }
{
    for other in texts {
        if text == *other {
            return true;
        }
    }
    false
}

/// Whether a module or built file may import the name from the framework.
pub fn may_import(form: Form, name: &str) -> bool
    ensures { result ≡ framework.may_import form name.now }
{
    match form {
        Form::Source => is_one_of(name, &FRAMEWORK_NAMES),
        Form::Built => {
            is_one_of(name, &BUILT_NAMES)
                || is_one_of(name, &FRAMEWORK_NAMES) && !is_one_of(name, &LIFTED_NAMES)
        }
    }
}
