//! The names of the framework that the rules of places speak of.

ghost use Rattle.std.specs.Prelude.{◌≡◌, ◌∷◌, [], map, codes};
ghost use Rattle.qk_ast.specs.Texts.{is_among};
ghost use Rattle.qk_ast.specs.Placing.{value_hooks, context_hooks, dollar_names};
ghost use Rattle.qk_ast.specs.Spots.{statement_hooks};

/// The hooks that are the initialiser of a constant.
const VALUE_HOOKS: [&str; 4] = ["useSignal", "useStore", "useComputed$", "useContext"];

/// The hooks that are whole statements.
const STATEMENT_HOOKS: [&str; 2] = ["useTask$", "useContextProvider"];

/// The hooks whose first argument is a context id.
const CONTEXT_HOOKS: [&str; 2] = ["useContext", "useContextProvider"];

/// The names that are called with one arrow.
const DOLLAR_NAMES: [&str; 4] = ["component$", "$", "useTask$", "useComputed$"];

/// Whether the text is one of those.
pub(crate) fn is_one_of(text: &str, texts: &[&str]) -> bool
    ensures { result ≡ is_among text.now (map (λ t. t.now) texts.now) }
{
    for other in texts {
        if text == *other {
            return true;
        }
    }
    false
}

pub(crate) fn is_value_hook(name: &str) -> bool
    ensures { result ≡ is_among name.now value_hooks }
{
    is_one_of(name, &VALUE_HOOKS)
}

pub(crate) fn is_statement_hook(name: &str) -> bool
    ensures { result ≡ is_among name.now statement_hooks }
{
    is_one_of(name, &STATEMENT_HOOKS)
}

pub(crate) fn is_context_hook(name: &str) -> bool
    ensures { result ≡ is_among name.now context_hooks }
{
    is_one_of(name, &CONTEXT_HOOKS)
}

pub(crate) fn is_dollar_name(name: &str) -> bool
    ensures { result ≡ is_among name.now dollar_names }
{
    is_one_of(name, &DOLLAR_NAMES)
}

/// Whether its call is the whole initialiser of an item.
pub(crate) fn makes_root(name: &str) -> bool
    ensures { result ≡ is_among name.now (codes "component$" ∷ codes "createContextId" ∷ []) }
{
    is_one_of(name, &["component$", "createContextId"])
}

/// Whether it is called with one argument.
pub(crate) fn wants_one(name: &str) -> bool
    ensures { result ≡ is_among name.now (codes "$" ∷ codes "noSerialize" ∷ []) }
{
    is_one_of(name, &["$", "noSerialize"])
}
