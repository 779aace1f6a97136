//! What a call is given.

ghost use Rattle.std.specs.Prelude.{◌≡◌, List, map};
ghost use Rattle.std.specs.Option.{option_copied};
ghost use Rattle.qk_ast.specs.Texts as texts;
ghost use Rattle.qk_meaning.specs.Value.{Site};
ghost use Rattle.qk_value.specs.View.{seen};
ghost use Rattle.qk_acts.specs.Ways.{only_of, integers_in};

use qk_ops::as_int;
use qk_value::Value;

/// The one argument, where there is one alone.
pub(crate) fn only(arguments: &[Value]) -> Option<&Value>
    ensures { option_copied result ≡ only_of arguments.now }
{
    match arguments {
        [v] => Some(v),
        _ => None,
    }
}

/// The two integers that the arguments are, where they are two.
pub(crate) fn two_integers(arguments: &[Value]) -> Option<(i64, i64)>
    ensures { (names : Site → List texts.Text) → result ≡ integers_in (map (seen names) arguments.now) }
{
    let [first, second] = arguments else {
        return None;
    };
    let a = as_int(first)?;
    let b = as_int(second)?;
    Some((a, b))
}
