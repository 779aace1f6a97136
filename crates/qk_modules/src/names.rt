//! The names of modules, and the sources and files that they stand for.

ghost use Rattle.std.specs.Prelude.{◌≡◌, Some, None, MatchOption, IfOk, ◌||◌, string_bytes};
ghost use Rattle.std.specs.Option.{option_copied};
ghost use Rattle.qk_ast.specs.Framework as framework;
ghost use Rattle.qk_ast.specs.Characters.{every, is_small_letter, is_digit};
ghost use Rattle.qk_modules.specs.Gathering.{file_of, source_of, named_by};

use std::alloc::{AllocError, Global};

/// The source of the framework.
pub(crate) const FRAMEWORK: &str = "@builder.io/qwik";

/// The longest name of a module, in bytes.
const LONGEST: usize = 32;

/// Whether it is the name of a module: a small letter, then small letters and digits.
fn is_module_name(name: &str) -> bool
    ensures { result ≡ framework.is_module_name name.now }
{
    match name.as_bytes() {
        [] => false,
        [first, rest @ ..] => {
            first.is_ascii_lowercase() && rest.len() < LONGEST && all_in_names(rest)
        }
    }
}

/// Whether all are small letters and digits.
fn all_in_names(bytes: &[u8]) -> bool
    ensures { result ≡ every (λ d. is_small_letter d || is_digit d) bytes.now }
{
    for byte in bytes {
        if !byte.is_ascii_lowercase() && !byte.is_ascii_digit() {
            return false;
        }
    }
    true
}

/// What stands between `./` and `.jsx`.
pub(crate) fn base_of(source: &str) -> Option<&str>
    ensures { MatchOption result ((base : _) → ¬ (source.now ≡ source_of base)) (λ base. source.now ≡ source_of base.now) }
{
    source.strip_prefix("./")?.strip_suffix(".jsx")
}

/// The name of the module whose source it is.
pub(crate) fn named_by(source: &str) -> Option<&str>
    ensures { option_copied result ≡ named_by source.now }
{
    let base = base_of(source)?;
    if is_module_name(base) {
        Some(base)
    } else {
        None
    }
}

/// The name of the file of this module.
pub(crate) fn file_name(alloc: Global, name: &str) -> Result<String, AllocError>
    ensures { IfOk result (λ file. string_bytes file ≡ file_of name.now) }
{
    let mut file = String::from_str(alloc, name)?;
    file.push_str(".jsx")?;
    Ok(file)
}
