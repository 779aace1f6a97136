//! The application of the one module that a text derives.

ghost use Rattle.std.specs.Prelude.{◌≡◌, ◌||◌, [], ◌∷◌, IfOk, OnOk};
ghost use Rattle.std.specs.List.{list_all};
ghost use Rattle.qk_ast.specs.declared.Form.TheVariants.{Source};
ghost use Rattle.qk_ast.specs.Application.{naming_of, placing_of};
ghost use Rattle.qk_ast.specs.Characters.{every, is_small_letter, is_digit};
ghost use Rattle.qk_ast.specs.Derives.{Derives};
ghost use Rattle.qk_ast.specs.Framework as framework;
ghost use Rattle.qk_application.specs.Accepting.{named_module, names_of};
ghost use Rattle.qk_call.specs.Alone.{IsOfText, IsAlone, is_of_framework};

use crate::stop::Stop;
use qk_application::Application;
use qk_ast::{Form, Import, Module};
use qk_modules::{Modules, NamedModule};
use qk_parse::{ParseFault, parse_module};
use qk_rules::{Kinds, RuleFault, check};
use qk_scope::{Names, ScopeFault, resolve};
use qk_shared::{List, Text};
use std::alloc::{AllocError, Global};
use std::str::from_utf8;

/// The source of the framework.
const FRAMEWORK: &str = "@builder.io/qwik";

/// The longest name of a module, in bytes.
const LONGEST: usize = 32;

/// The application of the module that a text derives, with that name: where it keeps all rules, and imports from the framework alone.
pub(crate) fn application(alloc: Global, name: &str, source: &[u8]) -> Result<Application, Stop>
    ensures { IfOk result (IsOfText source.now name.now) }
{
    let module = parsed(alloc, source)?;
    if !is_module_name(name) || !imports_framework(module.imports.as_slice()) {
        return Err(Stop::NoArrow);
    }
    let name = Text::from_str(alloc, name)?;
    alone(alloc, NamedModule { name, module })
}

/// The module that a text derives.
fn parsed(alloc: Global, source: &[u8]) -> Result<Module, Stop>
    ensures { IfOk result (Derives Source source.now) }
{
    let Ok(text) = from_utf8(source) else {
        return Err(Stop::NoArrow);
    };
    match parse_module(alloc, text, Form::Source) {
        Ok(module) => Ok(module),
        Err(ParseFault::Memory) => Err(Stop::Memory),
        Err(_) => Err(Stop::NoArrow),
    }
}

/// Whether all imports are from the framework.
fn imports_framework(imports: &[Import]) -> bool
    ensures { result ≡ list_all is_of_framework imports.now }
{
    imports
        .iter()
        .all(|import| import.from.as_str() == FRAMEWORK)
}

/// The application of one module, where it keeps all rules.
fn alone(alloc: Global, module: NamedModule) -> Result<Application, Stop>
    ensures { IfOk result (IsAlone «module») }
{
    let names = names(alloc, &module)?;
    check_places(alloc, &module)?;
    let mut modules = Vec::new(alloc);
    modules.push(module)?;
    let mut all = Vec::new(alloc);
    all.push(names)?;
    let list = List::from_vec(alloc, modules)?;
    Ok(Application {
        modules: Modules { list },
        names: List::from_vec(alloc, all)?,
    })
}

/// The names of a module, where it keeps the rules of names.
fn names(alloc: Global, module: &NamedModule) -> Result<Names, Stop>
    ensures names { IfOk result (λ names. names ≡ names_of «module».now) }
    ensures keeps { OnOk result (naming_of (named_module «module».now) ≡ []) }
{
    match resolve(alloc, &module.name, &module.module, Form::Source) {
        Ok(names) => Ok(names),
        Err(ScopeFault::Refused { .. }) => Err(Stop::NoArrow),
        Err(ScopeFault::Memory) => Err(Stop::Memory),
    }
}

/// Tries the rules of places in a module that is alone.
fn check_places(alloc: Global, module: &NamedModule) -> Result<(), Stop>
    ensures { OnOk result (placing_of (named_module «module».now ∷ []) (named_module «module».now) ≡ []) }
{
    let mut kinds = Kinds::new(alloc);
    let Ok(()) = kinds.add(&module.name, &module.module) else {
        return Err(Stop::Memory);
    };
    match check(alloc, &kinds, &module.name, &module.module) {
        Ok(()) => Ok(()),
        Err(RuleFault::Refused { .. }) => Err(Stop::NoArrow),
        Err(RuleFault::Memory) => Err(Stop::Memory),
    }
}

/// Whether a module may have the name: a small letter, then small letters and digits.
fn is_module_name(name: &str) -> bool
    ensures { result ≡ framework.is_module_name name.now }
{
    match name.as_bytes() {
        [] => false,
        [first, rest @ ..] => {
            first.is_ascii_lowercase() && rest.len() < LONGEST && are_in_names(rest)
        }
    }
}

/// Whether all are small letters and digits.
fn are_in_names(bytes: &[u8]) -> bool
    ensures { result ≡ every (λ d. is_small_letter d || is_digit d) bytes.now }
{
    for byte in bytes {
        if !byte.is_ascii_lowercase() && !byte.is_ascii_digit() {
            return false;
        }
    }
    true
}
