//! The names of the modules of an application.

ghost use Rattle.std.specs.Prelude.{map, flat_map};
ghost use Rattle.qk_ast.specs.Application.{naming_of};
ghost use Rattle.qk_application.specs.Accepting.{Judges, Blames, named_module, names_of};

use crate::ApplicationFault;
use qk_ast::{Form, ScopeKind};
use qk_modules::NamedModule;
use qk_scope::{Names, ScopeFault, resolve};
use qk_shared::{Builder, List, Text};
use std::alloc::Global;

/// The names of each of the modules, in order, where all keep the rules of names.
pub(crate) fn all_names(
    alloc: Global,
    modules: &[NamedModule],
) -> Result<List<Names>, ApplicationFault>
    ensures { Judges (flat_map naming_of (map named_module modules.now)) (map names_of modules.now) result }
{
    let mut all = Builder::new(alloc);
    for module in modules {
        all.push(names(alloc, module)?)?;
    }
    Ok(all.into_list(alloc)?)
}

/// The names of a module, where it keeps the rules of names.
fn names(alloc: Global, module: &NamedModule) -> Result<Names, ApplicationFault>
    ensures { Judges (naming_of (named_module «module».now)) (names_of «module».now) result }
{
    match resolve(alloc, &module.name, &module.module, Form::Source) {
        Ok(names) => Ok(names),
        Err(ScopeFault::Refused { kind, name }) => Err(refusal(&module.name, kind, name)),
        Err(ScopeFault::Memory) => Err(ApplicationFault::Memory),
    }
}

/// The refusal of a name in the module of that name.
fn refusal(module: &Text, kind: ScopeKind, name: Text) -> ApplicationFault
    ensures { Blames (ApplicationFault.Naming «module».now kind name) result }
{
    match module.share() {
        Ok(module) => ApplicationFault::Naming { module, kind, name },
        Err(_) => ApplicationFault::Memory,
    }
}
