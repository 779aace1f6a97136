//! The places in the modules of an application.

ghost use Rattle.std.specs.Prelude.{◌≡◌, map, flat_map, IfOk, IfErr};
ghost use Rattle.qk_ast.specs.Application.{placing_of};
ghost use Rattle.qk_application.specs.Accepting.{Judges, Blames, named_module};

use crate::ApplicationFault;
use qk_ast::RuleKind;
use qk_modules::NamedModule;
use qk_rules::{Kinds, RuleFault, check};
use qk_shared::Text;
use std::alloc::Global;

/// Tries the rules of places in each of the modules of an application.
pub(crate) fn check_places(alloc: Global, modules: &[NamedModule]) -> Result<(), ApplicationFault>
    ensures { Judges (flat_map (placing_of (map named_module modules.now)) (map named_module modules.now)) tt result }
{
    let kinds = kinds_of(alloc, modules)?;
    check_all(alloc, &kinds, modules)
}

/// What the roots of these modules have under their names.
fn kinds_of<'a>(alloc: Global, modules: &'a [NamedModule]) -> Result<Kinds<'a>, ApplicationFault>
    ensures kinds { IfOk result (λ kinds. kinds ≡ map named_module modules.now) }
    ensures want { IfErr result (λ fault. fault ≡ ApplicationFault.Memory) }
{
    let mut kinds = Kinds::new(alloc);
    for module in modules {
        let Ok(()) = kinds.add(&module.name, &module.module) else {
            return Err(ApplicationFault::Memory);
        };
    }
    Ok(kinds)
}

/// Tries the rules in each of these modules.
fn check_all(
    alloc: Global,
    kinds: &Kinds<'_>,
    modules: &[NamedModule],
) -> Result<(), ApplicationFault>
    ensures { Judges (flat_map (placing_of kinds.now) (map named_module modules.now)) tt result }
{
    for module in modules {
        check_one(alloc, kinds, module)?;
    }
    Ok(())
}

/// Tries the rules in a module.
fn check_one(alloc: Global, kinds: &Kinds<'_>, module: &NamedModule) -> Result<(), ApplicationFault>
    ensures { Judges (placing_of kinds.now (named_module «module».now)) tt result }
{
    match check(alloc, kinds, &module.name, &module.module) {
        Ok(()) => Ok(()),
        Err(RuleFault::Refused { kind, name }) => Err(refusal(&module.name, kind, name)),
        Err(RuleFault::Memory) => Err(ApplicationFault::Memory),
    }
}

/// The refusal of what stands in the module of that name.
fn refusal(module: &Text, kind: RuleKind, name: Text) -> ApplicationFault
    ensures { Blames (ApplicationFault.Placing «module».now kind name) result }
{
    match module.share() {
        Ok(module) => ApplicationFault::Placing { module, kind, name },
        Err(_) => ApplicationFault::Memory,
    }
}
