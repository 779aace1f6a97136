//! The acceptance of an application.

ghost use Rattle.std.specs.Prelude.{◌≡◌};
ghost use Rattle.qk_application.specs.Accepting.{Judges, breaches_of, application_of, Accepts};
ghost use Rattle.qk_application.specs.Causes.{FailsByStore, TellsMemory};

use crate::naming::all_names;
use crate::placing::check_places;
use crate::{Application, ApplicationFault};
use qk_modules::{Modules, gather};
use qk_store::Store;
use std::alloc::Global;

/// The application whose root is `root.jsx`, where it keeps all rules.
///
/// All modules are gathered first. Then the rules of names are tried in each, and then those of places in each; the first that is broken, in the
/// order of the modules and of their texts, is the refusal.
pub fn accept<S: Store>(alloc: Global, store: &mut S) -> Result<Application, ApplicationFault>
    ensures accepts { Accepts (S.files store.old) (S.answers store.old) (S.answers store.new) result }
    ensures files { S.files store.new ≡ S.files store.old }
    ensures cause { FailsByStore (S.faults store.old) (S.faults store.new) result }
    ensures memory { TellsMemory result }
{
    let modules = gather(alloc, store)?;
    judge(alloc, modules)
}

/// The application of these modules, where they keep all rules.
fn judge(alloc: Global, modules: Modules) -> Result<Application, ApplicationFault>
    ensures { Judges (breaches_of modules) (application_of modules) result }
{
    let names = all_names(alloc, modules.list.as_slice())?;
    check_places(alloc, modules.list.as_slice())?;
    Ok(Application { modules, names })
}
