//! The gathering of an application's modules.

ghost use Rattle.std.specs.Prelude.{◌≡◌, IfOk, [], ◌∷◌};
ghost use Rattle.qk_modules.specs.Gathering.{Gathers, source_of, root};
ghost use Rattle.qk_modules.specs.Causes.{FailsByStore};

use crate::exports::check_exports;
use crate::listing::Listing;
use crate::turn::take_turn;
use crate::{GatherFault, Modules};
use qk_shared::{Builder, Text};
use qk_store::Store;
use std::alloc::{AllocError, Global};

/// The modules that `root.jsx` reaches, read and parsed in the order of their list.
///
/// At its turn a module is refused where it is missing, isn't UTF-8, doesn't parse or is the 257th. Once all are read, each imported name must be
/// exported, and `App` by the root.
pub fn gather<S: Store>(alloc: Global, store: &mut S) -> Result<Modules, GatherFault>
    ensures gathers { Gathers (S.files store.old) (S.answers store.old) (S.answers store.new) result }
    ensures files { S.files store.new ≡ S.files store.old }
    ensures cause { FailsByStore (S.faults store.old) (S.faults store.new) result }
{
    let mut modules = Builder::new(alloc);
    let mut listing = first_listing(alloc)?;
    while let Some(source) = listing.get(modules.len()) {
        let module = take_turn(alloc, store, modules.as_slice(), source)?;
        listing = listing.with_imports(alloc, module.module.imports.as_slice())?;
        modules.push(module)?;
    }
    check_exports(alloc, modules.as_slice())?;
    Ok(Modules {
        list: modules.into_list(alloc)?,
    })
}

/// The listing of the root alone.
fn first_listing(alloc: Global) -> Result<Listing, AllocError>
    ensures { IfOk result (λ listing. listing ≡ source_of root ∷ []) }
{
    Listing::new(alloc).with(alloc, &Text::from_str(alloc, "./root.jsx")?)
}
