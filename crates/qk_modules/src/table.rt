//! The imported names of a module.

ghost use Rattle.std.specs.Prelude.{◌≡◌, ◌<◌, ◌++◌, Some, IfOk, OnOk, length, slice_get};
ghost use Rattle.qk_modules.specs.Importing.{origin_of, imported_by, imported};

use crate::names::named_by;
use crate::{Modules, ModulesFault};
use qk_ast::{Import, ImportTable, Imported, Origin};
use qk_shared::{Builder, Text};
use std::alloc::{AllocError, Global};

/// The imported names of the module at a place of the list, counted from 0, each with its origin, in the order of its text.
///
/// The origin is told by the import's source alone: a source that names a module is of that module, any other of the framework. In a list that
/// `gather` gave, that module stands in the list and exports the name, and other sources are the framework's; in another list neither is tried.
pub fn imports(alloc: Global, modules: &Modules, at: usize) -> Result<ImportTable, ModulesFault>
    requires { at < length modules.now.list }
    ensures { IfOk result (λ table. (m : _) × (slice_get modules.now.list at ≡ Some m) × (table.entries ≡ imported m.module.imports)) }
{
    let module = &modules.list.as_slice()[at].module;
    let mut entries = Builder::new(alloc);
    add_imports(alloc, &mut entries, module.imports.as_slice())?;
    Ok(ImportTable {
        entries: entries.into_list(alloc)?,
    })
}

/// Adds the names of these imports.
fn add_imports(
    alloc: Global,
    entries: &mut Builder<Imported>,
    imports: &[Import],
) -> Result<(), AllocError>
    ensures { OnOk result (entries.new ≡ entries.old ++ imported imports.now) }
{
    for import in imports {
        add_names(alloc, entries, &import.from, import.names.as_slice())?;
    }
    Ok(())
}

/// Adds these names, which are imported from this source.
fn add_names(
    alloc: Global,
    entries: &mut Builder<Imported>,
    source: &Text,
    names: &[Text],
) -> Result<(), AllocError>
    ensures { OnOk result (entries.new ≡ entries.old ++ imported_by source.now names.now) }
{
    for name in names {
        let origin = origin(alloc, source, name)?;
        entries.push(Imported {
            name: name.share()?,
            origin,
        })?;
    }
    Ok(())
}

/// The origin of a name that is imported from this source.
fn origin(alloc: Global, source: &Text, name: &Text) -> Result<Origin, AllocError>
    ensures { IfOk result (λ o. o ≡ origin_of source.now name.now) }
{
    let name = name.share()?;
    match named_by(source.as_str()) {
        Some(module) => Ok(Origin::Module(Text::from_str(alloc, module)?, name)),
        None => Ok(Origin::Qwik(name)),
    }
}
