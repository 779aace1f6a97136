//! What modules export, and which import names more.

ghost use Rattle.std.specs.Prelude.{◌≡◌, None, Some, ◌⊎◌, ℕ, List, IfOk, OnOk, IfErr, ◌||◌, ◌&&◌, not};
ghost use Rattle.std.specs.Option.{option_copied, option_map};
ghost use Rattle.std.specs.List.{find};
ghost use Rattle.qk_ast.specs.Texts.{same_text};
ghost use Rattle.qk_modules.specs.Gathering as gathering;
ghost use Rattle.qk_modules.specs.Gathering.{exported_in};
ghost use Rattle.qk_modules.specs.Exporting.{has_pair, HoldsExports, is_in_set, unexported};

use crate::names::{FRAMEWORK, named_by};
use crate::{GatherFault, NamedModule};
use qk_ast::framework::may_import;
use qk_ast::{Form, Import, Item};
use qk_shared::Text;
use std::alloc::{AllocError, Global};
use std::collections::BTreeSet;

/// Tries that each imported name is exported, and `App` by the root.
pub(crate) fn check_exports(alloc: Global, modules: &[NamedModule]) -> Result<(), GatherFault>
    ensures ok { OnOk result (gathering.first_missing modules.now ≡ None) }
    ensures err { IfErr result (λ fault. (option_map unexported (gathering.first_missing modules.now) ≡ Some fault) ⊎ (fault ≡ GatherFault.Memory)) }
{
    let Some((importer, name)) = missing_export(alloc, modules)? else {
        return Ok(());
    };
    Err(GatherFault::ExportMissing {
        module: Text::from_str(alloc, importer)?,
        name: Text::from_str(alloc, name)?,
    })
}

/// The first name that isn't exported, behind the module that imports it; `App` of the root is wanted last.
fn missing_export<'a>(
    alloc: Global,
    modules: &'a [NamedModule],
) -> Result<Option<(&'a str, &'a str)>, AllocError>
    ensures { IfOk result (λ found. option_map (λ p. (p.0.now, p.1.now)) found ≡ gathering.first_missing modules.now) }
{
    let exports = exports_of(alloc, modules)?;
    if let Some(found) = first_missing(&exports, modules) {
        return Ok(Some(found));
    }
    if exports.contains(&("root", "App")) {
        return Ok(None);
    }
    Ok(Some(("root", "App")))
}

/// The first module that imports a name that its source doesn't export, and the name.
fn first_missing<'a>(
    exports: &BTreeSet<(&'a str, &'a str)>,
    modules: &'a [NamedModule],
) -> Option<(&'a str, &'a str)>
    ensures { option_map (λ p. (p.0.now, p.1.now)) result ≡ gathering.missing_of (is_in_set exports.now) modules.now }
{
    for importer in modules {
        if let Some(name) = missing_in(exports, importer.module.imports.as_slice()) {
            return Some((importer.name.as_str(), name.as_str()));
        }
    }
    None
}

/// The pairs of a module's name and a name that it exports.
fn exports_of<'a>(
    alloc: Global,
    modules: &'a [NamedModule],
) -> Result<BTreeSet<(&'a str, &'a str)>, AllocError>
    ensures { IfOk result (λ exports. HoldsExports exports modules.now) }
{
    let mut exports = BTreeSet::new(alloc);
    for module in modules {
        add_exports(
            &mut exports,
            module.name.as_str(),
            module.module.items.as_slice(),
        )?;
    }
    Ok(exports)
}

/// Adds the names that the module of this name and these items exports.
fn add_exports<'a>(
    exports: &mut BTreeSet<(&'a str, &'a str)>,
    name: &'a str,
    items: &'a [Item],
) -> Result<(), AllocError>
    ensures { OnOk result ((m n : List ℕ) → has_pair exports.new m n ≡ (has_pair exports.old m n || (same_text name.now m && exported_in items.now n))) }
{
    for item in items {
        if item.exported {
            exports.insert((name, item.name.as_str()))?;
        }
    }
    Ok(())
}

/// The first imported name that its source doesn't export.
fn missing_in<'a>(exports: &BTreeSet<(&'a str, &'a str)>, imports: &'a [Import]) -> Option<&'a Text>
    ensures { option_copied result ≡ gathering.missing_in (is_in_set exports.now) imports.now }
{
    for import in imports {
        if let Some(name) = missing_name(exports, &import.from, import.names.as_slice()) {
            return Some(name);
        }
    }
    None
}

/// The first of the names that the source doesn't export.
fn missing_name<'a>(
    exports: &BTreeSet<(&'a str, &'a str)>,
    source: &'a Text,
    names: &'a [Text],
) -> Option<&'a Text>
    ensures { option_copied result ≡ find (λ name. not (is_in_set exports.now source.now name)) names.now }
{
    for name in names {
        if !is_exported(exports, source, name) {
            return Some(name);
        }
    }
    None
}

/// Whether the source exports the name.
fn is_exported<'a>(exports: &BTreeSet<(&'a str, &'a str)>, source: &'a Text, name: &'a Text) -> bool
    ensures { result ≡ is_in_set exports.now source.now name.now }
{
    let (source, name) = (source.as_str(), name.as_str());
    if source == FRAMEWORK {
        return may_import(Form::Source, name);
    }
    match named_by(source) {
        Some(named) => exports.contains(&(named, name)),
        None => false,
    }
}
