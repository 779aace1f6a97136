//! The names of a module's root.

ghost use Rattle.std.specs.Prelude.{◌≡◌, [], ◌∷◌, OnOk, IfOk};
ghost use Rattle.qk_ast.specs.Mentions.{import_names, item_names};
ghost use Rattle.qk_ast.specs.Names.{others_than};
ghost use Rattle.qk_ast.specs.Naming as naming;
ghost use Rattle.qk_ast.specs.Walking.{with_names};
ghost use Rattle.qk_scope.specs.RootNames.{own_names};

use crate::symbols::is_segment;
use qk_ast::{Form, Import, Item, Module, NameSet};
use qk_shared::Text;
use std::alloc::{AllocError, Global};

/// The names of the root that a use may mean. That of a segment's own item is none of them.
pub(crate) fn root_names<'a>(
    alloc: Global,
    form: Form,
    file: &'a Text,
    m: &'a Module,
) -> Result<NameSet<'a>, AllocError>
    ensures { IfOk result (λ names. names ≡ with_names [] (naming.root_names form file.now m.now)) }
{
    let mut names = NameSet::new(alloc);
    add_imported(&mut names, m.imports.as_slice())?;
    add_own(&mut names, form, file, m.items.as_slice())?;
    Ok(names)
}

/// The names of the items that a use may mean.
fn add_own<'a>(
    names: &mut NameSet<'a>,
    form: Form,
    file: &Text,
    items: &'a [Item],
) -> Result<(), AllocError>
    ensures { OnOk result (names.new ≡ with_names names.old (own_names form file.now items.now)) }
{
    if is_segment(form, file) {
        return add_items_but(names, file, items);
    }
    add_items(names, items)
}

/// The names that these imports import.
fn add_imported<'a>(names: &mut NameSet<'a>, imports: &'a [Import]) -> Result<(), AllocError>
    ensures { OnOk result (names.new ≡ with_names names.old (import_names imports.now)) }
{
    for import in imports {
        names.add_all(import.names.as_slice())?;
    }
    Ok(())
}

/// The names of these items.
fn add_items<'a>(names: &mut NameSet<'a>, items: &'a [Item]) -> Result<(), AllocError>
    ensures { OnOk result (names.new ≡ with_names names.old (item_names items.now)) }
{
    for item in items {
        names.add(item.name.as_str())?;
    }
    Ok(())
}

/// The names of these items that aren't this one.
fn add_items_but<'a>(
    names: &mut NameSet<'a>,
    name: &Text,
    items: &'a [Item],
) -> Result<(), AllocError>
    ensures { OnOk result (names.new ≡ with_names names.old (others_than (name.now ∷ []) (item_names items.now))) }
{
    for item in items {
        if !name.is_same(&item.name) {
            names.add(item.name.as_str())?;
        }
    }
    Ok(())
}
