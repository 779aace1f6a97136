//! The rules of names, tried on a whole module, and what is known where they are kept.

ghost use Rattle.std.specs.Prelude.{◌≡◌, [], ◌∷◌, ◌++◌, OnOk};
ghost use Rattle.qk_ast.specs.Arrows.{Unmarked};
ghost use Rattle.qk_ast.specs.Mentions as mentions;
ghost use Rattle.qk_ast.specs.Mentions.{mentions, item_mentions};
ghost use Rattle.qk_ast.specs.Naming.{all_naming_breaches};
ghost use Rattle.qk_scope.specs.Answering.{Answers, breaches};
ghost use Rattle.qk_scope.specs.Resolving.{Resolves};

use crate::ScopeFault;
use crate::importing::imports;
use crate::items::item_name;
use crate::keeper::Keeper;
use crate::roots::root_names;
use crate::rules::Rules;
use qk_ast::{Form, Item, Module, NameSet};
use qk_captures::{Captured, captures};
use qk_locals::Mark;
use qk_shared::{List, Text};
use std::alloc::Global;

/// What is known of the names of a module: for each arrow, in text order, its site and its captures.
#[derive(Drop)]
pub struct Names {
    pub captures: List<Captured>,
}

/// The names of a module or built file of that name, whose names keep the rules.
///
/// # Errors
///
/// `Refused` for the first name, in the order of the text, that breaks a rule; `Memory` for want of memory.
pub fn resolve(alloc: Global, file: &Text, m: &Module, form: Form) -> Result<Names, ScopeFault>
    ensures { Resolves form file.now m.now result }
{
    keeps_names(alloc, file, m, form)?;
    Ok(Names {
        captures: captures(alloc, file, m, form)?,
    })
}

/// Tries the rules of names on a module or built file of that name.
pub(crate) fn keeps_names(
    alloc: Global,
    file: &Text,
    m: &Module,
    form: Form,
) -> Result<(), ScopeFault>
    ensures { Answers (all_naming_breaches form file.now m.now) result }
{
    let roots = root_names(alloc, form, file, m)?;
    let mut keeper = Keeper::new(
        alloc,
        Rules {
            alloc,
            form,
            file,
            roots,
        },
    );
    let mut earlier = NameSet::new(alloc);
    imports(&keeper.rules, &mut earlier, m.imports.as_slice())?;
    items(&mut keeper, &mut earlier, m.items.as_slice())
}

/// The items of a module, behind the earlier names of the root.
fn items<'a>(
    keeper: &mut Keeper<'a>,
    earlier: &mut NameSet<'a>,
    items: &'a [Item],
) -> Result<(), ScopeFault>
    requires root { keeper.old.scopes ≡ [] }
    ensures { Answers (breaches keeper.old.rules (item_mentions earlier.old items.now)) result }
{
    for item in items {
        named_item(keeper, earlier, item)?;
    }
    Ok(())
}

/// An item: its name, and its value.
fn named_item<'a>(
    keeper: &mut Keeper<'a>,
    earlier: &mut NameSet<'a>,
    item: &'a Item,
) -> Result<(), ScopeFault>
    ensures rules { Answers (breaches keeper.old.rules (mentions.Roots item.now.name earlier.old ∷ mentions item.now.init Unmarked keeper.old.scopes)) result }
    ensures earlier { OnOk result (earlier.new ≡ earlier.old ++ item.now.name ∷ []) }
    ensures kept { OnOk result (keeper.new ≡ keeper.old) }
{
    item_name(&keeper.rules, earlier, &item.name)?;
    keeper.expression(&item.init, Mark::Unmarked)
}
