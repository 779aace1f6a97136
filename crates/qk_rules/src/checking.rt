//! The check of a module.

ghost use Rattle.std.specs.Prelude.{◌≡◌, true, not, nat_le, length, codes};
ghost use Rattle.qk_ast.specs.declared.RuleKind.TheVariants.{TooManySites};
ghost use Rattle.qk_ast.specs.Arrows.{item_arrows, of_kind};
ghost use Rattle.qk_ast.specs.Placing.{refuse_if, most_sites, root_kind};
ghost use Rattle.qk_rules.specs.Checking.{Answers, Checks};

use crate::sites::has_too_many;
use crate::walk::Walk;
use crate::{Kinds, RuleFault};
use qk_ast::{Item, Module, RuleKind};
use qk_shared::Text;
use std::alloc::Global;

/// Whether the items have no more dollar sites than those of a module may.
fn sites_told(alloc: Global, items: &[Item]) -> Result<(), RuleFault>
    ensures { Answers (refuse_if (not (nat_le (length (of_kind true (item_arrows items.now))) most_sites)) TooManySites (codes "-")) result }
{
    if has_too_many(items) {
        let name = Text::from_str(alloc, "-")?;
        return Err(RuleFault::Refused {
            kind: RuleKind::TooManySites,
            name,
        });
    }
    Ok(())
}

/// Whether a module keeps the rules of places, in an application of these modules. It is for modules whose names keep the rules of names.
///
/// # Errors
///
/// `Refused` with the first breach in text order, that on the number of sites last; `Memory` for want of memory.
pub fn check(alloc: Global, kinds: &Kinds, name: &Text, m: &Module) -> Result<(), RuleFault>
    ensures { Checks name.now (root_kind kinds.now m.now) m.now result }
{
    let roots = kinds.roots_of(alloc, m)?;
    let mut walk = Walk::new(alloc, name.as_str(), roots);
    walk.items(m.items.as_slice())?;
    sites_told(alloc, m.items.as_slice())
}
