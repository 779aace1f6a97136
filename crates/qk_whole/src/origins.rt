//! Where the imported names of a module come from.

ghost use Rattle.std.specs.Prelude.{◌≡◌, IfOk};
ghost use Rattle.std.specs.BTreeMap.{get_by_text};
ghost use Rattle.qk_ast.specs.Texts as texts;
ghost use Rattle.qk_whole.specs.Origins.{origin_in};

use crate::firsts::put;
use qk_ast::{Imported, Origin};
use std::alloc::{AllocError, Global};
use std::collections::BTreeMap;

/// The origin of each imported name. Of imports of one name the first counts.
pub(crate) fn origins(
    alloc: Global,
    entries: &[Imported],
) -> Result<BTreeMap<String, Origin>, AllocError>
    ensures { IfOk result (λ table. (q : texts.Text) → get_by_text table q ≡ origin_in entries.now q) }
{
    let mut table = BTreeMap::new(alloc);
    for entry in entries {
        put(alloc, &mut table, &entry.name, shared(&entry.origin)?)?;
    }
    Ok(table)
}

/// The same origin once more.
fn shared(origin: &Origin) -> Result<Origin, AllocError>
    ensures { IfOk result (λ o. o ≡ origin.now) }
{
    match origin {
        Origin::Qwik(name) => Ok(Origin::Qwik(name.share()?)),
        Origin::Module(module, name) => Ok(Origin::Module(module.share()?, name.share()?)),
    }
}
