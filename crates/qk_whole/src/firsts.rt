//! Tables in which what was put first under a name stays.

ghost use Rattle.std.specs.Prelude.{◌≡◌, OnOk};
ghost use Rattle.std.specs.BTreeMap.{get_by_text};
ghost use Rattle.qk_ast.specs.Texts as texts;
ghost use Rattle.qk_whole.specs.Firsts.{earlier, one_named};

use qk_shared::Text;
use std::alloc::{AllocError, Global};
use std::collections::BTreeMap;

/// Puts this under the name, unless something stands there.
pub(crate) fn put<T: Drop>(
    alloc: Global,
    table: &mut BTreeMap<String, T>,
    name: &Text,
    value: T,
) -> Result<(), AllocError>
    ensures { OnOk result ((q : texts.Text) → get_by_text table.new q ≡ earlier (get_by_text table.old q) (one_named name.now value q)) }
{
    if !table.contains_key(name.as_str()) {
        table.insert(String::from_str(alloc, name.as_str())?, value)?;
    }
    Ok(())
}
