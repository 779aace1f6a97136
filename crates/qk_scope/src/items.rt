//! The items of a module: the name of each, and its value.

ghost use Rattle.std.specs.Prelude.{◌≡◌, [], ◌∷◌, ◌++◌, ◌&&◌, ◌||◌, not, OnOk};
ghost use Rattle.qk_ast.specs.Texts.{same_text};
ghost use Rattle.qk_ast.specs.Framework as framework;
ghost use Rattle.qk_ast.specs.Mentions as mentions;
ghost use Rattle.qk_ast.specs.Naming as naming;
ghost use Rattle.qk_scope.specs.Answering.{Answers, breaches};

use crate::ScopeFault;
use crate::declaring::refuse_if;
use crate::rules::Rules;
use crate::symbols::{is_segment, is_symbol};
use qk_ast::framework::is_taken;
use qk_ast::{Form, NameSet};
use qk_shared::Text;

/// Whether the name spells a symbol and isn't that of a segment's own item.
fn is_symbol_elsewhere(form: Form, file: &Text, name: &Text) -> bool
    ensures { result ≡ (framework.is_symbol name.now && not (naming.is_segment form file.now && same_text name.now file.now)) }
{
    is_symbol(name.as_str()) && !(is_segment(form, file) && name.is_same(file))
}

/// Whether the root can't have an item of the name more: it is not new there, it is taken, or it spells a symbol elsewhere.
fn is_refused(form: Form, file: &Text, is_new: bool, name: &Text) -> bool
    ensures { result ≡ ((not is_new || framework.is_taken name.now) || (framework.is_symbol name.now && not (naming.is_segment form file.now && same_text name.now file.now))) }
{
    !is_new || is_taken(name.as_str()) || is_symbol_elsewhere(form, file, name)
}

/// The name of an item, behind the earlier names of the root.
pub(crate) fn item_name<'a>(
    rules: &Rules<'a>,
    earlier: &mut NameSet<'a>,
    name: &'a Text,
) -> Result<(), ScopeFault>
    ensures rules { Answers (breaches rules.now (mentions.Roots name.now earlier.old ∷ [])) result }
    ensures earlier { OnOk result (earlier.new ≡ earlier.old ++ name.now ∷ []) }
{
    let is_new = earlier.add(name.as_str())?;
    refuse_if(is_refused(rules.form, rules.file, is_new, name), name)
}
