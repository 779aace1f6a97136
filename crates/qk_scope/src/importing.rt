//! The names that a module imports.

ghost use Rattle.std.specs.Prelude.{◌≡◌, [], ◌∷◌, ◌++◌, ◌&&◌, ◌||◌, not, OnOk};
ghost use Rattle.qk_ast.specs.Texts.{same_text};
ghost use Rattle.qk_ast.specs.Framework as framework;
ghost use Rattle.qk_ast.specs.Mentions as mentions;
ghost use Rattle.qk_ast.specs.Mentions.{imported_after, import_mentions};
ghost use Rattle.qk_scope.specs.Answering.{Answers, breaches};

use crate::ScopeFault;
use crate::declaring::refuse_if;
use crate::rules::Rules;
use crate::symbols::is_symbol;
use qk_ast::framework::{is_taken, may_import};
use qk_ast::{Form, Import, NameSet};
use qk_shared::Text;

/// The source of the framework.
const FRAMEWORK: &str = "@builder.io/qwik";

/// Whether the name is taken and is no name of the framework that is imported from there.
fn is_taken_from(form: Form, source: &Text, name: &Text) -> bool
    ensures { result ≡ (framework.is_taken name.now && not (same_text source.now framework.framework && framework.may_import form name.now)) }
{
    is_taken(name.as_str()) && !(source.as_str() == FRAMEWORK && may_import(form, name.as_str()))
}

/// Whether the root can't have an import of the name more: it is not new there, it is taken, or it spells a symbol.
fn is_refused(form: Form, source: &Text, is_new: bool, name: &Text) -> bool
    ensures { result ≡ ((not is_new || (framework.is_taken name.now && not (same_text source.now framework.framework && framework.may_import form name.now))) || framework.is_symbol name.now) }
{
    !is_new || is_taken_from(form, source, name) || is_symbol(name.as_str())
}

/// A name that is imported from this source, behind the earlier names of the root.
fn import_name<'a>(
    rules: &Rules<'a>,
    earlier: &mut NameSet<'a>,
    source: &Text,
    name: &'a Text,
) -> Result<(), ScopeFault>
    ensures rules { Answers (breaches rules.now (mentions.Imports name.now source.now earlier.old ∷ [])) result }
    ensures earlier { OnOk result (earlier.new ≡ earlier.old ++ name.now ∷ []) }
{
    let is_new = earlier.add(name.as_str())?;
    refuse_if(is_refused(rules.form, source, is_new, name), name)
}

/// These names of an import.
fn import_names<'a>(
    rules: &Rules<'a>,
    earlier: &mut NameSet<'a>,
    source: &Text,
    names: &'a [Text],
) -> Result<(), ScopeFault>
    ensures rules { Answers (breaches rules.now (imported_after source.now earlier.old names.now)) result }
    ensures earlier { OnOk result (earlier.new ≡ earlier.old ++ names.now) }
{
    for name in names {
        import_name(rules, earlier, source, name)?;
    }
    Ok(())
}

/// One import.
fn import_one<'a>(
    rules: &Rules<'a>,
    earlier: &mut NameSet<'a>,
    import: &'a Import,
) -> Result<(), ScopeFault>
    ensures rules { Answers (breaches rules.now (imported_after import.now.from earlier.old import.now.names)) result }
    ensures earlier { OnOk result (earlier.new ≡ earlier.old ++ import.now.names) }
{
    import_names(rules, earlier, &import.from, import.names.as_slice())
}

/// The imports of a module, one after another.
pub(crate) fn imports<'a>(
    rules: &Rules<'a>,
    earlier: &mut NameSet<'a>,
    imports: &'a [Import],
) -> Result<(), ScopeFault>
    ensures rules { Answers (breaches rules.now (import_mentions earlier.old imports.now)) result }
    ensures earlier { OnOk result (earlier.new ≡ earlier.old ++ mentions.import_names imports.now) }
{
    for import in imports {
        import_one(rules, earlier, import)?;
    }
    Ok(())
}
