//! Names that are declared one after another.

ghost use Rattle.std.specs.Prelude.{◌≡◌, List, [], ◌∷◌, ◌++◌, ◌||◌, not, OnOk};
ghost use Rattle.qk_ast.specs.declared.ScopeKind.TheVariants.{DuplicateName};
ghost use Rattle.qk_ast.specs.Framework as framework;
ghost use Rattle.qk_ast.specs.Names.{is_listed, pattern_names, patterns_names};
ghost use Rattle.qk_ast.specs.Naming.{breach_if};
ghost use Rattle.qk_locals.specs.Layers.{own};
ghost use Rattle.qk_scope.specs.Answering.{Answers, declared_breaches};

use crate::ScopeFault;
use crate::fault::refusal;
use qk_ast::framework::is_taken;
use qk_ast::{NameSet, Pattern, ScopeKind};
use qk_locals::Scopes;
use qk_shared::Text;

/// Refuses the name as declared before or taken, if it is.
pub(crate) fn refuse_if(is_refused: bool, name: &Text) -> Result<(), ScopeFault>
    ensures { Answers (breach_if is_refused DuplicateName name.now) result }
{
    if is_refused {
        return Err(refusal(ScopeKind::DuplicateName, name));
    }
    Ok(())
}

/// Whether a scope can't have a declaration of the name more: its declaration has ended there, or it is not new, or it is taken.
pub(crate) fn is_refused(scopes: &Scopes, is_new: bool, name: &Text) -> bool
    ensures { result ≡ ((is_listed name.now (own scopes.now).ended || not is_new) || framework.is_taken name.now) }
{
    scopes.has_ended(name.as_str()) || !is_new || is_taken(name.as_str())
}

/// A name of a statement or of parameters, behind the earlier names there and behind those of the innermost scope.
fn declare<'a>(
    scopes: &Scopes<'a>,
    earlier: &mut NameSet<'a>,
    name: &'a Text,
) -> Result<(), ScopeFault>
    ensures rules { Answers (declared_breaches ((own scopes.now).ended ++ earlier.old) (name.now ∷ [])) result }
    ensures earlier { OnOk result (earlier.new ≡ earlier.old ++ name.now ∷ []) }
{
    let is_new = earlier.add(name.as_str())?;
    refuse_if(is_refused(scopes, is_new, name), name)
}

/// Names, one after another.
fn declare_all<'a>(
    scopes: &Scopes<'a>,
    earlier: &mut NameSet<'a>,
    names: &'a [Text],
) -> Result<(), ScopeFault>
    ensures rules { Answers (declared_breaches ((own scopes.now).ended ++ earlier.old) names.now) result }
    ensures earlier { OnOk result (earlier.new ≡ earlier.old ++ names.now) }
{
    for name in names {
        declare(scopes, earlier, name)?;
    }
    Ok(())
}

/// The names of a pattern.
pub(crate) fn declare_pattern<'a>(
    scopes: &Scopes<'a>,
    earlier: &mut NameSet<'a>,
    pattern: &'a Pattern,
) -> Result<(), ScopeFault>
    ensures rules { Answers (declared_breaches ((own scopes.now).ended ++ earlier.old) (pattern_names pattern.now)) result }
    ensures earlier { OnOk result (earlier.new ≡ earlier.old ++ pattern_names pattern.now) }
{
    match pattern {
        Pattern::Name(name) => declare(scopes, earlier, name),
        Pattern::Fields(names) => declare_all(scopes, earlier, names.as_slice()),
        Pattern::Scope(names) => declare_all(scopes, earlier, names.as_slice()),
    }
}

/// The names of patterns, one after another.
pub(crate) fn declare_patterns<'a>(
    scopes: &Scopes<'a>,
    earlier: &mut NameSet<'a>,
    patterns: &'a [Pattern],
) -> Result<(), ScopeFault>
    ensures rules { Answers (declared_breaches ((own scopes.now).ended ++ earlier.old) (patterns_names patterns.now)) result }
    ensures earlier { OnOk result (earlier.new ≡ earlier.old ++ patterns_names patterns.now) }
{
    for pattern in patterns {
        declare_pattern(scopes, earlier, pattern)?;
    }
    Ok(())
}
