//! Which rule a use of a name breaks.

ghost use Rattle.std.specs.Prelude.{◌≡◌, List};
ghost use Rattle.qk_ast.specs.Texts.{Text};
ghost use Rattle.qk_ast.specs.Naming.{local_breaches, root_breaches};
ghost use Rattle.qk_locals.specs.Meanings.{local_of};
ghost use Rattle.qk_scope.specs.Answering.{first_of, breach_by};

use qk_ast::ScopeKind;
use qk_locals::{Kind, Local};

/// The first rule that a use breaks of a name that means this local.
pub(crate) fn breach_of_local(local: Local, assigned: bool) -> Option<ScopeKind>
    ensures { (name : Text) → first_of (local_breaches name assigned (local_of local)) ≡ breach_by name result }
{
    let is_variable = matches!(local.kind, Kind::Variable);
    if is_variable && local.in_arrow {
        return Some(ScopeKind::LetCaptured);
    }
    if assigned && !is_variable {
        return Some(ScopeKind::ConstAssigned);
    }
    if !local.ended {
        return Some(ScopeKind::EarlyUse);
    }
    None
}

/// The first rule that a use breaks of a name that means no local; it is known where it means a name of the root.
pub(crate) fn breach_of_root(known: bool, assigned: bool) -> Option<ScopeKind>
    ensures { (name : Text) → first_of (root_breaches name assigned known) ≡ breach_by name result }
{
    if !known {
        return Some(ScopeKind::UnknownName);
    }
    if assigned {
        return Some(ScopeKind::ConstAssigned);
    }
    None
}
