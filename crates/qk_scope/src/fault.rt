//! Why the names of a module are refused.

ghost use Rattle.qk_scope.specs.Answering.{Blames};

use qk_ast::ScopeKind;
use qk_shared::Text;
use std::alloc::AllocError;

/// Why nothing is told of the names of a module.
#[derive(Drop)]
pub enum ScopeFault {
    /// The name breaks a rule of names: of all that do, the first in the order of the text.
    Refused { kind: ScopeKind, name: Text },
    /// Memory ran out.
    Memory,
}

impl From<AllocError> for ScopeFault {
    ghost use Rattle.std.specs.Prelude.{◌≡◌};
    ghost use Rattle.qk_scope.specs.declared.fault.ScopeFault.TheVariants.{Memory};

    ghost from_gives = { λ _ e. e ≡ Memory };

    fn from(_: AllocError) -> ScopeFault {
        ScopeFault::Memory
    }
}

/// The refusal of a name that breaks a rule.
#[tactic(auto, using(crate::proofs::Forms::step_parts, crate::proofs::Answered::fails), unfolding(crate::specs::Answering::Blames))]
pub(crate) fn refusal(kind: ScopeKind, name: &Text) -> ScopeFault
    ensures { Blames kind name.now result }
{
    match name.share() {
        Ok(name) => ScopeFault::Refused { kind, name },
        Err(_) => ScopeFault::Memory,
    }
}
