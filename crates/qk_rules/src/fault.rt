//! Why a module is refused.

use qk_ast::RuleKind;
use qk_shared::Text;
use std::alloc::{AllocError, AllocFailed};

/// Why a module isn't found to keep the rules of places.
#[derive(Drop)]
pub enum RuleFault {
    /// It breaks a rule; `name` is what breaks it.
    Refused { kind: RuleKind, name: Text },
    /// Memory ran out.
    Memory,
}

impl From<AllocError> for RuleFault {
    ghost use Rattle.std.specs.Prelude.{◌≡◌};
    ghost use Rattle.qk_rules.specs.declared.fault.RuleFault.TheVariants.{Memory};

    ghost from_gives = { λ _ e. e ≡ Memory };

    fn from(_: AllocError) -> RuleFault {
        RuleFault::Memory
    }
}
