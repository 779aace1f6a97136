//! Why an application isn't accepted.

use qk_ast::{RuleKind, ScopeKind};
use qk_modules::GatherFault;
use qk_shared::Text;
use std::alloc::{AllocError, AllocFailed};

/// Why an application isn't accepted.
#[derive(Drop)]
pub enum ApplicationFault {
    /// Its modules aren't gathered, and not for want of memory.
    Gathering(GatherFault),
    /// The module breaks a rule of names; `name` is the name that does.
    Naming {
        module: Text,
        kind: ScopeKind,
        name: Text,
    },
    /// The module breaks a rule of places; `name` is what does.
    Placing {
        module: Text,
        kind: RuleKind,
        name: Text,
    },
    /// Memory ran out.
    Memory,
}

impl From<GatherFault> for ApplicationFault {
    ghost use Rattle.std.specs.Prelude.{◌≡◌};
    ghost use Rattle.qk_application.specs.Accepting.{fault_of};

    ghost from_gives = { λ fault e. e ≡ fault_of fault };

    fn from(fault: GatherFault) -> ApplicationFault {
        match fault {
            GatherFault::Memory => ApplicationFault::Memory,
            fault => ApplicationFault::Gathering(fault),
        }
    }
}

impl From<AllocError> for ApplicationFault {
    ghost use Rattle.std.specs.Prelude.{◌≡◌};
    ghost use Rattle.qk_application.specs.declared.fault.ApplicationFault.TheVariants.{Memory};

    ghost from_gives = { λ _ e. e ≡ Memory };

    fn from(_: AllocError) -> ApplicationFault {
        ApplicationFault::Memory
    }
}

impl<T: Drop> From<AllocFailed<T>> for ApplicationFault {
    ghost use Rattle.std.specs.Prelude.{◌≡◌};
    ghost use Rattle.qk_application.specs.declared.fault.ApplicationFault.TheVariants.{Memory};

    ghost from_gives = { λ _ e. e ≡ Memory };

    fn from(_: AllocFailed<T>) -> ApplicationFault {
        ApplicationFault::Memory
    }
}
