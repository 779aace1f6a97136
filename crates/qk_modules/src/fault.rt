//! Why the modules of an application, or the imports of one, aren't told.

use crate::Place;
use qk_parse::ParseFault;
use qk_shared::Text;
use std::alloc::{AllocError, AllocFailed};

/// Why an application is refused while its modules are gathered.
#[derive(Drop)]
pub enum GatherFault {
    /// There is no `root.jsx`.
    RootMissing,
    /// The module imports from a source that is none, or whose file is missing; `name` is the source.
    ImportMissing {
        module: Text,
        name: Text,
    },
    /// The module imports a name that its source doesn't export; or `App` isn't exported by `root`.
    ExportMissing {
        module: Text,
        name: Text,
    },
    /// The module's file isn't UTF-8.
    NotUtf8 {
        module: Text,
    },
    /// The module's text derives none. The place of the fault is told by line and column; of a text that is too long it is the beginning.
    Parse {
        module: Text,
        fault: ParseFault,
        place: Place,
    },
    /// There is a 257th module.
    TooMany,
    /// The store failed.
    Store,
    /// Memory ran out.
    Memory,
}

impl From<AllocError> for GatherFault {
    ghost use Rattle.std.specs.Prelude.{◌≡◌};
    ghost use Rattle.qk_modules.specs.declared.fault.GatherFault.TheVariants.{Memory};

    ghost from_gives = { λ _ e. e ≡ Memory };

    fn from(_: AllocError) -> GatherFault {
        GatherFault::Memory
    }
}

/// Why the imports of a module aren't told.
#[derive(Clone, Copy, Debug, PartialEq, Eq)]
pub enum ModulesFault {
    /// Memory ran out.
    Memory,
}

impl From<AllocError> for ModulesFault {
    ghost use Rattle.std.specs.Prelude.{◌≡◌};
    ghost use Rattle.qk_modules.specs.declared.fault.ModulesFault.TheVariants.{Memory};

    ghost from_gives = { λ _ e. e ≡ Memory };

    fn from(_: AllocError) -> ModulesFault {
        ModulesFault::Memory
    }
}
