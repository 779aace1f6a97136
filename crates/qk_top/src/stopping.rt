//! How a command ends for a fault of the application.

ghost use Rattle.std.specs.Prelude.{◌≡◌};
ghost use Rattle.qk_top.specs.Refusals.{StopsFor, RefusesRoot};

use crate::refusal::{Kind, Refusal, What};
use crate::stop::Stop;
use qk_application::ApplicationFault;
use qk_modules::{GatherFault, Place};
use qk_parse::ParseFault;
use qk_shared::Text;
use std::alloc::Global;

/// How the command ends for this fault.
pub(crate) fn stop_for(alloc: Global, fault: ApplicationFault) -> Stop
    ensures { StopsFor fault result }
{
    match fault {
        ApplicationFault::Gathering(fault) => stop_for_gathering(alloc, fault),
        ApplicationFault::Naming { module, kind, name } => {
            refused(Kind::Naming(kind), module, What::Name(name))
        }
        ApplicationFault::Placing { module, kind, name } => {
            refused(Kind::Placing(kind), module, What::Name(name))
        }
        ApplicationFault::Memory => Stop::Memory,
    }
}

fn stop_for_gathering(alloc: Global, fault: GatherFault) -> Stop
    ensures { StopsFor (ApplicationFault.Gathering fault) result }
{
    match fault {
        GatherFault::RootMissing => refused_root(alloc, Kind::RootMissing),
        GatherFault::ImportMissing { module, name } => {
            refused(Kind::ImportMissing, module, What::Name(name))
        }
        GatherFault::ExportMissing { module, name } => {
            refused(Kind::ExportMissing, module, What::Name(name))
        }
        GatherFault::NotUtf8 { module } => refused(Kind::NotUtf8, module, What::Nothing),
        GatherFault::Parse {
            module,
            fault,
            place,
        } => stop_for_text(module, fault, place),
        GatherFault::TooMany => refused_root(alloc, Kind::TooMany),
        GatherFault::Store => Stop::StoreFailed,
        GatherFault::Memory => Stop::Memory,
    }
}

fn stop_for_text(module: Text, fault: ParseFault, place: Place) -> Stop
    ensures { StopsFor (ApplicationFault.Gathering (GatherFault.Parse «module» fault place)) result }
{
    match fault {
        ParseFault::TooLong => refused(Kind::TooLong, module, What::At(place)),
        ParseFault::Lexical { .. } => refused(Kind::Lexical, module, What::At(place)),
        ParseFault::Syntax { .. } => refused(Kind::Syntax, module, What::At(place)),
        ParseFault::TooDeep { .. } => refused(Kind::TooDeep, module, What::At(place)),
        ParseFault::Memory => Stop::Memory,
    }
}

fn refused(kind: Kind, module: Text, what: What) -> Stop
    ensures { result ≡ Stop.Application (record { kind = kind; «module» = «module»; what = what }) }
{
    Stop::Application(Refusal { kind, module, what })
}

/// The refusal of the root, of which no more is said.
pub(crate) fn refused_root(alloc: Global, kind: Kind) -> Stop
    ensures { RefusesRoot kind result }
{
    match Text::from_str(alloc, "root") {
        Ok(module) => refused(kind, module, What::Nothing),
        Err(_) => Stop::Memory,
    }
}
