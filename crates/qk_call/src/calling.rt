//! The call of what is wanted, from the file to what is printed.

ghost use Rattle.std.specs.Prelude.{◌≡◌, Some, IfOk, IfErr};
ghost use Rattle.qk_code.specs.Modes.{mode_seen};
ghost use Rattle.qk_store.specs.Pieces.{IsPut};
ghost use Rattle.qk_call.specs.Calling.{PrintsCall, IsCalled, ComesOf};
ghost use Rattle.qk_call.specs.declared.stop.Stop.TheVariants.{NoArrow};

use crate::alone::application;
use crate::components::components;
use crate::played::Ending;
use crate::playing::play_named;
use crate::printing::played_text;
use crate::stop::Stop;
use crate::words::Wanted;
use qk_base::limits;
use qk_shared::Text;
use qk_store::{Found, Sink, SinkFault, Store, StoreFault};
use qk_whole::WholeCode;
use std::alloc::Global;

/// Calls the wanted arrow without arguments, prints what came of it, and tells how it came out.
pub(crate) fn call_wanted<S: Store, K: Sink>(
    alloc: Global,
    wanted: &Wanted<'_>,
    store: &mut S,
    out: &mut K,
) -> Result<Ending, Stop>
    ensures called { (told : _) → S.files store.old ≡ Some told → IfOk result (λ ending. PrintsCall told wanted.now.file.now wanted.now.«module».now wanted.now.name.now wanted.now.budget (mode_seen wanted.now.mode) ending (K.bytes out.old) (K.bytes out.new)) }
    ensures nothing { IfErr result (λ stop. stop ≡ NoArrow → K.bytes out.new ≡ K.bytes out.old) }
{
    match store.read(wanted.file, limits::MODULE_BYTES) {
        Ok(Found::Bytes(bytes)) => call_in(alloc, bytes.as_slice(), wanted, out),
        Ok(_) => Err(Stop::NoArrow),
        Err(StoreFault::Failed) => Err(Stop::StoreFailed),
        Err(StoreFault::Memory) => Err(Stop::Memory),
    }
}

/// Calls the wanted arrow of the module that a text derives.
fn call_in<K: Sink>(
    alloc: Global,
    source: &[u8],
    wanted: &Wanted<'_>,
    out: &mut K,
) -> Result<Ending, Stop>
    ensures called { IfOk result (λ ending. IsCalled source.now wanted.now.«module».now wanted.now.name.now wanted.now.budget (mode_seen wanted.now.mode) ending (K.bytes out.old) (K.bytes out.new)) }
    ensures nothing { IfErr result (λ stop. stop ≡ NoArrow → K.bytes out.new ≡ K.bytes out.old) }
{
    let printed = call_text(alloc, source, wanted)?;
    match out.put(printed.text.as_slice()) {
        Ok(()) => Ok(printed.ending),
        Err(SinkFault::Failed) => Err(Stop::SinkFailed),
        Err(SinkFault::Memory) => Err(Stop::Memory),
    }
}

/// What is printed of a call, and how it came out.
#[derive(Drop)]
struct Printed {
    text: Vec<u8>,
    ending: Ending,
}

/// What is printed of the call of the wanted arrow.
fn call_text(alloc: Global, source: &[u8], wanted: &Wanted<'_>) -> Result<Printed, Stop>
    ensures { IfOk result (λ printed. ComesOf source.now wanted.now.«module».now wanted.now.name.now wanted.now.budget (mode_seen wanted.now.mode) printed.ending printed.text.items) }
{
    let application = application(alloc, wanted.module, source)?;
    let modules = application.modules.list.share()?;
    let mut code = WholeCode::new(alloc, application)?;
    let file = Text::from_str(alloc, wanted.module)?;
    let name = Text::from_str(alloc, wanted.name)?;
    let played = play_named(alloc, &mut code, &file, &name, wanted.mode, wanted.budget)?;
    let components = components(alloc, &code, modules.as_slice())?;
    Ok(Printed {
        text: played_text(alloc, &played, components.as_slice())?,
        ending: played.came.ending(),
    })
}
