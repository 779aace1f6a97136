#![tactic(auto, using(crate::proofs::Found::of_file))]

ghost use Rattle.std.specs.Prelude.{◌≡◌, Some, OnOk};
ghost use Rattle.qk_print.specs.Printing.{print_text};
ghost use Rattle.qk_store.specs.Pieces.{IsPut};
ghost use Rattle.qk_reprint.specs.Reprinting.{Reprints, IsPrinted};

use qk_ast::{Form, Module};
use qk_base::limits;
use qk_parse::{ParseFault, parse_module};
use qk_print::print_module;
use qk_store::{Found, Sink, SinkFault, Store, StoreFault};
use std::alloc::Global;
use std::str::from_utf8;

/// Why a file isn't printed.
#[derive(Clone, Copy, Debug, PartialEq, Eq)]
pub(crate) enum Stop {
    /// There is no file of that name, or it derives no module.
    NoModule,
    StoreFailed,
    SinkFailed,
    /// Memory ran out.
    Memory,
}

impl Stop {
    /// The status with which the program ends.
    pub(crate) fn status(self) -> u8 {
        match self {
            Stop::NoModule => 2,
            Stop::StoreFailed => 6,
            Stop::SinkFailed => 7,
            Stop::Memory => 8,
        }
    }
}

/// Prints the module that the file of this name derives.
pub(crate) fn reprint<S: Store, K: Sink>(
    alloc: Global,
    name: &str,
    store: &mut S,
    out: &mut K,
) -> Result<(), Stop>
    ensures { (told : _) → S.files store.old ≡ Some told → OnOk result (Reprints told name.now (K.bytes out.old) (K.bytes out.new)) }
{
    match store.read(name, limits::MODULE_BYTES) {
        Ok(Found::Bytes(bytes)) => reprint_source(alloc, bytes.as_slice(), out),
        Ok(_) => Err(Stop::NoModule),
        Err(StoreFault::Failed) => Err(Stop::StoreFailed),
        Err(StoreFault::Memory) => Err(Stop::Memory),
    }
}

/// Prints the module that the source derives.
fn reprint_source<K: Sink>(alloc: Global, source: &[u8], out: &mut K) -> Result<(), Stop>
    ensures { OnOk result (IsPrinted source.now (K.bytes out.old) (K.bytes out.new)) }
{
    let Ok(text) = from_utf8(source) else {
        return Err(Stop::NoModule);
    };
    match parse_module(alloc, text, Form::Source) {
        Ok(module) => print(alloc, &module, out),
        Err(ParseFault::Memory) => Err(Stop::Memory),
        Err(_) => Err(Stop::NoModule),
    }
}

/// Prints the module.
fn print<K: Sink>(alloc: Global, m: &Module, out: &mut K) -> Result<(), Stop>
    ensures { OnOk result (IsPut (print_text m.now) (K.bytes out.old) (K.bytes out.new)) }
{
    let mut text = Vec::new(alloc);
    if print_module(m, &mut text).is_err() {
        return Err(Stop::Memory);
    }
    match out.put(text.as_slice()) {
        Ok(()) => Ok(()),
        Err(SinkFault::Failed) => Err(Stop::SinkFailed),
        Err(SinkFault::Memory) => Err(Stop::Memory),
    }
}
