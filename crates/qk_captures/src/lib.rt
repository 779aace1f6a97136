//! The sites of a module's arrows, and what each arrow captures.
#![tactic(auto)]

ghost use Rattle.std.specs.Prelude.{◌≡◌, IfOk};
ghost use Rattle.qk_captures.specs.Capturing.{captured_in};

mod scope;
mod walk;

use qk_ast::{Form, Module, Site};
use qk_shared::{List, Text};
use std::alloc::{AllocError, Global};
use walk::Walk;

/// An arrow's site, and the names that it captures: its free names that mean a local around it, each once, in the order of their first uses.
#[derive(Drop)]
pub struct Captured {
    pub site: Site,
    pub names: List<Text>,
}

/// The arrows of a module or built file of that name, in text order, so that an arrow's entry stands at its place.
///
/// In a built file the names of the `useLexicalScope` with which an item's arrow begins are locals around that arrow.
///
/// # Errors
///
/// For want of memory. So is refused, too, a tree of 2 ^ 32 arrows of one kind; no text has that many.
pub fn captures(
    alloc: Global,
    file: &Text,
    m: &Module,
    form: Form,
) -> Result<List<Captured>, AllocError>
    ensures { IfOk result (λ all. all ≡ captured_in form file.now m.now) }
{
    let mut walk = Walk::new(alloc, file);
    walk.items(m.items.as_slice(), form)?;
    walk.into_found()
}
