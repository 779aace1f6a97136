//! The free names of an arrow.

ghost use Rattle.std.specs.Prelude.{◌≡◌, [], IfOk};
ghost use Rattle.qk_ast.specs.Names.{each_once};
ghost use Rattle.qk_ast.specs.Uses.{free_names};

use crate::Arrow;
use crate::walk::Walk;
use qk_shared::{List, Text};
use std::alloc::{AllocError, Global};

/// Why nothing is found out about a tree.
#[derive(Clone, Copy, Debug, PartialEq, Eq)]
pub enum AstFault {
    /// Memory ran out.
    Memory,
}

/// The names that an arrow uses and doesn't declare, each once, in the order of their first uses.
///
/// # Errors
///
/// `Memory` for want of memory.
pub fn free(alloc: Global, arrow: &Arrow) -> Result<List<Text>, AstFault>
    ensures { IfOk result (λ names. names ≡ each_once [] (free_names arrow.now.params arrow.now.body)) }
{
    match found(alloc, arrow) {
        Ok(names) => Ok(names),
        Err(_) => Err(AstFault::Memory),
    }
}

fn found(alloc: Global, arrow: &Arrow) -> Result<List<Text>, AllocError>
    ensures { IfOk result (λ names. names ≡ each_once [] (free_names arrow.now.params arrow.now.body)) }
{
    let mut walk = Walk::new(alloc);
    walk.arrow(arrow)?;
    walk.into_found(alloc)
}
