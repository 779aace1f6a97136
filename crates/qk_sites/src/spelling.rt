//! From a site to its symbol.

ghost use Rattle.std.specs.Prelude.{◌≡◌, ◌<◌, ◌++◌, string_bytes, codes, IfOk, IsTrue};
ghost use Rattle.qk_ast.specs.Framework.{is_module_name};
ghost use Rattle.qk_sites.specs.Symbols.{IsSymbolOf, symbol_text};

use qk_shared::Text;
use std::alloc::{AllocError, Global};

/// Why a symbol isn't spelled.
#[derive(Clone, Copy, Debug, PartialEq, Eq)]
pub enum SitesFault {
    /// Memory ran out.
    Memory,
}

/// The symbol of the dollar site with that number in the module of that name: `a_s1` is the first one of `a`.
///
/// # Errors
///
/// `Memory` for want of memory.
pub fn symbol(alloc: Global, name: &str, number: u32) -> Result<Text, SitesFault>
    requires named { IsTrue (is_module_name name.now) }
    requires first { 0 < number }
    ensures { IfOk result (IsSymbolOf name.now number) }
{
    match spelled(alloc, name, number) {
        Ok(text) => Ok(text),
        Err(_) => Err(SitesFault::Memory),
    }
}

fn spelled(alloc: Global, name: &str, number: u32) -> Result<Text, AllocError>
    ensures { IfOk result (λ text. text ≡ symbol_text name.now number) }
{
    let mut buffer = itoa::Buffer::new();
    let mut text = String::from_str(alloc, name)?;
    text.push_str("_s")?;
    text.push_str(buffer.format(number))?;
    Text::from_string(alloc, text)
}
