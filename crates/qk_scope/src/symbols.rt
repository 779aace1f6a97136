//! Names that spell the symbol of a site.

ghost use Rattle.std.specs.Prelude.{◌≡◌};
ghost use Rattle.qk_ast.specs.Framework as framework;
ghost use Rattle.qk_ast.specs.Naming as naming;

use qk_ast::Form;
use qk_shared::Text;
use qk_sites::read_symbol;

/// Whether the name spells a symbol.
pub(crate) fn is_symbol(name: &str) -> bool
    ensures { result ≡ framework.is_symbol name.now }
{
    read_symbol(name).is_some()
}

/// Whether the file is a segment: a built file that is named by a symbol, as its one item is.
pub(crate) fn is_segment(form: Form, file: &Text) -> bool
    ensures { result ≡ naming.is_segment form file.now }
{
    match form {
        Form::Source => false,
        Form::Built => is_symbol(file.as_str()),
    }
}
