//! An arrow that a walk met.

ghost use Rattle.qk_code.specs.Shallow.{IsShallow};

use qk_ast::Arrow;
use qk_locals::Mark;
use qk_shared::Shared;

/// An arrow, with the mark of where it stands.
#[derive(Drop)]
pub(crate) struct Met {
    pub(crate) arrow: Shared<Arrow>,
    pub(crate) mark: Mark,
    pub ghost shallow: { IsShallow arrow },
}
