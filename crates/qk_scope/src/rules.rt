//! What the rules of names are about, beside the scopes around a place.

use qk_ast::{Form, NameSet};
use qk_shared::Text;
use std::alloc::Global;

/// The form and the name of the file, and the names of its root.
#[derive(Drop)]
pub(crate) struct Rules<'a> {
    pub(crate) alloc: Global,
    pub(crate) form: Form,
    pub(crate) file: &'a Text,
    pub(crate) roots: NameSet<'a>,
}
