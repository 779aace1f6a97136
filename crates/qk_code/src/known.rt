//! What is known of the file in which a function stands.

ghost use Rattle.std.specs.Prelude.{◌≡◌, option_copied};
ghost use Rattle.qk_code.specs.Standing.{known_at, framework_in};

use crate::func::Func;
use qk_ast::{Imported, Origin};
use qk_captures::Captured;
use qk_shared::Text;

impl Func {
    /// The site and the captures of the arrow at a place of the file.
    pub fn known_at(&self, place: u32) -> &Captured
        ensures { result.now ≡ known_at self.now place }
    {
        match self.names.get().captures.get(place as usize) {
            Some(known) => known,
            None => self.elsewhere.get(),
        }
    }

    /// The name of the framework that a name of the file's root is; `None` exactly where it is none.
    pub fn framework_name(&self, name: &Text) -> Option<&Text>
        ensures { option_copied result ≡ framework_in self.now.imports.entries name.now }
    {
        framework_among(self.imports.get().entries.as_slice(), name)
    }
}

fn framework_among<'a>(entries: &'a [Imported], name: &Text) -> Option<&'a Text>
    ensures { option_copied result ≡ framework_in entries.now name.now }
{
    for entry in entries {
        if entry.name.is_same(name) {
            return match &entry.origin {
                Origin::Qwik(other) => Some(other),
                Origin::Module(_, _) => None,
            };
        }
    }
    None
}
