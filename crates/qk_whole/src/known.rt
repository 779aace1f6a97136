//! What is known of a module, for all of its functions.

ghost use Rattle.std.specs.Prelude.{◌≡◌, ◌<◌, List, [], None, length, get_or, IfOk};
ghost use Rattle.std.specs.Option.{option_copied};
ghost use Rattle.qk_ast.specs.Arrows.{Found_arrow};
ghost use Rattle.qk_captures.specs.Capturing.{captured_after};
ghost use Rattle.qk_application.specs.Accepting.{names_of};
ghost use Rattle.qk_modules.specs.declared.modules.NamedModule.{NamedModule};
ghost use Rattle.qk_whole.specs.Elsewhere.{elsewhere_of, last_plain};
ghost use Rattle.qk_whole.specs.Telling.{Tells, site_at};

use qk_ast::{ImportTable, Site};
use qk_captures::Captured;
use qk_code::CodeFault;
use qk_modules::{Modules, imports};
use qk_scope::Names;
use qk_shared::{List, Shared, Text};
use std::alloc::{AllocError, Global};

/// The name of a module, what is known of its arrows, and its imported names.
#[derive(Drop)]
pub(crate) struct Known {
    pub(crate) file: Text,
    pub(crate) names: Shared<Names>,
    pub(crate) elsewhere: Shared<Captured>,
    pub(crate) imports: Shared<ImportTable>,
}

impl Known {
    /// Of the module at that place of the list, with its names. None of it is copied.
    ///
    /// # Errors
    ///
    /// For want of memory.
    pub(crate) fn new(
        alloc: Global,
        modules: &Modules,
        at: usize,
        names: &Names,
    ) -> Result<Known, AllocError>
        requires { at < length modules.now.list }
        ensures { IfOk result (λ known. (m : NamedModule) → m ≡ get_or modules.now.list at m → names.now ≡ names_of m → Tells known m) }
    {
        let file = modules.list.as_slice()[at].name.share()?;
        let Ok(table) = imports(alloc, modules, at) else {
            return Err(AllocError);
        };
        let elsewhere = elsewhere(alloc, &file, names.captures.as_slice())?;
        let names = Names {
            captures: names.captures.share()?,
        };
        Ok(Known {
            file,
            names: Shared::new(alloc, names)?,
            elsewhere: Shared::new(alloc, elsewhere)?,
            imports: Shared::new(alloc, table)?,
        })
    }

    /// The site of the arrow at a place.
    pub(crate) fn site_at(&self, place: u32) -> &Site
        ensures { result.now ≡ site_at self.now place }
    {
        match self.names.get().captures.get(place as usize) {
            Some(known) => &known.site,
            None => &self.elsewhere.get().site,
        }
    }
}

/// What stands for an arrow at a place that the module doesn't have.
fn elsewhere(alloc: Global, file: &Text, captures: &[Captured]) -> Result<Captured, AllocError>
    ensures { IfOk result (λ c. (all : List Found_arrow) → captures.now ≡ captured_after file.now [] all → c ≡ elsewhere_of file.now all) }
{
    let module = file.share()?;
    match last_plain(captures) {
        Some(last) => Ok(Captured {
            site: Site {
                module,
                number: last.site.number,
                dollar: false,
            },
            names: last.names.share()?,
        }),
        None => Ok(Captured {
            site: Site {
                module,
                number: 0,
                dollar: false,
            },
            names: List::from_vec(alloc, Vec::new(alloc))?,
        }),
    }
}

/// The last of the plain arrows.
fn last_plain(captures: &[Captured]) -> Option<&Captured>
    ensures { option_copied result ≡ last_plain None captures.now }
{
    let mut last = None;
    for captured in captures {
        if !captured.site.dollar {
            last = Some(captured);
        }
    }
    last
}
