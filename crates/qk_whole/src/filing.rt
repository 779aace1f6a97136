//! The files of all modules.

ghost use Rattle.std.specs.Prelude.{◌≡◌, ◌<◌, ◌+◌, length, IfOk, OnOk};
ghost use Rattle.qk_whole.specs.Holding.{Holds_files};
ghost use Rattle.qk_whole.specs.Taking.{IsAccepted};

use crate::files::File;
use crate::firsts::put;
use qk_application::Application;
use std::alloc::{AllocError, Global};
use std::collections::BTreeMap;

/// What each module of an accepted application is to code, by its name.
///
/// # Errors
///
/// As of `File::new`.
pub(crate) fn all_files(
    alloc: Global,
    application: &Application,
) -> Result<BTreeMap<String, File>, AllocError>
    requires { IsAccepted application.now }
    ensures { IfOk result (λ files. Holds_files application.now.modules.list (length application.now.modules.list) files) }
{
    let mut files = BTreeMap::new(alloc);
    for at in 0..application.modules.list.len() {
        add(alloc, &mut files, application, at)?;
    }
    Ok(files)
}

/// With the module at that place. Of modules with one name the first counts.
fn add(
    alloc: Global,
    files: &mut BTreeMap<String, File>,
    application: &Application,
    at: usize,
) -> Result<(), AllocError>
    requires accepted { IsAccepted application.now }
    requires within { at < length application.now.modules.list }
    ensures { OnOk result (Holds_files application.now.modules.list at files.old → Holds_files application.now.modules.list (at + 1) files.new) }
{
    let names = &application.names.as_slice()[at];
    let file = File::new(alloc, &application.modules, at, names)?;
    put(
        alloc,
        files,
        &application.modules.list.as_slice()[at].name,
        file,
    )
}
