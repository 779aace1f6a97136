//! What a module is to code.

ghost use Rattle.std.specs.Prelude.{◌≡◌, ◌<◌, length, get_or, IfOk};
ghost use Rattle.qk_application.specs.Accepting.{names_of};
ghost use Rattle.qk_modules.specs.declared.modules.NamedModule.{NamedModule};
ghost use Rattle.qk_whole.specs.Filing.{IsFileOf};

use crate::arrows::arrows;
use crate::functions::Functions;
use crate::known::Known;
use crate::origins::origins;
use qk_ast::Origin;
use qk_code::Root;
use qk_modules::Modules;
use qk_scope::Names;
use std::alloc::{AllocError, Global};
use std::collections::BTreeMap;

/// The functions of a module, what the names of its items are, and the origins of its imported names.
#[derive(Drop)]
pub(crate) struct File {
    pub(crate) functions: Functions,
    pub(crate) roots: BTreeMap<String, Root>,
    pub(crate) origins: BTreeMap<String, Origin>,
}

impl File {
    /// Of the module at that place of the list, with its names.
    ///
    /// # Errors
    ///
    /// For want of memory, and as of `arrows` and `literal`.
    pub(crate) fn new(
        alloc: Global,
        modules: &Modules,
        at: usize,
        names: &Names,
    ) -> Result<File, AllocError>
        requires { at < length modules.now.list }
        ensures { IfOk result (λ file. (m : NamedModule) → m ≡ get_or modules.now.list at m → names.now ≡ names_of m → IsFileOf m file) }
    {
        let known = Known::new(alloc, modules, at, names)?;
        let items = modules.list.as_slice()[at].module.items.as_slice();
        let all = arrows(alloc, items)?;
        Ok(File {
            functions: known.functions(alloc, all.as_slice())?,
            roots: known.roots(alloc, items)?,
            origins: origins(alloc, known.imports.get().entries.as_slice())?,
        })
    }
}
