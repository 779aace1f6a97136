//! The list of the sources of modules, each once.

ghost use Rattle.std.specs.Prelude.{◌≡◌, [], ◌∷◌, IfOk, length, slice_get};
ghost use Rattle.std.specs.Option.{option_copied};
ghost use Rattle.qk_modules.specs.Listing.{with_source, with_import, with_imports};
ghost use Rattle.qk_ast.specs.Names.{is_listed};

use crate::names::FRAMEWORK;
use qk_ast::Import;
use qk_shared::{Builder, Text};
use std::alloc::{AllocError, Global};
use std::collections::BTreeSet;
use std::marker::Model;

/// Sources in the order in which they came, each once. Contracts see them as a list. Beside them stands a set of them, so that one is looked up
/// in few steps.
#[derive(Drop)]
pub(crate) struct Listing {
    sources: Builder<Text>,
    known: BTreeSet<String>,
}

impl Model for Listing {
    ghost use Rattle.std.specs.Prelude.{List, ℕ};
    ghost use Rattle.std.specs.Coded.{coded_list, coded_ℕ};
    ghost use Rattle.qk_modules.specs.Known.{HasTexts};

    ghost Value = { List (List ℕ) };

    ghost coded = { coded_list (coded_list coded_ℕ) };

    ghost view = { λ l. l.sources };

    ghost invariant = { λ l. HasTexts l.known l.sources };
}

impl Listing {
    /// No sources yet. It takes no memory.
    pub(crate) fn new(alloc: Global) -> Listing
        ensures { result ≡ [] }
    {
        Listing {
            sources: Builder::new(alloc),
            known: BTreeSet::new(alloc),
        }
    }

    /// The source at a place counted from 0.
    pub(crate) fn get(&self, at: usize) -> Option<&Text>
        ensures { option_copied result ≡ slice_get self.now at }
    {
        self.sources.get(at)
    }

    /// Whether the source is one of them.
    fn has(&self, source: &Text) -> bool
        ensures { result ≡ is_listed source.now self.now }
    {
        self.known.contains(source.as_str())
    }

    /// The list with a source more, which goes last where it is new.
    pub(crate) fn with(self, alloc: Global, source: &Text) -> Result<Listing, AllocError>
        ensures { IfOk result (λ all. all ≡ with_source self source.now) }
    {
        if self.has(source) {
            return Ok(self);
        }
        let Listing {
            mut sources,
            mut known,
        } = self;
        known.insert(String::from_str(alloc, source.as_str())?)?;
        sources.push(source.share()?)?;
        Ok(Listing { sources, known })
    }

    /// The list with the sources of these imports, where they aren't the framework's.
    pub(crate) fn with_imports(
        self,
        alloc: Global,
        imports: &[Import],
    ) -> Result<Listing, AllocError>
        ensures { IfOk result (λ all. all ≡ with_imports self imports.now) }
    {
        let mut all = self;
        for import in imports {
            all = all.with_import(alloc, import)?;
        }
        Ok(all)
    }

    /// The list with the source of this import, where it isn't the framework's.
    fn with_import(self, alloc: Global, import: &Import) -> Result<Listing, AllocError>
        ensures { IfOk result (λ all. all ≡ with_import self import.now) }
    {
        if import.from.as_str() == FRAMEWORK {
            Ok(self)
        } else {
            self.with(alloc, &import.from)
        }
    }
}
