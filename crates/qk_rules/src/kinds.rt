//! What the roots of an application's modules have under their names.

ghost use Rattle.std.specs.Prelude.{◌≡◌, ℕ, List, [], ◌∷◌, ◌++◌, OnOk, OnErr, IfErr, IfOk};
ghost use Rattle.qk_ast.specs.Sources as sources;
ghost use Rattle.qk_ast.specs.Placing.{imported_kind, root_kind};
ghost use Rattle.qk_rules.specs.declared.fault.RuleFault.TheVariants.{Memory};
ghost use Rattle.qk_rules.specs.Root_table.{kind_at, kind_by, kind_from, earlier_of, import_kinds};

use crate::RuleFault;
use crate::roots::Roots;
use qk_ast::{Import, Module};
use qk_shared::Text;
use std::alloc::{AllocError, Global};
use std::collections::BTreeMap;
use std::marker::Model;

/// The source of the framework.
const FRAMEWORK: &str = "@builder.io/qwik";

/// Modules by their names, and what the roots of these have under theirs. Contracts see them as the list of the modules in the order in which
/// they were added. Of modules with one name the first counts.
///
/// Beside the list stands a table for each name, so that a name is looked up in few steps. The tables are ordered, so that no choice of names makes
/// them slow. Texts aren't copied.
#[derive(Drop)]
pub struct Kinds<'a> {
    alloc: Global,
    modules: Vec<(&'a Text, &'a Module)>,
    tables: BTreeMap<&'a [u8], Roots<'a>>,
}

impl<'a> Model for Kinds<'a> {
    ghost use Rattle.std.specs.Prelude.{List};
    ghost use Rattle.qk_ast.specs.Sources.{Named_module};
    ghost use Rattle.qk_rules.specs.Tables.{named_of, HoldsKinds};
    ghost use Rattle.qk_ast.specs.contracts.Expr as e;
    ghost use Rattle.std.specs.Coded.{codes};

    ghost Value = { List Named_module };

    ghost coded = { Prim.hlevel (codes, e.the_row.coded) };

    ghost view = { λ k. named_of k.modules.items };

    ghost invariant = { λ k. HoldsKinds k.tables (named_of k.modules.items) };
}

impl<'a> Kinds<'a> {
    /// No modules yet. It takes no memory.
    pub fn new(alloc: Global) -> Kinds<'a>
        ensures { result ≡ [] }
    {
        Kinds {
            alloc,
            modules: Vec::new(alloc),
            tables: BTreeMap::new(alloc),
        }
    }

    /// Adds a module.
    ///
    /// # Errors
    ///
    /// `Memory` for want of memory. The modules are then as they were.
    pub fn add(&mut self, name: &'a Text, m: &'a Module) -> Result<(), RuleFault>
        ensures added { OnOk result (self.new ≡ self.old ++ (name.now, m.now) ∷ []) }
        ensures want { IfErr result (λ fault. fault ≡ Memory) }
        ensures kept { OnErr result (self.new ≡ self.old) }
    {
        match self.put(name, m) {
            Ok(()) => Ok(()),
            Err(_) => Err(RuleFault::Memory),
        }
    }

    fn put(&mut self, name: &'a Text, m: &'a Module) -> Result<(), AllocError>
        ensures added { OnOk result (self.new ≡ self.old ++ (name.now, m.now) ∷ []) }
        ensures kept { OnErr result (self.new ≡ self.old) }
    {
        let key = name.as_str().as_bytes();
        if self.tables.contains_key(key) {
            self.modules.push((name, m))?;
            return Ok(());
        }
        let mut table = Roots::new(self.alloc);
        table.add_items(m.items.as_slice())?;
        let before = self.modules.len();
        self.modules.push((name, m))?;
        match self.tables.insert(key, table) {
            Ok(_) => Ok(()),
            Err(_) => {
                self.modules.truncate(before);
                Err(AllocError)
            }
        }
    }

    /// The table of the module that the source names, if there is one.
    fn table_of(&self, source: &str) -> Option<&Roots<'a>>
        ensures { (q : List ℕ) → kind_from result q ≡ imported_kind self.now source.now q }
    {
        if source == FRAMEWORK {
            return None;
        }
        self.tables.get(source_module(source.as_bytes()))
    }

    /// Gives the imported names their kinds.
    fn add_imports<'m>(
        &self,
        roots: &mut Roots<'m>,
        imports: &'m [Import],
    ) -> Result<(), AllocError>
        ensures { OnOk result ((q : List ℕ) → kind_at roots.new q ≡ earlier_of (kind_at roots.old q) (import_kinds self.now imports.now q)) }
    {
        for import in imports {
            let table = self.table_of(import.from.as_str());
            roots.add_names(import.names.as_slice(), table)?;
        }
        Ok(())
    }

    /// What the root of a module has under its names.
    pub(crate) fn roots_of<'m>(&self, alloc: Global, m: &'m Module) -> Result<Roots<'m>, AllocError>
        ensures { IfOk result (λ roots. (q : List ℕ) → kind_by roots q ≡ root_kind self.now m.now q) }
    {
        let mut roots = Roots::new(alloc);
        self.add_imports(&mut roots, m.imports.as_slice())?;
        roots.add_items(m.items.as_slice())?;
        Ok(roots)
    }
}

/// The name of the module that a source names: what stands behind its first two bytes, up to a point.
fn source_module(source: &[u8]) -> &[u8]
    ensures { result.now ≡ sources.source_module source.now }
{
    match source {
        [_, _, rest @ ..] => up_to_dot(rest),
        _ => &[],
    }
}

fn up_to_dot(bytes: &[u8]) -> &[u8]
    ensures { result.now ≡ sources.up_to_dot bytes.now }
{
    for at in 0..bytes.len() {
        if bytes[at] == b'.' {
            return &bytes[..at];
        }
    }
    bytes
}
