//! What the root of one module has under its names.
#![tactic(auto, unfolding(crate::specs::Root_table::kind_at))]

ghost use Rattle.std.specs.Prelude.{◌≡◌, ℕ, List, None, OnOk, IfOk};
ghost use Rattle.qk_rules.specs.Kinds_of_root.{root_kind_of};
ghost use Rattle.qk_rules.specs.Root_table.{kind_at, kind_by, kind_from, earlier_of, one_kind, item_kinds, name_kinds};

use crate::items::{RootKind, kind_of_value};
use qk_ast::Item;
use qk_shared::Text;
use std::alloc::{AllocError, Global};
use std::collections::BTreeMap;

/// Names with their kinds. The first kind that a name is given counts. The table is ordered, so that no choice of names makes it slow.
#[derive(Drop)]
pub(crate) struct Roots<'a> {
    kinds: BTreeMap<&'a str, RootKind>,
}

impl<'a> Roots<'a> {
    /// No names yet. It takes no memory.
    pub(crate) fn new(alloc: Global) -> Roots<'a>
        ensures { (q : List ℕ) → kind_at result q ≡ None }
    {
        Roots {
            kinds: BTreeMap::new(alloc),
        }
    }

    /// The kind of a name; of one that isn't there too.
    pub(crate) fn kind(&self, name: &str) -> RootKind
        ensures { root_kind_of result ≡ kind_by self.now name.now }
    {
        match self.kinds.get(name) {
            Some(kind) => *kind,
            None => RootKind::Other,
        }
    }

    /// Gives the name this kind, unless it has one.
    fn add(&mut self, name: &'a str, kind: RootKind) -> Result<(), AllocError>
        ensures { OnOk result ((q : List ℕ) → kind_at self.new q ≡ earlier_of (kind_at self.old q) (one_kind name.now (root_kind_of kind) q)) }
    {
        if !self.kinds.contains_key(name) {
            self.kinds.insert(name, kind)?;
        }
        Ok(())
    }

    /// Gives the names of these items their kinds.
    pub(crate) fn add_items(&mut self, items: &'a [Item]) -> Result<(), AllocError>
        ensures { OnOk result ((q : List ℕ) → kind_at self.new q ≡ earlier_of (kind_at self.old q) (item_kinds items.now q)) }
    {
        for item in items {
            self.add(item.name.as_str(), kind_of_value(&item.init))?;
        }
        Ok(())
    }

    /// Gives these names the kinds that they have in the table.
    pub(crate) fn add_names(
        &mut self,
        names: &'a [Text],
        from: Option<&Roots>,
    ) -> Result<(), AllocError>
        ensures { OnOk result ((q : List ℕ) → kind_at self.new q ≡ earlier_of (kind_at self.old q) (name_kinds (kind_from from.entry) names.now q)) }
    {
        for name in names {
            self.add(name.as_str(), kind_from(from, name.as_str()))?;
        }
        Ok(())
    }
}

fn kind_from(table: Option<&Roots>, name: &str) -> RootKind
    ensures { root_kind_of result ≡ kind_from table.entry name.now }
{
    match table {
        Some(table) => table.kind(name),
        None => RootKind::Other,
    }
}
