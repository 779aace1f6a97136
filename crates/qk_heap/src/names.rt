//! The names of fields.
ghost use Rattle.std.specs.Prelude.{◌≡◌, ◌++◌, [], List, bytes_eq, IfOk, OnOk};
ghost use Rattle.std.specs.Map.{keys_of, values_of};
ghost use Rattle.std.specs.List.{IsDistinct};
ghost use Rattle.qk_ast.specs.Texts as texts;
ghost use Rattle.qk_meaning.specs.Value.{Site, end};
ghost use Rattle.qk_meaning.specs.Parts.{names_of, in_listing_order};
ghost use Rattle.qk_value.specs.View.{seen_fields};
ghost use Rattle.qk_heap.specs.Names.{indexed, unindexed};

use crate::fields::Fields;
use qk_shared::Text;
use qk_value::array_index;
use std::alloc::{AllocError, Global};
use std::collections::BTreeMap;

/// The names in the order of listing: array indexes first, ascending, then the others as they were put in.
pub(crate) fn listed_names(alloc: Global, fields: &Fields) -> Result<Vec<Text>, AllocError>
    ensures { IfOk result (λ all. (names : Site → List texts.Text) → all.items ≡ names_of (in_listing_order end (seen_fields names fields.now))) }
{
    let indexes = index_names(alloc, fields)?;
    let first = in_order(alloc, indexes)?;
    with_others(first, fields)
}

/// The names by their numbers, ascending.
fn in_order(alloc: Global, names: BTreeMap<u64, Text>) -> Result<Vec<Text>, AllocError>
    ensures { IfOk result (λ all. all.items ≡ values_of names.entries) }
{
    names.into_values().collect(alloc)
}

/// The names that are array indexes, by their numbers.
fn index_names(alloc: Global, fields: &Fields) -> Result<BTreeMap<u64, Text>, AllocError>
    ensures indexes { IfOk result (λ m. m.entries ≡ indexed [] fields.now) }
    ensures distinct { OnOk result (IsDistinct bytes_eq (keys_of fields.now)) }
{
    let mut names = BTreeMap::new(alloc);
    for at in 0..fields.len() {
        let (name, _) = fields.entry(at);
        let Some(index) = array_index(name.as_str()) else {
            continue;
        };
        names.insert(index, name.share()?)?;
    }
    Ok(names)
}

/// Behind these names come those that are no array indexes.
fn with_others(first: Vec<Text>, fields: &Fields) -> Result<Vec<Text>, AllocError>
    ensures { IfOk result (λ all. all.items ≡ first.items ++ unindexed fields.now) }
{
    let mut all = first;
    for at in 0..fields.len() {
        let (name, _) = fields.entry(at);
        let Some(_) = array_index(name.as_str()) else {
            all.push(name.share()?)?;
            continue;
        };
    }
    Ok(all)
}

/// The names in the order in which they were put in.
pub(crate) fn all_names(alloc: Global, fields: &Fields) -> Result<Vec<Text>, AllocError>
    ensures { IfOk result (λ all. (names : Site → List texts.Text) → all.items ≡ names_of (seen_fields names fields.now)) }
{
    let mut all = Vec::new(alloc);
    for at in 0..fields.len() {
        let (name, _) = fields.entry(at);
        all.push(name.share()?)?;
    }
    Ok(all)
}
