//! What is told of one place.

ghost use Rattle.std.specs.Prelude.{◌≡◌, List, [], ◌∷◌, ◌++◌, true, IfOk, IfErr};
ghost use Rattle.std.specs.Option.{option_map};
ghost use Rattle.qk_ast.specs.Placing.{Placing_breach, item_breaches};
ghost use Rattle.qk_ast.specs.Tags.{is_attribute};
ghost use Rattle.qk_rules.specs.Standings.{standing_of, called_of};
ghost use Rattle.qk_rules.specs.Root_table.{kind_by};
ghost use Rattle.qk_rules.specs.Breaches.{breach, first_breach, use_breaches};
ghost use Rattle.qk_rules.specs.Checking.{Answers, Refuses};
ghost use Rattle.qk_rules.specs.Parts.{tag_breaches, element_breaches, attribute_breaches, is_any};

use crate::RuleFault;
use crate::earlier::Earlier;
use crate::items::item_breach;
use crate::roots::Roots;
use crate::standing::{Called, Standing};
use crate::tags::is_element;
use crate::uses::{component_breach, use_breach};
use qk_ast::{Expr, Field, Item, RuleKind, Tag};
use qk_locals::Scopes;
use qk_shared::Text;
use std::alloc::Global;

/// The rule that the name breaks, if any.
pub(crate) fn told(kind: Option<RuleKind>, name: &Text) -> Result<(), RuleFault>
    ensures { (all : List Placing_breach) → option_map (breach name.now) kind ≡ first_breach all → Answers all result }
{
    match kind {
        Some(kind) => refused(kind, name),
        None => Ok(()),
    }
}

/// The name breaks that rule.
fn refused(kind: RuleKind, name: &Text) -> Result<(), RuleFault>
    ensures { Answers (breach name.now kind ∷ []) result }
{
    let name = name.share()?;
    Err(RuleFault::Refused { kind, name })
}

/// What an item of a module of that name breaks by what it is.
pub(crate) fn item_told(file: &str, item: &Item) -> Result<(), RuleFault>
    ensures { Answers (item_breaches file.now item.now.name item.now.init) result }
{
    told(
        item_breach(file, item.name.as_str(), &item.init),
        &item.name,
    )
}

/// What a use of a name breaks.
pub(crate) fn name_told(
    roots: &Roots,
    scopes: &Scopes,
    name: &Text,
    call: Called,
    standing: Standing,
) -> Result<(), RuleFault>
    ensures { Answers (use_breaches (kind_by roots.now) name.now (called_of call.entry) (standing_of standing.entry) scopes.now) result }
{
    told(
        use_breach(roots, scopes, name.as_str(), call, standing),
        name,
    )
}

/// What an opening tag breaks.
pub(crate) fn tag_told(
    roots: &Roots,
    scopes: &Scopes,
    tag: &Tag,
    children: bool,
) -> Result<(), RuleFault>
    ensures { Answers (tag_breaches (kind_by roots.now) tag.now children scopes.now) result }
{
    match tag {
        Tag::Element(name) => element_told(name, children),
        Tag::Component(name) => {
            told(
                component_breach(roots, scopes, name.as_str(), children),
                name,
            )
        }
        Tag::Fragment => Ok(()),
    }
}

fn element_told(name: &Text, children: bool) -> Result<(), RuleFault>
    ensures { Answers (element_breaches name.now children) result }
{
    if is_element(name.as_str(), children) {
        return Ok(());
    }
    refused(RuleKind::TagRefused, name)
}

/// Whether there are children.
pub(crate) fn has_children(children: &[Expr]) -> bool
    ensures { result ≡ is_any children.now }
{
    match children {
        [] => false,
        _ => true,
    }
}

/// The names of a tag's attributes with that of one more.
pub(crate) fn with_attribute<'a>(
    earlier: Earlier<'a>,
    alloc: Global,
    tag: &Tag,
    attribute: &'a Field,
) -> Result<Earlier<'a>, RuleFault>
    ensures ok { IfOk result (λ all. (attribute_breaches tag.now attribute.now earlier.entry ≡ []) × (all ≡ earlier.entry ++ attribute.now.key ∷ [])) }
    ensures err { IfErr result (λ fault. Refuses (attribute_breaches tag.now attribute.now earlier.entry) fault) }
{
    let found = earlier.with(alloc, tag, &attribute.key, &attribute.value)?;
    match found {
        Some(all) => Ok(all),
        None => {
            let name = attribute.key.share()?;
            Err(RuleFault::Refused {
                kind: RuleKind::TagRefused,
                name,
            })
        }
    }
}
