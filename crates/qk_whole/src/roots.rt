//! What the names of a module's items are.

ghost use Rattle.std.specs.Prelude.{◌≡◌, IfOk};
ghost use Rattle.std.specs.BTreeMap.{get_by_text};
ghost use Rattle.qk_ast.specs.Texts as texts;
ghost use Rattle.qk_sites.specs.Symbols.{symbol_text};
ghost use Rattle.qk_meaning.specs.Roots as roots;
ghost use Rattle.qk_whole.specs.Telling.{site_at};
ghost use Rattle.qk_whole.specs.Items.{first_item, IsRoot, IsCalled, IsNamed, argument_in, first_in};

use crate::arrows::met;
use crate::firsts::put;
use crate::known::Known;
use crate::literals::literal;
use qk_ast::{Arrow, Expr, Item, Link};
use qk_code::{Func, Root};
use qk_locals::Mark;
use qk_shared::{List, Shared, Text};
use std::alloc::{AllocError, Global};
use std::collections::BTreeMap;

/// The name of what makes a component.
const COMPONENT: &str = "component$";

impl Known {
    /// What each name of these items is. Of items with one name the first counts.
    ///
    /// # Errors
    ///
    /// For want of memory, and as of `arrows` and `literal`.
    pub(crate) fn roots(
        &self,
        alloc: Global,
        items: &[Item],
    ) -> Result<BTreeMap<String, Root>, AllocError>
        ensures { IfOk result (λ table. (q : texts.Text) → IsNamed self.now (get_by_text table q) (first_item items.now q)) }
    {
        let mut table = BTreeMap::new(alloc);
        for item in items {
            let root = self.root(alloc, &item.init)?;
            put(alloc, &mut table, &item.name, root)?;
        }
        Ok(table)
    }

    /// What the name of an item with this value is.
    fn root(&self, alloc: Global, value: &Expr) -> Result<Root, AllocError>
        ensures { IfOk result (λ r. IsRoot self.now value.now r) }
    {
        match value {
            Expr::Arrow(arrow) => Ok(Root::Fn(self.root_arrow(alloc, arrow)?)),
            Expr::Post(head, links) => match head.get() {
                Expr::Name(callee) => self.called(alloc, callee, first_argument(links.as_slice())),
                _ => Ok(Root::Literal(literal(alloc, value)?)),
            },
            _ => Ok(Root::Literal(literal(alloc, value)?)),
        }
    }

    /// The function of an arrow that stands in no other: it captures nothing.
    fn root_arrow(&self, alloc: Global, arrow: &Shared<Arrow>) -> Result<Shared<Func>, AllocError>
        ensures { IfOk result (λ f. IsRoot self.now (Expr.Arrow arrow.now) (Root.Fn f)) }
    {
        let met = met(arrow, Mark::Unmarked)?;
        self.function(alloc, &met, &List::from_vec(alloc, Vec::new(alloc))?)
    }

    /// What a call of that name with this first argument makes: a component, or a context's id.
    fn called(
        &self,
        alloc: Global,
        callee: &Text,
        argument: Option<&Expr>,
    ) -> Result<Root, AllocError>
        ensures { IfOk result (λ r. IsCalled self.now callee.now (argument_in argument.entry) r) }
    {
        if callee.as_str() == COMPONENT {
            let symbol = self.symbol_at(alloc, place_of(argument))?;
            return Ok(Root::Component(symbol));
        }
        Ok(Root::Context(text_in(alloc, argument)?))
    }

    /// The symbol of the arrow at a place.
    fn symbol_at(&self, alloc: Global, place: u32) -> Result<Text, AllocError>
        ensures { IfOk result (λ text. text ≡ symbol_text (site_at self.now place).«module» (site_at self.now place).number) }
    {
        let site = self.site_at(place);
        symbol_of(alloc, &site.module, site.number)
    }
}

/// The first argument of a call.
fn first_argument(links: &[Link]) -> Option<&Expr>
    ensures { argument_in result ≡ first_in links.now }
{
    match links {
        [Link::Call(arguments), ..] => arguments.as_slice().first(),
        _ => None,
    }
}

/// The place of the arrow that it is.
fn place_of(argument: Option<&Expr>) -> u32
    ensures { result ≡ roots.place_of (argument_in argument.entry) }
{
    match argument {
        Some(Expr::Arrow(arrow)) => arrow.get().place,
        _ => 0,
    }
}

/// The text that it is.
fn text_in(alloc: Global, argument: Option<&Expr>) -> Result<Text, AllocError>
    ensures { IfOk result (λ text. text ≡ roots.text_in (argument_in argument.entry)) }
{
    match argument {
        Some(Expr::Text(text)) => text.share(),
        _ => Text::from_str(alloc, ""),
    }
}

/// The symbol of the dollar site with that number in the module of that name.
fn symbol_of(alloc: Global, name: &Text, number: u32) -> Result<Text, AllocError>
    ensures { IfOk result (λ text. text ≡ symbol_text name.now number) }
{
    let mut buffer = itoa::Buffer::new();
    let mut text = String::from_str(alloc, name.as_str())?;
    text.push_str("_s")?;
    text.push_str(buffer.format(number))?;
    Text::from_string(alloc, text)
}

/// The same root once more; nothing is copied.
pub(crate) fn shared(root: &Root) -> Result<Root, AllocError>
    ensures { IfOk result (λ r. r ≡ root.now) }
{
    match root {
        Root::Fn(function) => Ok(Root::Fn(function.share()?)),
        Root::Literal(value) => Ok(Root::Literal(value.share()?)),
        Root::Context(id) => Ok(Root::Context(id.share()?)),
        Root::Component(symbol) => Ok(Root::Component(symbol.share()?)),
    }
}
