//! The walk that finds arrows.
#![tactic(auto, using(crate::proofs::Walks::behind_none))]

ghost use Rattle.std.specs.Prelude.{◌≡◌, suc, [], OnOk, IfOk};
ghost use Rattle.qk_ast.specs.Names.{each_once, those_of};
ghost use Rattle.qk_ast.specs.Uses.{free_names};
ghost use Rattle.qk_locals.specs.Meanings.{mark_of};
ghost use Rattle.qk_node.specs.Growing.{tree};
ghost use Rattle.qk_node.specs.Borrowed.{node_of};
ghost use Rattle.qk_node.specs.Found.{arrow_here, arrows_in};
ghost use Rattle.qk_captures.specs.Scoping.{in_scope, is_dollar_mark};
ghost use Rattle.qk_captures.specs.Walking.{noted, behind, arrow_found, item_found, items_found};

use crate::Captured;
use crate::scope::Scope;
use qk_ast::{Arrow, Expr, Form, Item, Site, free};
use qk_locals::Mark;
use qk_node::Node;
use qk_shared::{Builder, List, Text};
use std::alloc::{AllocError, Global};

/// The names in scope where the walk stands, how many arrows of each kind it met, and what is known of these.
#[derive(Drop)]
pub(crate) struct Walk<'a> {
    alloc: Global,
    file: &'a Text,
    scope: Scope<'a>,
    dollar: u32,
    plain: u32,
    found: Builder<Captured>,
}

/// Whether an arrow with this mark is a dollar arrow.
fn is_dollar(mark: Mark) -> bool
    ensures { result ≡ is_dollar_mark (mark_of mark) }
{
    match mark {
        Mark::Unmarked => false,
        Mark::Marked => true,
        Mark::Tasked => true,
    }
}

/// One more; `Err` where a `u32` doesn't hold it.
fn one_more(count: u32) -> Result<u32, AllocError>
    ensures { IfOk result (λ next. next ≡ suc count) }
{
    match count.checked_add(1) {
        Some(next) => Ok(next),
        None => Err(AllocError),
    }
}

impl<'a> Walk<'a> {
    /// Nothing is in scope or found yet. It takes no memory.
    pub(crate) fn new(alloc: Global, file: &'a Text) -> Walk<'a>
        ensures file { result.file.now ≡ file.now }
        ensures scope { in_scope result.scope ≡ [] }
        ensures dollar { result.dollar ≡ 0 }
        ensures plain { result.plain ≡ 0 }
        ensures found { result.found ≡ [] }
    {
        Walk {
            alloc,
            file,
            scope: Scope::new(alloc),
            dollar: 0,
            plain: 0,
            found: Builder::new(alloc),
        }
    }

    /// The free names of an arrow that are in scope.
    #[tactic(auto, using(crate::proofs::Once::once_in_scope))]
    fn captured(&self, arrow: &Arrow) -> Result<List<Text>, AllocError>
        ensures { IfOk result (λ names. names ≡ each_once [] (those_of (in_scope self.now.scope) (free_names arrow.now.params arrow.now.body))) }
    {
        match free(self.alloc, arrow) {
            Ok(names) => self.scope.those_in(self.alloc, names.as_slice()),
            Err(_) => Err(AllocError),
        }
    }

    /// The arrow is the next one of its kind.
    #[tactic(auto, unfolding(crate::specs::Walking::noted))]
    fn note(&mut self, dollar: bool, names: List<Text>) -> Result<(), AllocError>
        ensures { OnOk result (self.new ≡ noted (record { dollar = dollar; names = names }) self.old) }
    {
        let module = self.file.share()?;
        let number = if dollar {
            self.dollar = one_more(self.dollar)?;
            self.dollar
        } else {
            self.plain = one_more(self.plain)?;
            self.plain
        };
        let site = Site {
            module,
            number,
            dollar,
        };
        self.found.push(Captured { site, names })
    }

    /// The node itself, where it is an arrow.
    #[tactic(auto, unfolding(crate::specs::Walking::behind, crate::specs::Walking::all_noted))]
    fn meet(&mut self, node: Node<'a>) -> Result<(), AllocError>
        ensures { OnOk result (self.new ≡ behind (arrow_here (node_of node.entry)) self.old) }
    {
        match node {
            Node::Value(Expr::Arrow(arrow), mark) => self.arrow(arrow.get(), mark),
            _ => Ok(()),
        }
    }

    fn arrow(&mut self, arrow: &'a Arrow, mark: Mark) -> Result<(), AllocError>
        ensures { OnOk result (self.new ≡ behind (arrow_found arrow.now (mark_of mark)) self.old) }
    {
        let names = self.captured(arrow)?;
        self.note(is_dollar(mark), names)
    }

    /// A node and all that is inside it, around which its names are in scope.
    fn node(&mut self, node: Node<'a>) -> Result<(), AllocError>
        ensures { OnOk result (self.new ≡ behind (arrows_in (tree (node_of node.entry))) self.old) }
    {
        self.meet(node)?;
        let outside = self.scope.outside();
        self.scope.enter_inside(node)?;
        for child in node.children() {
            self.node(child)?;
        }
        self.scope.leave(outside);
        Ok(())
    }

    /// The values of a file's items.
    pub(crate) fn items(&mut self, items: &'a [Item], form: Form) -> Result<(), AllocError>
        ensures { OnOk result (self.new ≡ behind (items_found form items.now) self.old) }
    {
        for item in items {
            self.item(item, form)?;
        }
        Ok(())
    }

    /// The value of an item, with the names that stand around it in that form.
    fn item(&mut self, item: &'a Item, form: Form) -> Result<(), AllocError>
        ensures { OnOk result (self.new ≡ behind (item_found form item.now) self.old) }
    {
        let outside = self.scope.outside();
        self.scope.enter_around(form, &item.init)?;
        self.node(Node::Value(&item.init, Mark::Unmarked))?;
        self.scope.leave(outside);
        Ok(())
    }

    /// What was found. It isn't copied.
    pub(crate) fn into_found(self) -> Result<List<Captured>, AllocError>
        ensures { IfOk result (λ all. all ≡ self.entry.found) }
    {
        let Walk { alloc, found, .. } = self;
        found.into_list(alloc)
    }
}
