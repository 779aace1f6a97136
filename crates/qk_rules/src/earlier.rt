//! The names of a tag's attributes so far.

ghost use Rattle.std.specs.Prelude.{◌≡◌, ◌∷◌, ◌++◌, [], IfOk, MatchOption, true, false};
ghost use Rattle.qk_ast.specs.Names.{is_listed};
ghost use Rattle.qk_ast.specs.Tags.{in_small_letters, is_attribute, is_listener};
ghost use Rattle.qk_rules.specs.Attributes.{is_event};

use crate::tags::{is_alone, is_listener};
use qk_ast::{Expr, NameSet, Tag};
use qk_shared::Text;
use std::alloc::{AllocError, Global};
use std::collections::BTreeSet;
use std::marker::Model;

/// Names of attributes, each once. Contracts see them as a list, the latest at its end. Beside it stand the names of the listeners in small
/// letters, so that one more attribute is tried in few steps.
#[derive(Drop)]
pub(crate) struct Earlier<'a> {
    names: NameSet<'a>,
    events: BTreeSet<String>,
}

impl<'a> Model for Earlier<'a> {
    ghost use Rattle.std.specs.Prelude.{List, ℕ};
    ghost use Rattle.qk_rules.specs.Attributes.{HasEvents};

    ghost Value = { List (List ℕ) };

    ghost view = { λ s. s.names };

    ghost invariant = { λ s. HasEvents s.events s.names };
}

impl<'a> Earlier<'a> {
    /// No names yet. It takes no memory.
    pub(crate) fn new(alloc: Global) -> Earlier<'a>
        ensures { result ≡ [] }
    {
        Earlier {
            names: NameSet::new(alloc),
            events: BTreeSet::new(alloc),
        }
    }

    fn has(&self, name: &str) -> bool
        ensures { result ≡ is_listed name.now self.now }
    {
        self.names.has(name)
    }

    /// The names with a new one more, which is that of a listener, unless there is a listener of the same event.
    fn with_listener(self, alloc: Global, name: &'a str) -> Result<Option<Earlier<'a>>, AllocError>
        requires new { is_listed name.now self ≡ false }
        requires listens { is_listener name.now ≡ true }
        ensures { IfOk result (λ found. MatchOption found (is_event (in_small_letters name.now) self.entry ≡ true) (λ all. (is_event (in_small_letters name.now) self.entry ≡ false) × (all ≡ self.entry ++ name.now ∷ []))) }
    {
        let Earlier {
            mut names,
            mut events,
        } = self;
        let event = name.to_ascii_lowercase(alloc)?;
        if events.contains(event.as_str()) {
            return Ok(None);
        }
        events.insert(event)?;
        names.add(name)?;
        Ok(Some(Earlier { names, events }))
    }

    /// The names with a new one more, which isn't that of a listener.
    fn with_other(self, name: &'a str) -> Result<Earlier<'a>, AllocError>
        requires new { is_listed name.now self ≡ false }
        requires quiet { is_listener name.now ≡ false }
        ensures { IfOk result (λ all. all ≡ self.entry ++ name.now ∷ []) }
    {
        let Earlier { mut names, events } = self;
        names.add(name)?;
        Ok(Earlier { names, events })
    }

    /// The names with that of an attribute more, where the tag may have it after these.
    pub(crate) fn with(
        self,
        alloc: Global,
        tag: &Tag,
        name: &'a Text,
        value: &Expr,
    ) -> Result<Option<Earlier<'a>>, AllocError>
        ensures { IfOk result (λ found. MatchOption found (is_attribute tag.now name.now value.now self.entry ≡ false) (λ all. (is_attribute tag.now name.now value.now self.entry ≡ true) × (all ≡ self.entry ++ name.now ∷ []))) }
    {
        let key = name.as_str();
        if self.has(key) {
            return Ok(None);
        }
        if !is_alone(tag, key, value) {
            return Ok(None);
        }
        if is_listener(key) {
            return self.with_listener(alloc, key);
        }
        Ok(Some(self.with_other(key)?))
    }
}
