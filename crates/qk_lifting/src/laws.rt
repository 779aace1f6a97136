//! Laws of lifted modules. Each is the contract of a function that does nothing.

ghost use Rattle.qk_lifting.specs.Built_reading.{SymbolsAreSites};
ghost use Rattle.qk_lifting.specs.Laws.{CapturesAreTold, EntriesAreInOrder, HooksAreKept, KindsAreMarks, LiftingKeepsArrows, LiftingKeepsCaptures, ModulesKeepCaptures, NumberingKeepsNames, ScopesAreClear, SegmentsFit, SitesAreArrows};

/// The dollar sites of a module are its dollar arrows, in order.
pub fn sites_are_arrows()
    ensures { SitesAreArrows }
{}

/// A dollar site is of kind task exactly where its arrow is marked as a task.
pub fn kinds_are_marks()
    ensures { KindsAreMarks }
{}

/// A lifted arrow captures what the arrow captures, in the same order.
pub fn lifting_keeps_captures()
    ensures { LiftingKeepsCaptures }
{}

/// Where no rule of names is broken, the scopes around the arrows of a module have no name that a declaration may not have.
pub fn scopes_are_clear()
    ensures { ScopesAreClear }
{}

/// Of the arrows inside an arrow of a module it is told what they capture.
pub fn captures_are_told()
    ensures { CapturesAreTold }
{
    qk_names::arrows_are_found();
    qk_names::inside_is_listed();
}

/// In a source, where no rule of names and no rule of places is broken, each arrow captures, once it is lifted, what it
/// captured.
pub fn modules_keep_captures()
    ensures { ModulesKeepCaptures }
{
    qk_names::arrows_are_found();
    qk_names::inside_is_listed();
    qk_names::tasks_take_track();
}

/// The arrows of a lifted body are those of the body that are no dollar arrows and stand in none, each lifted.
pub fn lifting_keeps_arrows()
    ensures { LiftingKeepsArrows }
{}

/// Code whose arrows are numbered anew uses the same names in the same order.
pub fn numbering_keeps_names()
    ensures { NumberingKeepsNames }
{}

/// The reading of the built files has for each symbol the captures and the lifted body of its site.
pub fn symbols_are_sites()
    ensures { SymbolsAreSites }
{
    qk_sites::one_site();
}

/// Entries that keep their rules, each with a symbol of its own, keep the order of an index once they are put in order.
pub fn entries_are_in_order()
    ensures { EntriesAreInOrder }
{}

/// Lifted and numbered code has the same hooks in the same order.
pub fn hooks_are_kept()
    ensures { HooksAreKept }
{}

/// The file of a dollar site fits the entry of its symbol, if its parameters are those of its kind and a component captures
/// nothing.
pub fn segments_fit()
    ensures { SegmentsFit }
{}
