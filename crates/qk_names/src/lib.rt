//! Laws of the arrows and names of modules, and of applications that keep the rules. Each is the contract of a function
//! that does nothing.
#![tactic(auto)]

ghost use Rattle.qk_names.specs.Laws.{AcceptedKeepRules, ArrowsAreFound, ArrowsAreNumbered, ComponentIsDollarSite, ContextsHaveNoArrows, DataStands, InsideFollows, InsideIsListed, ItemsHaveForms, ItemsUseRootNames, KindsAreNumbered, NamesAreCaptured, OutermostCaptureNothing, SitesAreFew, SourcesHaveNoScopes, TasksTakeTrack, TrackStays};

/// The arrows of a module that a text derives have the places 0, 1, 2 and so on, in text order.
pub fn arrows_are_numbered()
    ensures { ArrowsAreNumbered }
{}

/// Each arrow of a module that a text derives is found at its place.
pub fn arrows_are_found()
    ensures { ArrowsAreFound }
{}

/// The dollar arrows of such a module are found at their places and numbered by them from 1, and so are the plain ones.
pub fn kinds_are_numbered()
    ensures { KindsAreNumbered }
{}

/// The arrows inside an arrow follow it at once.
pub fn inside_follows()
    ensures { InsideFollows }
{}

/// What stands inside an arrow of a module is an arrow of the module.
pub fn inside_is_listed()
    ensures { InsideIsListed }
{}

/// The arrows of a module are those that stand in no other, each with those inside it; and the former capture nothing.
pub fn outermost_capture_nothing()
    ensures { OutermostCaptureNothing }
{}

/// Where no rule of places is broken, each component of the root is made by one call with one arrow, which is a dollar
/// arrow of the module.
pub fn component_is_dollar_site()
    ensures { ComponentIsDollarSite }
{}

/// Where no rule of places is broken, an item is a component, a context id, an arrow or fixed data, and `App` of the
/// module `root` is a component.
pub fn items_have_forms()
    ensures { ItemsHaveForms }
{}

/// Where no rule of places is broken, a module has 4,096 dollar sites at most.
pub fn sites_are_few()
    ensures { SitesAreFew }
{}

/// A context id has no arrows.
pub fn contexts_have_no_arrows()
    ensures { ContextsHaveNoArrows }
{}

/// Fixed data has no arrows and uses no names.
pub fn data_stands()
    ensures { DataStands }
{}

/// The modules of an accepted application break no rule of names and no rule of places.
pub fn accepted_keep_rules()
    ensures { AcceptedKeepRules }
{}

/// Where no rule of names and no rule of places is broken, each task has no parameter or `{ track }`.
pub fn tasks_take_track()
    ensures { TasksTakeTrack }
{}

/// The arrows of a source have no lexical scope.
pub fn sources_have_no_scopes()
    ensures { SourcesHaveNoScopes }
{}

/// In a source, where no rule of names and no rule of places is broken, each free name of an arrow is captured, or a name
/// of the root.
pub fn names_are_captured()
    ensures { NamesAreCaptured }
{}

/// In a source, where no rule of names and no rule of places is broken, each name that an item uses and doesn't declare
/// is a name of the root.
pub fn items_use_root_names()
    ensures { ItemsUseRootNames }
{}

/// In a source, where no rule of names and no rule of places is broken, each free name of an arrow inside a task that
/// takes `track` is captured, or a name of the root other than `track`.
pub fn track_stays()
    ensures { TrackStays }
{}
