//! Source modules read with whole scopes and with captured values: the laws that both readings agree. Each law is the contract of a
//! function that does nothing.
#![tactic(auto)]

ghost use Rattle.qk_source_alike.specs.Laws.{AcceptedAgree, AcceptedAppsStand, AcceptedEventsAgree, AcceptedRunsAgree, AcceptedScriptsAgree, ScopesAgree};

/// Where names and places are as the rules say, the two readings of the modules agree on every call.
pub fn scopes_agree()
    ensures { ScopesAgree }
{}

/// For every accepted application, evaluation with whole scopes and evaluation with captured values agree on every call.
pub fn accepted_agree()
    ensures { AcceptedAgree }
{}

/// The component of an accepted application stands for its symbol.
pub fn accepted_apps_stand()
    ensures { AcceptedAppsStand }
{}

/// For every accepted application, every event is played alike with whole scopes and with captured values.
pub fn accepted_events_agree()
    ensures { AcceptedEventsAgree }
{}

/// For every accepted application, every script shows the same with whole scopes and with captured values, at the same limits.
pub fn accepted_scripts_agree()
    ensures { AcceptedScriptsAgree }
{}

/// For every accepted application, each run with whole scopes has a run with captured values that shows the same.
pub fn accepted_runs_agree()
    ensures { AcceptedRunsAgree }
{}
