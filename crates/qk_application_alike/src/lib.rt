//! Applications that are accepted over files, read with whole scopes and with captured values. Each law is the contract of a function
//! that does nothing.
#![tactic(auto)]

ghost use Rattle.qk_application_alike.specs.Laws.{ApplicationEventsAgree, ApplicationRunsAgree, ApplicationScriptsAgree, ApplicationsAgree};

/// For every application that is accepted over files, evaluation with whole scopes and evaluation with captured values agree on every call.
pub fn applications_agree()
    ensures { ApplicationsAgree }
{}

/// For every application that is accepted over files, every script shows the same with whole scopes and with captured values.
pub fn application_scripts_agree()
    ensures { ApplicationScriptsAgree }
{}

/// For every application that is accepted over files, every event is played alike.
pub fn application_events_agree()
    ensures { ApplicationEventsAgree }
{}

/// For every application that is accepted over files, each run with whole scopes has a run with captured values that shows the same.
pub fn application_runs_agree()
    ensures { ApplicationRunsAgree }
{}
