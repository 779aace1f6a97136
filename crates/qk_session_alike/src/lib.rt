//! Sessions of programs that stand for one another: the laws that they play every item alike. Each law is the contract of a function that
//! does nothing.
#![tactic(auto)]

ghost use Rattle.qk_session_alike.specs.Laws.{EventsAgree, FirstRendersAgree, RunsAgree, ScriptsAgree};

/// Programs whose functions stand for one another play every event to one block, and to worlds that stand for one another.
pub fn events_agree()
    ensures { EventsAgree }
{}

/// Programs whose functions stand for one another render first to one block, and to worlds that stand for one another.
pub fn first_renders_agree()
    ensures { FirstRendersAgree }
{}

/// Programs whose functions stand for one another show the same of every script, at the same limits.
pub fn scripts_agree()
    ensures { ScriptsAgree }
{}

/// Each run of one of such programs has a run of the other that shows the same.
pub fn runs_agree()
    ensures { RunsAgree }
{}
