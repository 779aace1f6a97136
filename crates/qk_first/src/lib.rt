//! The first form of a module: what its run prints, said in the words of a counter.
#![tactic(auto)]

ghost use Rattle.qk_first.specs.Laws.{FirstRun};

mod names;
pub mod shape;

/// The run of a module of the first form under any list of events prints what its counter prints.
pub fn first_run()
    ensures { FirstRun }
{}
