//! Laws of the meaning. Each is the contract of a function that does nothing.

ghost use Rattle.qk_meaning.specs.Laws.{GreaterLimits, TwoLimits, OneRun, PlayedIsRun, CallsTakeTurns, PassesTakeTurns, TasksTakeTurns, RoundsAreEnough, NothingDue, ItemsTell, FrontsPlayed, FrontsRun, DueOverMore, PausesMeetNone, TreeIsPassed};
ghost use Rattle.qk_meaning.specs.Laws_of_code.{CallsAdd, WhileUnfolds, HooksReplay};
ghost use Rattle.qk_meaning.specs.Laws_of_changes.{SameAsItself, PropertyWritten, PropertyDeleted, IndexWritten, ItemPushed, ItemPopped, SignalWritten, UnloggedIsSame};

/// Where an item doesn't end at some limits of turns and depth, it gives the same at all greater ones.
pub fn greater_limits()
    ensures { GreaterLimits }
{}

/// Two limits at which an item doesn't end give the same.
pub fn two_limits()
    ensures { TwoLimits }
{}

/// A script has at most one run.
pub fn one_run()
    ensures { OneRun }
{}

/// What is played at one budget is the run of the script, unless an item ends with that budget.
pub fn played_is_run()
    ensures { PlayedIsRun }
{}

/// A call that gives a value has taken a turn of the budget.
pub fn calls_take_turns()
    ensures { CallsTakeTurns }
{}

/// A pass takes a turn of the budget.
pub fn passes_take_turns()
    ensures { PassesTakeTurns }
{}

/// A run of a task takes a turn of the budget.
pub fn tasks_take_turns()
    ensures { TasksTakeTurns }
{}

/// The bound on the rounds of settling, one more than the turns that are left, decides nothing.
pub fn rounds_are_enough()
    ensures { RoundsAreEnough }
{}

/// Once a session has settled no task is due.
pub fn nothing_due()
    ensures { NothingDue }
{}

/// A call only adds to the trace, the log, the console lines and the heap, and its trace tells all that it logs and prints.
pub fn calls_add()
    ensures { CallsAdd }
{}

/// A `while` is its condition, and where that is true a turn and the same `while` again.
pub fn while_unfolds()
    ensures { WhileUnfolds }
{}

/// An item tells all that it logs and prints.
pub fn items_tell()
    ensures { ItemsTell }
{}

/// What is played of the first lines of a script is the front of what is played of it.
pub fn fronts_played()
    ensures { FrontsPlayed }
{}

/// The run of the first lines of a script is the front of its run.
pub fn fronts_run()
    ensures { FrontsRun }
{}

/// What a longer log makes due.
pub fn due_over_more()
    ensures { DueOverMore }
{}

/// A pause is possible exactly where the walk meets no plain function that isn't hidden.
pub fn pauses_meet_none()
    ensures { PausesMeetNone }
{}

/// A call in which hook calls are answered at a mount or again comes to the same where whoever calls gives the answers that it told.
pub fn hooks_replay()
    ensures { HooksReplay }
{}

/// Where no two instances have one path, the tree of the world behind a pass is what the pass showed.
pub fn tree_is_passed()
    ensures { TreeIsPassed }
{}

/// Every value is the same as itself.
pub fn same_as_itself()
    ensures { SameAsItself }
{}

/// What the writing of a property logs.
pub fn property_written()
    ensures { PropertyWritten }
{}

/// What the deletion of a property logs.
pub fn property_deleted()
    ensures { PropertyDeleted }
{}

/// What the writing of an index below the length logs.
pub fn index_written()
    ensures { IndexWritten }
{}

/// What an item more at the end logs.
pub fn item_pushed()
    ensures { ItemPushed }
{}

/// What an item less at the end logs.
pub fn item_popped()
    ensures { ItemPopped }
{}

/// What the writing of a signal logs.
pub fn signal_written()
    ensures { SignalWritten }
{}

/// What a change doesn't log is the same behind it.
pub fn unlogged_is_same()
    ensures { UnloggedIsSame }
{}
