//! Laws of what is played. Each is the contract of a function that does nothing.

ghost use Rattle.qk_needed.specs.Deciding.{ReadsDecide};
ghost use Rattle.qk_needed.specs.Laws.{Settled, ResumedIsFresh, QuietPasses, NeededGreaterLimits};
ghost use Rattle.qk_needed.specs.Tidy.{SamesAreEqual};

/// Where a call gives a value in a mode in which nothing is written, the same call gives it, reads the same and enters the same in each heap of the same kinds
/// in which the same stands at all that was read, unless it ends for its budget; also where other computeds are under way, as long as none of them was run.
pub fn reads_decide()
    ensures { ReadsDecide }
{}

/// Of values whose functions keep exactly what they capture, two that are the same are equal.
pub fn sames_are_equal()
    ensures { SamesAreEqual }
{}

/// Once a session has settled, rendered whole or only where needed, no task is due and no instance is stale.
pub fn settled()
    ensures { Settled }
{}

/// After a resume no instance is stale, and no computed has run.
pub fn resumed_is_fresh()
    ensures { ResumedIsFresh }
{}

/// A needed pass that mounts nothing and enters no function logs nothing, where the views and the instances that stand are in order.
pub fn quiet_passes()
    ensures { QuietPasses }
{}

/// Where an item of which only what is needed is played doesn't end at some limits, it gives the same at all greater ones.
pub fn needed_greater_limits()
    ensures { NeededGreaterLimits }
{}
