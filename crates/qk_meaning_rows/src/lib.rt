//! Worked examples of the meaning, which the check computes: programs, scripts and what is printed of them. No code is run here; one
//! of them is the contract of a function that does nothing.
#![tactic(auto)]

ghost use Rattle.qk_meaning_rows.specs.Clicked_counter.{CounterIsShown};

/// A counter that is clicked three times shows 0, 1, 2 and 3, with whole scopes, with captured values, and as built files.
pub fn counter_is_shown()
    ensures { CounterIsShown }
{}
