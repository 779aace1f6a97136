ghost use Rattle.std.specs.Prelude.{◌≡◌, ◌+◌, ◌-◌, ◌<◌, ◌↔◌, IsTrue, IsFalse};

use std::marker::Model;

/// How much may be done: turns taken in all, and levels entered and not left at a time.
#[derive(Clone, Copy, Debug, PartialEq, Eq)]
pub struct Budget {
    pub turns: u64,
    pub depth: u32,
}

/// What is left of a budget while code runs on it. A turn is taken for good; a level that was entered is given back when it is left.
///
/// Contracts see the turns and levels that are left, and how many levels were entered. No call takes memory.
#[derive(Drop)]
pub struct Meter {
    turns: u64,
    depth: u32,
    most: u32,
}

impl Model for Meter {
    ghost use Rattle.std.specs.Prelude.{◌-◌, ◌≤◌};
    ghost use Rattle.qk_base.specs.Left.{Left, coded_left};

    ghost Value = { Left };

    ghost coded = { coded_left };

    ghost view = { λ m. record { turns = m.turns; depth = m.depth; entered = m.most - m.depth } };

    ghost invariant = { λ m. m.depth ≤ m.most };
}

impl Meter {
    /// The whole budget, with no level entered.
    pub fn new(budget: Budget) -> Meter
        ensures { result ≡ record { turns = budget.turns; depth = budget.depth; entered = 0 } }
    {
        Meter {
            turns: budget.turns,
            depth: budget.depth,
            most: budget.depth,
        }
    }

    /// Takes a turn. It is true exactly where one was left; false changes nothing.
    pub fn take(&mut self) -> bool
        ensures had { IsTrue result ↔ (0 < self.old.turns) }
        ensures taken { IsTrue result → self.new ≡ record self.old { turns = self.old.turns - 1 } }
        ensures kept { IsFalse result → self.new ≡ self.old }
    {
        if self.turns == 0 {
            return false;
        }
        self.turns -= 1;
        true
    }

    /// Enters a level. It is true exactly where one was left; false changes nothing.
    pub fn enter(&mut self) -> bool
        ensures had { IsTrue result ↔ (0 < self.old.depth) }
        ensures entered { IsTrue result → self.new ≡ record self.old { depth = self.old.depth - 1; entered = self.old.entered + 1 } }
        ensures kept { IsFalse result → self.new ≡ self.old }
    {
        if self.depth == 0 {
            return false;
        }
        self.depth -= 1;
        true
    }

    /// Leaves a level that was entered, and so gives it back.
    pub fn leave(&mut self)
        requires { 0 < self.old.entered }
        ensures { self.new ≡ record self.old { depth = self.old.depth + 1; entered = self.old.entered - 1 } }
    {
        self.depth += 1;
    }

    /// How many turns can still be taken.
    pub fn turns_left(&self) -> u64
        ensures { result ≡ self.now.turns }
    {
        self.turns
    }

    /// How many levels can still be entered.
    pub fn depth_left(&self) -> u32
        ensures { result ≡ self.now.depth }
    {
        self.depth
    }
}
