// The calls of a store or a sink for tests, numbered from 1. Those whose number is listed fail.
ghost use Rattle.std.specs.Prelude.{◌≡◌, ◌≤◌, IsTrue, Contains, ◌↔◌};
ghost use Rattle.qk_store.specs.Calls.{next_number};

/// One more, up to the last value of a counter.
pub fn one_more(count: u64) -> u64
    ensures value { result ≡ next_number count }
    ensures later { count ≤ result }
{
    count.saturating_add(1)
}

#[derive(Drop)]
pub struct Calls {
    pub failing: Vec<u64>,
    pub made: u64,
    pub faults: u64,
}

impl Calls {
    pub fn new(failing: Vec<u64>) -> Calls
        ensures { result ≡ record { failing = failing; made = 0; faults = 0 } }
    {
        Calls {
            failing,
            made: 0,
            faults: 0,
        }
    }

    /// Whether the next call is one that fails.
    pub fn next_fails(&self) -> bool
        ensures { IsTrue result ↔ Contains self.now.failing.items (next_number self.now.made) }
    {
        self.failing.contains(&one_more(self.made))
    }

    /// Counts a call that was answered.
    pub fn answered(&mut self)
        ensures { self.new ≡ record self.old { made = next_number self.old.made } }
    {
        self.made = one_more(self.made);
    }

    /// Counts a call that failed.
    pub fn failed(&mut self)
        ensures counted { self.new ≡ record self.old { made = next_number self.old.made; faults = next_number self.old.faults } }
        ensures later { self.old.faults ≤ self.new.faults }
    {
        self.made = one_more(self.made);
        self.faults = one_more(self.faults);
    }
}
