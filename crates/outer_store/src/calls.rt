//! Counts the calls of a store or a sink in memory, and makes those fail whose numbers a test gives.
ghost use Rattle.std.specs.Prelude.{◌≡◌, ◌≤◌, ◌↔◌, false, IsTrue, Contains, if◌then◌else◌};
ghost use Rattle.outer_store.specs.Outside.{counted};
ghost use Rattle.outer_store.specs.Scripts.{is_some_number};

/// The number of calls so far, the numbers, from 1, of the calls that fail, and how many failed.
#[derive(Drop)]
pub(crate) struct Calls {
    pub(crate) failing: Vec<u64>,
    pub(crate) made: u64,
    pub(crate) faults: u64,
}

impl Calls {
    /// No call yet.
    pub(crate) fn new(failing: Vec<u64>) -> Calls
        ensures failing { result.failing ≡ failing }
        ensures made { result.made ≡ 0 }
        ensures faults { result.faults ≡ 0 }
    {
        Calls {
            failing,
            made: 0,
            faults: 0,
        }
    }

    /// Counts a call, and returns whether it fails.
    pub(crate) fn fails_next(&mut self) -> bool
        ensures failing { self.new.failing ≡ self.old.failing }
        ensures made { self.new.made ≡ counted self.old.made }
        ensures fails { IsTrue result ↔ Contains self.old.failing.items (counted self.old.made) }
        ensures faults { self.new.faults ≡ (if result then counted self.old.faults else self.old.faults) }
        ensures grows { self.old.faults ≤ self.new.faults }
        ensures steady { is_some_number self.old.failing.items ≡ false → result ≡ false }
    {
        self.made = self.made.saturating_add(1);
        let fails = self.failing.contains(&self.made);
        if fails {
            self.faults = self.faults.saturating_add(1);
        }
        fails
    }
}
