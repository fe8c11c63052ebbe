//! The calls that a form in memory was asked for, and which of them fail.
ghost use Rattle.std.specs.Prelude.{◌≡◌, ◌≤◌, ◌↔◌, IsTrue, Contains};
ghost use Rattle.asp_io.specs.Memory.{next_count, one_more};

use std::marker::Model;

/// Numbers the calls from 1, and counts those that fail.
#[derive(Drop)]
pub(crate) struct Calls {
    failing: Vec<u32>,
    made: u64,
    faults: u64,
}

impl Model for Calls {
    ghost use Rattle.asp_io.specs.Memory.{CallsState};

    ghost Value = { CallsState };

    ghost view = { λ calls. record {
      failing = calls.failing.items;
      made = calls.made;
      faults = calls.faults;
    } };
}

impl Calls {
    /// No call so far. Those whose number is in `failing` will fail.
    pub(crate) fn new(failing: Vec<u32>) -> Calls
        ensures { result ≡ record { failing = failing.items; made = 0; faults = 0 } }
    {
        Calls {
            failing,
            made: 0,
            faults: 0,
        }
    }

    /// Whether the next call fails: its number is in the list.
    pub(crate) fn next_fails(&self) -> bool
        ensures { IsTrue result ↔ Contains self.now.failing (next_count self.now.made) }
    {
        let number = self.made.saturating_add(1);
        self.failing.iter().any(|call| u64::from(*call) == number)
    }

    /// Counts a call, and a fault where it failed.
    pub(crate) fn count(&mut self, failed: bool)
        ensures counted { self.new ≡ one_more self.old failed }
        ensures later { self.old.faults ≤ self.new.faults }
    {
        self.made = self.made.saturating_add(1);
        if failed {
            self.faults = self.faults.saturating_add(1);
        }
    }
}
