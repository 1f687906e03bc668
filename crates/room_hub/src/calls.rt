//! The calls of a hub in memory, some of which fail.
ghost use Rattle.std.specs.Prelude.{◌≡◌, ◌≤◌, true};
ghost use Rattle.room_edge.specs.Causes.{Rose};
ghost use Rattle.room_edge.specs.Memory.{is_among, no_calls, is_to_fail, called};

use std::marker::Model;

/// Counts the calls, and lets those fail whose numbers it was given.
#[derive(Drop)]
pub(crate) struct Calls {
    calls: u64,
    fails: Vec<u64>,
    faults: u64,
}

impl Model for Calls {
    ghost use Rattle.room_edge.specs.Memory.{Calls as Meaning};

    ghost Value = { Meaning };

    ghost view = { λ c. record { calls = c.calls; fails = c.fails.items; faults = c.faults } };
}

impl Calls {
    pub(crate) fn new(fails: Vec<u64>) -> Calls
        ensures { result ≡ no_calls fails.items }
    {
        Calls {
            calls: 0,
            fails,
            faults: 0,
        }
    }

    /// Counts a call, and answers whether it is to fail.
    pub(crate) fn begin(&mut self) -> bool
        ensures answer { result ≡ is_to_fail self.old }
        ensures counted { self.new ≡ called self.old }
        ensures later { self.old.faults ≤ self.new.faults }
        ensures rose { result ≡ true → Rose self.old.faults self.new.faults }
    {
        self.calls = self.calls.saturating_add(1);
        if is_among(self.fails.as_slice(), self.calls) {
            self.faults = self.faults.saturating_add(1);
            return true;
        }
        false
    }
}

fn is_among(numbers: &[u64], number: u64) -> bool
    ensures { result ≡ is_among number numbers.now }
{
    for k in numbers {
        if *k == number {
            return true;
        }
    }
    false
}
