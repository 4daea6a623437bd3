ghost use Rattle.std.specs.Prelude.{◌≡◌, ◌≤◌, ◌↔◌, IsTrue, Contains};
ghost use Rattle.outside_io.specs.Memory.{passed, failed};

use std::marker::Model;

/// The calls of a source or a sink in memory: how many there were, how many of them failed, and which are to fail.
#[derive(Drop)]
pub(crate) struct Calls {
    fails: Vec<u32>,
    number: u64,
    faults: u64,
}

impl Model for Calls {
    ghost use Rattle.outside_io.specs.Memory.{CallCount};

    ghost Value = { CallCount };

    ghost view = { λ c. record { fails = c.fails.items; number = c.number; faults = c.faults } };
}

impl Calls {
    pub(crate) fn new(fails: Vec<u32>) -> Calls
        ensures { result ≡ record { fails = fails.items; number = 0; faults = 0 } }
    {
        Calls {
            fails,
            number: 0,
            faults: 0,
        }
    }

    /// Whether the next call was told to fail.
    pub(crate) fn is_next_failing(&self) -> bool
        ensures { IsTrue result ↔ Contains self.now.fails self.now.number }
    {
        self.fails
            .iter()
            .any(|&number| u64::from(number) == self.number)
    }

    /// Counts a call that went well.
    pub(crate) fn pass(&mut self)
        ensures { self.new ≡ passed self.old }
    {
        self.number = self.number.saturating_add(1);
    }

    /// Counts a call that failed.
    pub(crate) fn fail(&mut self)
        ensures after { self.new ≡ failed self.old }
        ensures count { self.old.faults ≤ self.new.faults }
    {
        self.number = self.number.saturating_add(1);
        self.faults = self.faults.saturating_add(1);
    }
}
