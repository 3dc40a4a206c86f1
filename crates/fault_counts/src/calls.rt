//! Calls that are counted, of which some are told to fail.

ghost use Rattle.std.specs.Prelude.{◌≡◌, IsTrue, ◌↔◌};
ghost use Rattle.fault_counts.specs.Counts.{HasRisen};
ghost use Rattle.fault_counts.specs.Calls.{Calls as CallsValue, no_calls, IsToFail, after_success, after_fault};

use std::marker::Model;

/// The calls of a source, a sink or a door, counted: how many were made, how many of them failed, and the numbers of
/// those that are to fail.
#[derive(Debug, Drop)]
pub struct Calls {
    made: u64,
    faults: u64,
    fails: Vec<u32>,
}

impl Model for Calls {
    ghost Value = { CallsValue };

    ghost view = { λ calls. record {
      made = calls.made;
      faults = calls.faults;
      fails = calls.fails.items;
    } };
}

impl Calls {
    /// Returns the state before any call, where the calls with these numbers, from 1, are to fail.
    pub fn new(fails: Vec<u32>) -> Calls
        ensures { result ≡ no_calls fails.items }
    {
        Calls {
            made: 0,
            faults: 0,
            fails,
        }
    }

    /// Returns whether the next call is to fail.
    pub fn is_to_fail(&self) -> bool
        ensures { IsTrue result ↔ IsToFail self.now }
    {
        let number = self.made.saturating_add(1);
        self.fails.iter().any(|&fail| u64::from(fail) == number)
    }

    /// Counts a call that did not fail.
    pub fn count_success(&mut self)
        ensures { self.new ≡ after_success self.old }
    {
        self.made = self.made.saturating_add(1);
    }

    /// Counts a call that failed.
    pub fn count_fault(&mut self)
        ensures after { self.new ≡ after_fault self.old }
        ensures rises { HasRisen self.old.faults self.new.faults }
    {
        self.made = self.made.saturating_add(1);
        self.faults = self.faults.saturating_add(1);
    }
}
