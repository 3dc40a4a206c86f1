//! Doors, through which viewers come to frames.
//!
//! `Door::open` is a hop of its own between `Viewer::enter` and `Viewer::enter_now`, so that a test can have entries
//! refused.

ghost use Rattle.std.specs.Prelude.{◌≡◌, ◌↔◌, IfSome, IsErr, IsTrue, MatchOption, MatchResult, None, ℕ};
ghost use Rattle.published_frames.specs.States.{IsEntry, viewer_of, with_viewer};
ghost use Rattle.fault_counts.specs.Counts.{HasRisen, next_count};
ghost use Rattle.fault_counts.specs.Calls.{IsToFail, no_calls};

use crate::publisher::Publisher;
use crate::viewer::{Entered, NoPlace, Viewer};
use fault_counts::Calls;
use std::marker::Model;

/// What makes viewers and lets them in. It may refuse to, and counts how often it did, and how often it let one in.
pub trait Door {
    // How often the door has refused; a count that never falls.
    ghost refusals: { Self → ℕ };
    // How often the door has let a viewer in.
    ghost entries: { Self → ℕ };

    /// Returns a viewer of the publisher's own, which has seen the published frame; the publisher has given one more
    /// then. It returns none only where the count of refusals rose.
    fn seat(&mut self, publisher: &mut Publisher) -> Option<Viewer>
        ensures publisher { MatchOption result (publisher.new ≡ publisher.old)
            (λ _. publisher.new ≡ with_viewer publisher.old) }
        ensures viewer { IfSome result (λ viewer. viewer ≡ viewer_of publisher.old) }
        ensures counted { MatchOption result (HasRisen (refusals self.old) (refusals self.new))
            (λ _. refusals self.new ≡ refusals self.old) }
        ensures entries { entries self.new ≡ entries self.old };

    /// Returns the viewer with the frame that is published now, which is of its series and goes on from all that the
    /// viewer has seen and learnt; that is one entry more. The error hands the viewer back, and comes only where the
    /// count of refusals rose.
    fn open(&mut self, viewer: Viewer) -> Result<Entered, NoPlace>
        ensures entered { MatchResult result (IsEntry viewer)
            (λ refused. refused.viewer ≡ viewer) }
        ensures counted { MatchResult result (λ _. refusals self.new ≡ refusals self.old)
            (λ _. HasRisen (refusals self.old) (refusals self.new)) }
        ensures entries { MatchResult result
            (λ _. entries self.new ≡ next_count (entries self.old))
            (λ _. entries self.new ≡ entries self.old) };
}

/// The door that refuses only where no place is left, the publisher was closed, or a viewer has learnt the news of
/// another series, from which the published frame doesn't go on.
///
/// Contracts see how often it has refused, and how often it has let a viewer in.
#[derive(Debug, Drop)]
pub struct PlainDoor {
    refusals: u64,
    entries: u64,
}

impl Model for PlainDoor {
    ghost use Rattle.published_frames.specs.Doors.{DoorState};

    ghost Value = { DoorState };

    ghost view = { λ door. record { refusals = door.refusals; entries = door.entries } };
}

impl PlainDoor {
    /// Returns a door that has refused nothing yet, and let nobody in.
    pub fn new() -> PlainDoor
        ensures { result ≡ record { refusals = 0; entries = 0 } }
    {
        PlainDoor {
            refusals: 0,
            entries: 0,
        }
    }

    /// Counts a refusal.
    fn count_refusal(&mut self)
        ensures once { self.new ≡ record self.old { refusals = next_count self.old.refusals } }
        ensures rises { HasRisen self.old.refusals self.new.refusals }
    {
        self.refusals = self.refusals.saturating_add(1);
    }

    /// Counts an entry.
    fn count_entry(&mut self)
        ensures { self.new ≡ record self.old { entries = next_count self.old.entries } }
    {
        self.entries = self.entries.saturating_add(1);
    }
}

impl Door for PlainDoor {
    ghost refusals = { λ door. door.refusals };

    ghost entries = { λ door. door.entries };

    fn seat(&mut self, publisher: &mut Publisher) -> Option<Viewer> {
        let viewer = publisher.seat();
        if viewer.is_none() {
            self.count_refusal();
        }
        viewer
    }

    fn open(&mut self, viewer: Viewer) -> Result<Entered, NoPlace> {
        match viewer.enter_now() {
            Ok(entered) => {
                self.count_entry();
                Ok(entered)
            }
            Err(viewer) => {
                self.count_refusal();
                Err(NoPlace { viewer })
            }
        }
    }
}

/// The door that also refuses the calls with given numbers, those of both methods counted together.
///
/// Contracts see its calls, how many were made, how many were refused, and which are to be refused; and how many of
/// those that weren't were entries.
#[derive(Debug, Drop)]
pub struct TestDoor {
    calls: Calls,
    entries: u64,
}

impl Model for TestDoor {
    ghost use Rattle.published_frames.specs.Doors.{TestDoorState};

    ghost Value = { TestDoorState };

    ghost view = { λ door. record { calls = door.calls; entries = door.entries } };
}

impl TestDoor {
    /// Returns a door that has let nobody in yet, and refuses the calls whose numbers, from 1, are in `fails`.
    pub fn new(fails: Vec<u32>) -> TestDoor
        ensures { result ≡ record { calls = no_calls fails.items; entries = 0 } }
    {
        TestDoor {
            calls: Calls::new(fails),
            entries: 0,
        }
    }
}

impl Door for TestDoor {
    ghost refusals = { λ door. door.calls.faults };

    ghost entries = { λ door. door.entries };

    // It also refuses the calls that it is told to.
    fn seat(&mut self, publisher: &mut Publisher) -> Option<Viewer>
        ensures publisher { MatchOption result (publisher.new ≡ publisher.old)
            (λ _. publisher.new ≡ with_viewer publisher.old) }
        ensures viewer { IfSome result (λ viewer. viewer ≡ viewer_of publisher.old) }
        ensures counted { MatchOption result (HasRisen self.old.calls.faults self.new.calls.faults)
            (λ _. self.new.calls.faults ≡ self.old.calls.faults) }
        ensures entries { self.new.entries ≡ self.old.entries }
        ensures refused { IsToFail self.old.calls → result ≡ None }
        ensures calls { self.new.calls ≡ record self.old.calls {
          made = next_count self.old.calls.made;
          faults = self.new.calls.faults;
        } }
    {
        if self.calls.is_to_fail() {
            self.calls.count_fault();
            return None;
        }
        let viewer = publisher.seat();
        if viewer.is_some() {
            self.calls.count_success();
        } else {
            self.calls.count_fault();
        }
        viewer
    }

    // It also refuses the calls that it is told to.
    fn open(&mut self, viewer: Viewer) -> Result<Entered, NoPlace>
        ensures entered { MatchResult result (IsEntry viewer)
            (λ refused. refused.viewer ≡ viewer) }
        ensures counted { MatchResult result
            (λ _. self.new.calls.faults ≡ self.old.calls.faults)
            (λ _. HasRisen self.old.calls.faults self.new.calls.faults) }
        ensures entries { MatchResult result
            (λ _. self.new.entries ≡ next_count self.old.entries)
            (λ _. self.new.entries ≡ self.old.entries) }
        ensures refused { IsToFail self.old.calls → IsErr result }
        ensures calls { self.new.calls ≡ record self.old.calls {
          made = next_count self.old.calls.made;
          faults = self.new.calls.faults;
        } }
    {
        if self.calls.is_to_fail() {
            self.calls.count_fault();
            return Err(NoPlace { viewer });
        }
        match viewer.enter_now() {
            Ok(entered) => {
                self.calls.count_success();
                self.entries = self.entries.saturating_add(1);
                Ok(entered)
            }
            Err(viewer) => {
                self.calls.count_fault();
                Err(NoPlace { viewer })
            }
        }
    }
}
