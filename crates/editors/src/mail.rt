//! Mails.

ghost use Rattle.std.specs.Prelude.{◌≡◌};
ghost use Rattle.lattice.specs.Settings.{IsSettings};

use crate::note::Note;
use crate::rule::Delivery;
use crate::shown::Shown;
use crossbeam_queue::RuledArrayQueue;
use crossbeam_utils::sync::EventCount;
use lattice::Settings;

/// How many editors a mail has at most.
pub const MAX_EDITORS: u8 = 8;

/// How many notes are in a mail's queue at most.
pub const PLACES: usize = 64;

/// The mail between editors and their clerk: a queue of `PLACES` places, which all of them share, for the events of
/// worlds of some settings.
///
/// Contracts see the settings.
#[derive(Drop)]
pub struct Mail {
    pub(crate) settings: Settings,
    pub(crate) queue: RuledArrayQueue<Note, Shown, Delivery>,
    /// Who waits for a place in the queue.
    pub(crate) places: EventCount,
    /// Who waits for a note in the queue.
    pub(crate) arrivals: EventCount,
    pub ghost allowed: { IsSettings settings },
}

impl Mail {
    /// Returns the settings of the worlds whose events are sent.
    pub fn settings(&self) -> &Settings
        ensures value { result.now ≡ self.now.settings }
        ensures allowed { IsSettings result.now }
    {
        &self.settings
    }
}
