//! Editors, and editors that have ended.

ghost use Rattle.std.specs.Prelude.{◌≡◌};

use crate::note::Note;
use crate::shown::Shown;
use crossbeam_queue::Pass;

/// Who sends events through a mail. It takes no memory, and may go to any thread.
///
/// Contracts see its number and the events that it has sent. An editor that is dropped never ends.
#[derive(Drop)]
pub struct Editor {
    pub(crate) pass: Pass<Note, Shown>,
    pub(crate) number: u8,
}

/// An editor that has sent its end note. Contracts see its number and all events that it sent.
#[derive(Drop)]
pub struct Ended {
    pub(crate) pass: Pass<Note, Shown>,
    pub(crate) number: u8,
}

impl Editor {
    /// Returns the editor's number, from 0.
    pub fn number(&self) -> u8
        ensures { result ≡ self.now.number }
    {
        self.number
    }
}

impl Ended {
    /// Returns the editor's number, from 0.
    pub fn number(&self) -> u8
        ensures { result ≡ self.now.number }
    {
        self.number
    }
}
