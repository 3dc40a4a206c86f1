//! Journals that begin with other ones.

ghost use Rattle.std.specs.Prelude.{◌↔◌, IsTrue};
ghost use Rattle.published_frames.specs.Pasts.{BeginsWith};

use terrain::Event;

/// Returns whether a journal begins with another one.
pub fn begins_with(journal: &[Event], front: &[Event]) -> bool
    ensures { IsTrue result ↔ BeginsWith journal.now front.now }
{
    journal.starts_with(front)
}
