//! One look at a frame: what is counted with it, and what a gate is told of it.

ghost use Rattle.std.specs.Prelude.{◌≡◌, ◌+◌, ◌<◌, ◌≤◌, ◌^◌, ◌↔◌, IfOk, IsTrue};
ghost use Rattle.published_frames.specs.Pasts.{BeginsWith};
ghost use Rattle.snapshots.specs.Frame.{IsSound};
ghost use Rattle.watchers.specs.Looks.{CountsLook};

use audits::{Audit, Counts};
use gates::MeshGate;
use published_frames::begins_with;
use snapshots::Frame;
use std::alloc::{AllocError, Global};
use terrain::Event;

/// Returns the counts with one look more, at a frame, where `last` is the journal of the look before. The gate is told
/// that this watcher looked. Out of memory is the only error.
pub(crate) fn with_look<G: MeshGate>(
    counts: Counts,
    alloc: Global,
    last: &[Event],
    frame: &Frame,
    watcher: u8,
    gate: &G,
) -> Result<Counts, AllocError>
    requires sound { IsSound frame.now }
    requires room { (counts.looks + 1 < 2 ^ 32) × (counts.backward ≤ counts.looks) }
    ensures counted { IfOk result (CountsLook counts last.now frame.now) }
    ensures whole { IfOk result (λ more. more.cracks ≡ counts.cracks) }
{
    let audit = Audit::of(alloc, frame)?;
    let events = frame.events();
    let is_backward = goes_back(last, events);
    gate.look(watcher, events.len() as u32);
    Ok(Counts {
        looks: counts.looks + 1,
        cracks: counts.cracks + audit.cracks,
        backward: counts.backward + u32::from(is_backward),
    })
}

/// Returns whether a journal doesn't begin with the one of an earlier look.
fn goes_back(last: &[Event], journal: &[Event]) -> bool
    ensures { IsTrue result ↔ (BeginsWith journal.now last.now → ⊥) }
{
    !begins_with(journal, last)
}
