//! What a watcher does.

ghost use Rattle.std.specs.Prelude.{◌≡◌, ◌<◌, [], IfOk, IfSome, MatchOption, OnErr};
ghost use Rattle.std.specs.Arc.{arc_value};
ghost use Rattle.snapshots.specs.Frame.{IsSound};
ghost use Rattle.fault_counts.specs.Counts.{HasRisen};
ghost use Rattle.watchers.specs.Looks.{IsClean, IsWatched, count_after};

use crate::look::with_look;
use audits::Counts;
use gates::MeshGate;
use published_frames::{Door, PlainDoor, Viewer};
use snapshots::Frame;
use std::alloc::{AllocError, Global};
use std::sync::Arc;
use terrain::Event;

/// What watchers tell.
#[derive(Clone, Copy, Debug, PartialEq, Eq)]
pub struct Watched {
    /// What the looks counted that were made.
    pub counts: Counts,
    /// How many looks weren't made, since a door let no viewer in.
    pub left: u32,
}

/// What one watcher tells, and the door that it entered by, which was used for nothing else.
#[derive(Debug, Drop)]
pub struct Report {
    /// What the watcher tells.
    pub watched: Watched,
    /// The watcher's own door, which counts its entries.
    pub door: PlainDoor,
}

/// Enters so many frames by a door, one after another, audits each of them, and returns what these looks counted. Each
/// look is one entry. No frame has a crack, and no look is backward.
///
/// After each look, when it has left the frame, the gate is told which watcher looked and how many events the frame's
/// journal has. Where the door lets the viewer in no more, the looks that are left aren't made. Out of memory is the
/// only error.
pub fn watch<D: Door, G: MeshGate>(
    alloc: Global,
    viewer: Viewer,
    door: &mut D,
    looks: u32,
    watcher: u8,
    gate: &G,
) -> Result<Watched, AllocError>
    ensures watched { IfOk result (IsWatched looks) }
    ensures entered { IfOk result (λ watched. D.entries door.new
        ≡ count_after (D.entries door.old) watched.counts.looks) }
    ensures let_in { IfOk result (λ watched. watched.left ≡ 0
        → D.refusals door.new ≡ D.refusals door.old) }
    ensures refused { IfOk result (λ watched. 0 < watched.left
        → HasRisen (D.refusals door.old) (D.refusals door.new)) }
    ensures failed { OnErr result (D.refusals door.new ≡ D.refusals door.old) }
{
    let mut viewer = viewer;
    let mut last = None;
    let mut counts = Counts::new();
    for _ in 0..looks {
        let Ok(entered) = viewer.enter(door) else {
            break;
        };
        let frame = entered.share()?;
        viewer = entered.leave();
        counts = with_look(counts, alloc, journal_of(&last), &frame, watcher, gate)?;
        last = Some(frame);
    }
    Ok(Watched {
        counts,
        left: looks - counts.looks,
    })
}

/// Looks at one frame so many times in the place of a watcher, audits it each time, and returns what these looks
/// counted. The gate is told of each look, as `watch` tells it. Out of memory is the only error.
pub fn look_on<G: MeshGate>(
    alloc: Global,
    frame: &Frame,
    looks: u32,
    watcher: u8,
    gate: &G,
) -> Result<Counts, AllocError>
    requires { IsSound frame.now }
    ensures looks { IfOk result (λ counts. counts.looks ≡ looks) }
    ensures clean { IfOk result IsClean }
{
    let mut last: &[Event] = &[];
    let mut counts = Counts::new();
    for _ in 0..looks {
        counts = with_look(counts, alloc, last, frame, watcher, gate)?;
        last = frame.events();
    }
    Ok(counts)
}

/// Lends the journal of the frame of the last look, which is empty where there was none.
fn journal_of(last: &Option<Arc<Frame>>) -> &[Event]
    requires { IfSome last.now (λ frame. IsSound (arc_value frame)) }
    ensures { MatchOption last.now (result.now ≡ [])
        (λ frame. result.now ≡ (arc_value frame).events) }
{
    match last {
        Some(frame) => frame.events(),
        None => &[],
    }
}
