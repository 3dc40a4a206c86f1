//! From the events of a board to a published frame.

ghost use Rattle.std.specs.Prelude.{◌≡◌, IfOk, OnErr, OnOk, length};
ghost use Rattle.event_laws.specs.Changes.{change};
ghost use Rattle.mesh_board.specs.Board.{events_since, marked_events};
ghost use Rattle.scenes.specs.Publishing.{ShowsMarked};
ghost use Rattle.snapshots.specs.Seamless.{HasNoCrack};

use mesh_jobs::{Board, Mesher};
use published_frames::{Publisher, Told};
use std::alloc::{AllocError, Global};
use std::sync::Wait;
use std::thread::Threads;

/// Publishes the frame of a board's journal, for which the mesher meshes the leaves that aren't fresh, marks the
/// journal, and returns the news of the frame, for viewers to learn: what changed since the mark. Out of memory is the
/// only error, and leaves what is shown and what is marked. The frame that is shown then has no crack.
pub fn catch_up<M: Mesher, R: Threads + Wait + Sync>(
    rt: &R,
    alloc: Global,
    board: &mut Board,
    publisher: &mut Publisher,
    mesher: &mut M,
) -> Result<Told, AllocError>
    requires { ShowsMarked board.old publisher.old.frame }
    ensures shows { ShowsMarked board.new publisher.new.frame }
    ensures seamless { HasNoCrack publisher.new.frame }
    ensures same { publisher.new ≡ record publisher.old { frame = publisher.new.frame } }
    ensures world { board.new.world ≡ board.old.world }
    ensures published { OnOk result (publisher.new.frame.events ≡ board.old.world.events) }
    ensures marked { OnOk result (board.new.marked ≡ length board.old.world.events) }
    ensures news { IfOk result (λ news. news.frame ≡ publisher.new.frame) }
    ensures changes { let settings = board.old.world.settings in IfOk result (λ news. news.changes
        ≡ change settings (marked_events board.old) (events_since board.old)) }
    ensures unpublished { OnErr result (publisher.new ≡ publisher.old) }
    ensures unmarked { OnErr result (board.new.marked ≡ board.old.marked) }
{
    // Where memory runs out before the publication, the frame that is shown stays.
    let _shown = publisher.shown();
    mesher.settle(rt, alloc, board)?;
    let patch = board.patch(alloc)?;
    let news = publisher.publish(rt, alloc, patch)?;
    board.mark_published();
    Ok(news)
}
