//! Events that are played on a board, and then published.

ghost use Rattle.std.specs.Prelude.{◌≡◌, ◌≤◌, ◌++◌, All, IfOk, MatchResult, OnErr, OnOk, length};
ghost use Rattle.event_laws.specs.Changes.{change};
ghost use Rattle.mesh_board.specs.Board.{events_since, marked_events};
ghost use Rattle.scenes.specs.Publishing.{ShowsMarked};
ghost use Rattle.schedules.specs.Playing.{GrowsBy, StopsAt};
ghost use Rattle.snapshots.specs.Seamless.{HasNoCrack};
ghost use Rattle.terrain.specs.History.{IsLawfulEvent};
ghost use Rattle.terrain.specs.declared.event.TheConstants.{MAX_EVENTS};

use crate::fault::PlayFault;
use mesh_jobs::{Board, Mesher};
use published_frames::{Publisher, Told};
use scenes::catch_up;
use std::alloc::Global;
use std::sync::Wait;
use std::thread::Threads;
use terra_events::{ApplyFault, Event};

/// Applies events to a board, one after another, after each of which the mesher goes on; then publishes the frame of
/// the board's journal, marks the journal, and returns the news of the frame. The error is `Full` with the number of
/// accepted events, exactly where the journal is full before the next of them, `NothingToUndo` with that number exactly
/// where it isn't and the next of them is an undo with no edit in force, and else out of memory: what is shown and what
/// is marked stay, and the events that were accepted stay in the journal.
pub fn play<M: Mesher, R: Threads + Wait + Sync>(
    rt: &R,
    alloc: Global,
    board: &mut Board,
    publisher: &mut Publisher,
    mesher: &mut M,
    events: &[Event],
) -> Result<Told, PlayFault>
    requires shows { ShowsMarked board.old publisher.old.frame }
    requires lawful { All (IsLawfulEvent board.old.world.settings.depth) events.now }
    ensures shows { ShowsMarked board.new publisher.new.frame }
    ensures seamless { HasNoCrack publisher.new.frame }
    ensures same { publisher.new ≡ record publisher.old { frame = publisher.new.frame } }
    ensures settings { board.new.world.settings ≡ board.old.world.settings }
    ensures journal { let old = board.old.world.events in let new = board.new.world.events in
        MatchResult result (λ _. GrowsBy old events.now new × (length new ≤ MAX_EVENTS))
        (λ fault. StopsAt old events.now fault new) }
    ensures published { OnOk result (publisher.new.frame.events ≡ board.new.world.events) }
    ensures marked { OnOk result (board.new.marked ≡ length board.new.world.events) }
    ensures news { IfOk result (λ news. news.frame ≡ publisher.new.frame) }
    ensures changes { let settings = board.old.world.settings in
        IfOk result (λ news. news.changes
        ≡ change settings (marked_events board.old) (events_since board.old ++ events.now)) }
    ensures unpublished { OnErr result (publisher.new ≡ publisher.old) }
    ensures unmarked { OnErr result (board.new.marked ≡ board.old.marked) }
{
    // Where an event isn't accepted, the frame that is shown stays.
    let _shown = publisher.shown();
    apply_all(alloc, board, mesher, events)?;
    match catch_up(rt, alloc, board, publisher, mesher) {
        Ok(news) => Ok(news),
        Err(_) => Err(PlayFault::NoMemory),
    }
}

/// Applies events to a board, one after another, after each of which the mesher goes on. The error is `Full` or
/// `NothingToUndo` with the number of accepted events, exactly where the next of them is refused for that, and else out
/// of memory.
///
/// What the mesher doesn't get to, it does when it settles, so that memory which it lacks is no error.
fn apply_all<M: Mesher>(
    alloc: Global,
    board: &mut Board,
    mesher: &mut M,
    events: &[Event],
) -> Result<(), PlayFault>
    requires { All (IsLawfulEvent board.old.world.settings.depth) events.now }
    ensures settings { board.new.world.settings ≡ board.old.world.settings }
    ensures marked { board.new.marked ≡ board.old.marked }
    ensures marked_events { marked_events board.new ≡ marked_events board.old }
    ensures since { OnOk result (events_since board.new ≡ events_since board.old ++ events.now) }
    ensures journal { let old = board.old.world.events in let new = board.new.world.events in
        MatchResult result (λ _. GrowsBy old events.now new)
        (λ fault. StopsAt old events.now fault new) }
{
    let _ = board.world().events();
    for (number, event) in events.iter().enumerate() {
        match board.apply(alloc, *event) {
            Ok(()) => (),
            Err(ApplyFault::NoMemory) => return Err(PlayFault::NoMemory),
            Err(ApplyFault::Full) => {
                let accepted = number as u32;
                return Err(PlayFault::Full { accepted });
            }
            Err(ApplyFault::NothingToUndo) => {
                let accepted = number as u32;
                return Err(PlayFault::NothingToUndo { accepted });
            }
        }
        let _ = mesher.feed(alloc, board);
    }
    Ok(())
}
