//! A board with the publisher that shows it, on which lists of events are played.
//!
//! That the frame of the marked journal is shown is kept here, so that no test carries it along in its proof.

ghost use Rattle.std.specs.Prelude.{◌≡◌, ◌↔◌, [], All, IsTrue};
ghost use Rattle.lattice.specs.Settings.{IsSettings};
ghost use Rattle.mesh_board.specs.Board.{marked_events};
ghost use Rattle.terrain.specs.History.{IsLawfulEvent};

use crate::asserts::{expect, expect_made};
use cells::Cases;
use lattice::Settings;
use mesh_jobs::{Board, Mesher, settle};
use mesh_out::write_shot;
use published_frames::{PlainDoor, Publisher, Viewer, begin};
use schedules::{PlayFault, play};
use std::alloc::Global;
use std::marker::Model;
use std::process::Abort;
use std::sync::Wait;
use std::thread::Threads;
use terra_events::{Event, is_lawful};
use terra_io::MemSink;

/// What comes of events that are played: why they aren't played to their end, if they aren't, and then how many events
/// the world has, and how many the frame that is shown.
pub type Played = (Option<PlayFault>, usize, usize);

/// A board, and the publisher that shows the frame of its marked journal.
pub struct Stage {
    board: Board,
    publisher: Publisher,
}

impl Model for Stage {
    ghost use Rattle.scenes.specs.Publishing.{ShowsMarked};
    ghost use Rattle.scenes.specs.Scene.{SceneState, scene_of};

    ghost Value = { SceneState };

    ghost view = { λ stage. scene_of stage.board stage.publisher };

    ghost invariant = { λ stage. ShowsMarked stage.board stage.publisher.frame };
}

impl Stage {
    /// Returns a stage before any event, with so many viewers.
    pub fn open<R: Wait + Abort>(
        rt: &R,
        alloc: Global,
        cases: &Cases,
        settings: Settings,
        viewers: u8,
    ) -> (Stage, Vec<Viewer>)
        requires { IsSettings settings }
    {
        let board = expect_made(rt, Board::new(alloc, cases, settings));
        let mut door = PlainDoor::new();
        let begun = begin(rt, alloc, &mut door, cases, settings, viewers);
        let (publisher, viewers) = expect_made(rt, begun);
        (Stage { board, publisher }, viewers)
    }

    /// Returns a stage before any event, with no viewer.
    pub fn alone<R: Wait + Abort>(rt: &R, alloc: Global, cases: &Cases, settings: Settings) -> Stage
        requires { IsSettings settings }
    {
        let (stage, _viewers) = Stage::open(rt, alloc, cases, settings, 0);
        stage
    }

    /// Ends what it shows. It waits for viewers that are still in a frame.
    pub fn close<R: Wait>(self, rt: &R) {
        let Stage {
            board: _,
            publisher,
        } = self;
        publisher.close(rt);
    }

    /// Plays events by a mesher, all of which have to be lawful in the world, and asserts what comes of them.
    pub fn play<M: Mesher, R: Threads + Wait + Sync + Abort>(
        &mut self,
        rt: &R,
        alloc: Global,
        mesher: &mut M,
        events: &[Event],
        expected: Played,
    ) {
        let fault = self.fault_of(rt, alloc, mesher, events);
        let accepted = self.board.world().events().len();
        let shown = self.publisher.shown().events().len();
        expect(rt, "played", (fault, accepted, shown), expected);
    }

    /// Plays events, and returns why they aren't played to their end, if they aren't.
    fn fault_of<M: Mesher, R: Threads + Wait + Sync + Abort>(
        &mut self,
        rt: &R,
        alloc: Global,
        mesher: &mut M,
        events: &[Event],
    ) -> Option<PlayFault> {
        assert!(rt; are_lawful(events, self.board.world().settings()));
        play(
            rt,
            alloc,
            &mut self.board,
            &mut self.publisher,
            mesher,
            events,
        )
        .err()
    }

    /// Meshes all leaves, makes a patch and drops it.
    pub fn drop_patch(&mut self, rt: &impl Abort, alloc: Global, cases: &Cases) {
        expect_made(rt, settle(alloc, cases, &mut self.board));
        drop(expect_made(rt, self.board.patch(alloc)));
    }

    /// Takes the brick of a wanted leaf, and returns whether there was one.
    pub fn take(&mut self, rt: &impl Abort, alloc: Global) -> bool {
        expect_made(rt, self.board.take(alloc)).is_some()
    }

    /// Returns the shot of the frame that is shown, in at most so many bytes.
    pub fn shot(&self, rt: &impl Abort, alloc: Global, room: usize) -> MemSink {
        let mut sink = expect_made(rt, MemSink::new(alloc, room, Vec::new(alloc)));
        let shot = write_shot(alloc, &mut sink, 1, 0, self.publisher.shown());
        expect_made(rt, shot);
        sink
    }
}

/// Returns whether a world takes all these events.
fn are_lawful(events: &[Event], settings: &Settings) -> bool
    requires { IsSettings settings.now }
    ensures { IsTrue result ↔ All (IsLawfulEvent settings.now.depth) events.now }
{
    events.iter().all(|event| is_lawful(event, settings))
}
