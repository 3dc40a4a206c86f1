//! Lists of events with undos.

use crate::played::{Played, Stage};
use crate::stage::new_cases;
use cells::Cases;
use lattice::{Point, Settings};
use mesh_jobs::Bulk;
use schedules::PlayFault;
use std::alloc::Global;
use std::process::Abort;
use std::sync::Wait;
use std::thread::Threads;
use terra_events::{Brush, Event};
use terrain::Mode;

/// A world of one leaf.
const SINGLE: Settings = Settings { depth: 0, reach: 0 };

const GROUND: Event = Event::Edit(Brush::Ground {
    mode: Mode::Fill,
    h: 8,
});

const CAMERA: Event = Event::Camera {
    view: 0,
    at: Point { z: 0, y: 0, x: 0 },
};

/// The third undo has no edit in force before it.
static TOO_MANY: [Event; 8] = [
    GROUND,
    GROUND,
    Event::Undo,
    CAMERA,
    Event::Undo,
    Event::Undo,
    GROUND,
    Event::Undo,
];

/// An edit and its undo are played to their end.
const BOTH: Played = (None, 2, 2);

/// The five events before it are accepted, and not shown; the journal then has those of the first list too.
const STOPPED: Played = (Some(PlayFault::NothingToUndo { accepted: 5 }), 7, 2);

/// Plays an edit and its undo, and then the list with an undo too many, and asserts what comes of it.
fn play_both<R: Threads + Wait + Sync + Abort>(
    rt: &R,
    alloc: Global,
    cases: &Cases,
    stage: &mut Stage,
) {
    let mut mesher = Bulk::new(cases);
    stage.play(rt, alloc, &mut mesher, &[GROUND, Event::Undo], BOTH);
    stage.play(rt, alloc, &mut mesher, &TOO_MANY, STOPPED);
}

#[test]
fn stops_at_the_undo_that_has_no_edit(rt: HostRuntime) {
    let cases = new_cases(&rt, rt.alloc());
    let mut stage = Stage::alone(&rt, rt.alloc(), &cases, SINGLE);
    play_both(&rt, rt.alloc(), &cases, &mut stage);
    stage.close(&rt);
}
