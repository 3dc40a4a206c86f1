//! A journal that has no more room.

use crate::asserts::expect_made;
use crate::played::{Played, Stage};
use crate::stage::new_cases;
use cells::Cases;
use lattice::{Point, Settings};
use mesh_jobs::Bulk;
use schedules::PlayFault;
use std::alloc::Global;
use std::process::Abort;
use std::sync::Wait;
use std::thread::Threads;
use terra_events::Event;

/// A world of one leaf.
const SINGLE: Settings = Settings { depth: 0, reach: 0 };

const CAMERA: Event = Event::Camera {
    view: 0,
    at: Point { z: 0, y: 0, x: 0 },
};

/// A journal has room for one event more.
const EVENTS: usize = 65_534;

const MANY: Played = (None, 65_534, 65_534);

const FULL: Played = (Some(PlayFault::Full { accepted: 1 }), 65_535, 65_534);

/// Plays so many events that one more fits, and then three, and asserts what comes of these.
fn play_both<R: Threads + Wait + Sync + Abort>(
    rt: &R,
    alloc: Global,
    cases: &Cases,
    stage: &mut Stage,
) {
    let many = expect_made(rt, vec![in alloc; CAMERA; EVENTS]);
    let mut mesher = Bulk::new(cases);
    stage.play(rt, alloc, &mut mesher, &many, MANY);
    stage.play(rt, alloc, &mut mesher, &[CAMERA; 3], FULL);
}

#[test]
fn stops_at_the_event_for_which_there_is_no_room(rt: HostRuntime) {
    let cases = new_cases(&rt, rt.alloc());
    let mut stage = Stage::alone(&rt, rt.alloc(), &cases, SINGLE);
    play_both(&rt, rt.alloc(), &cases, &mut stage);
    stage.close(&rt);
}
