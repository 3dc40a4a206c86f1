//! Viewers in threads of their own, while a mesher that misbehaves makes the frames.

use crate::played::Stage;
use crate::stage::new_cases;
use crate::watched::expect_told;
use cells::Cases;
use gates::NoGate;
use lattice::{Point, Settings};
use published_frames::Viewer;
use schedules::Chaos;
use std::alloc::Global;
use std::process::Abort;
use std::sync::Wait;
use std::thread::Threads;
use terra_events::{Brush, Event};
use terrain::Mode;
use watchers::{Counts, Watched, watch_beside};

/// A world whose levels are chosen near the camera alone.
const SMALL: Settings = Settings { depth: 2, reach: 1 };

/// How many viewers there are, and how often each enters.
const VIEWERS: u8 = 4;

const LOOKS: u32 = 50;

/// How many cameras are played, each by a call of its own.
const CAMERAS: usize = 200;

/// A ground, so that leaves of several levels meet along a surface.
const GROUND: Event = Event::Edit(Brush::Ground {
    mode: Mode::Fill,
    h: 8,
});

/// Where the camera goes round.
static ROUND: [Event; 4] = [
    Event::Camera {
        view: 0,
        at: Point { z: 0, y: 0, x: 0 },
    },
    Event::Camera {
        view: 0,
        at: Point {
            z: 64,
            y: 64,
            x: 64,
        },
    },
    Event::Camera {
        view: 0,
        at: Point {
            z: 32,
            y: 32,
            x: 32,
        },
    },
    Event::Camera {
        view: 0,
        at: Point { z: 0, y: 0, x: 64 },
    },
];

/// Plays a ground and then one camera after another, each of which is published.
fn play_cameras<R: Threads + Wait + Sync + Abort>(
    rt: &R,
    alloc: Global,
    cases: &Cases,
    stage: &mut Stage,
) {
    let mut mesher = Chaos::new(alloc, cases, 1);
    stage.play(rt, alloc, &mut mesher, &[GROUND], (None, 1, 1));
    for number in 0..CAMERAS {
        let events = number + 2;
        let camera = ROUND[number % 4];
        stage.play(rt, alloc, &mut mesher, &[camera], (None, events, events));
    }
}

/// All watchers made all their looks, and found no crack and no frame from before the last.
const WHOLE: Watched = Watched {
    counts: Counts {
        looks: VIEWERS as u32 * LOOKS,
        cracks: 0,
        backward: 0,
    },
    left: 0,
};

/// Plays cameras beside watchers, and asserts what these tell together.
fn play_watched<R: Threads + Wait + Sync + Abort>(
    rt: &R,
    alloc: Global,
    cases: &Cases,
    stage: &mut Stage,
    viewers: Vec<Viewer>,
) {
    let mut work = || play_cameras(rt, alloc, cases, stage);
    let (told, ()) = watch_beside(rt, alloc, viewers, LOOKS, &NoGate, &mut work);
    expect_told(rt, told, WHOLE);
}

#[test]
fn viewers_see_whole_frames_in_order(rt: HostRuntime) {
    let cases = new_cases(&rt, rt.alloc());
    let (mut stage, viewers) = Stage::open(&rt, rt.alloc(), &cases, SMALL, VIEWERS);
    play_watched(&rt, rt.alloc(), &cases, &mut stage, viewers);
    stage.close(&rt);
}
