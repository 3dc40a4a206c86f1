//! Hills with a cave, whose events are played at once, by a mesher that misbehaves.

use crate::asserts::expect;
use crate::played::{Played, Stage};
use crate::stage::new_cases;
use cells::Cases;
use lattice::{Point, Settings};
use mesh_jobs::{Bulk, Mesher};
use schedules::Chaos;
use std::alloc::Global;
use std::process::Abort;
use std::sync::Wait;
use std::thread::Threads;
use terra_events::{Brush, Event};
use terra_io::MemSink;
use terrain::Mode;

/// The world of the hills.
const WORLD: Settings = Settings { depth: 3, reach: 2 };

/// A mesher misbehaves in so many ways.
const WAYS: u32 = 16;

/// The shot has fewer bytes.
const ROOM: usize = 1 << 22;

/// The shot has more: it is none of an empty world.
const LEAST: usize = 1 << 19;

static EVENTS: [Event; 9] = [
    Event::Camera {
        view: 0,
        at: Point {
            z: 48,
            y: 64,
            x: 64,
        },
    },
    Event::Edit(Brush::Ground {
        mode: Mode::Fill,
        h: 40,
    }),
    Event::Edit(Brush::Ball {
        mode: Mode::Fill,
        at: Point {
            z: 44,
            y: 60,
            x: 70,
        },
        r: 12,
    }),
    Event::Edit(Brush::Ball {
        mode: Mode::Carve,
        at: Point {
            z: 40,
            y: 66,
            x: 52,
        },
        r: 9,
    }),
    Event::Edit(Brush::Ball {
        mode: Mode::Carve,
        at: Point {
            z: 34,
            y: 66,
            x: 58,
        },
        r: 7,
    }),
    Event::Edit(Brush::Smooth {
        lo: Point {
            z: 28,
            y: 50,
            x: 44,
        },
        hi: Point {
            z: 60,
            y: 78,
            x: 84,
        },
    }),
    Event::Camera {
        view: 0,
        at: Point {
            z: 48,
            y: 64,
            x: 20,
        },
    },
    Event::Camera {
        view: 0,
        at: Point {
            z: 48,
            y: 20,
            x: 20,
        },
    },
    Event::Camera {
        view: 0,
        at: Point {
            z: 48,
            y: 20,
            x: 110,
        },
    },
];

/// All events are accepted, and shown.
const WHOLE: Played = (None, 9, 9);

/// Returns the shot of the hills, played by a mesher.
fn shot_by<M: Mesher, R: Threads + Wait + Sync + Abort>(
    rt: &R,
    alloc: Global,
    cases: &Cases,
    mesher: &mut M,
) -> MemSink {
    let mut stage = Stage::alone(rt, alloc, cases, WORLD);
    stage.play(rt, alloc, mesher, &EVENTS, WHOLE);
    let shot = stage.shot(rt, alloc, ROOM);
    stage.close(rt);
    shot
}

/// Asserts that the shot is this one in one of the ways to misbehave.
fn expect_same<R: Threads + Wait + Sync + Abort>(
    rt: &R,
    alloc: Global,
    cases: &Cases,
    plain: &MemSink,
    first: u32,
) {
    let shot = shot_by(rt, alloc, cases, &mut Chaos::new(alloc, cases, first));
    expect(rt, first, shot.bytes() == plain.bytes(), true);
}

#[test]
fn shows_the_same_whatever_a_mesher_does(rt: HostRuntime) {
    let cases = new_cases(&rt, rt.alloc());
    let plain = shot_by(&rt, rt.alloc(), &cases, &mut Bulk::new(&cases));
    expect(&rt, "more than least", plain.bytes().len() > LEAST, true);
    for first in 0..WAYS {
        expect_same(&rt, rt.alloc(), &cases, &plain, first);
    }
}
