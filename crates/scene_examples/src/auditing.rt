//! Audits of published frames and of triangles alone: how many directed edges there are, and what is left open.

use crate::asserts::{expect, expect_made};
use crate::stage::{new_cases, open_alone, shows};
use audits::Audit;
use camera_script::Command;
use drills::drill_script;
use lattice::{Axis, Key, Point, Settings};
use mesh_jobs::Bulk;
use scenes::Scene;
use std::alloc::Global;
use std::fmt::Debug;
use std::process::Abort;
use std::sync::Wait;
use std::thread::Threads;
use terra_events::{Brush, Event};
use terrain::Mode;

/// How many edges there are, how many cracks, and how many pairs that are open on the border.
type Counts = (u64, u64, u64);

/// A world of one leaf.
const ONE_LEAF: Settings = Settings { depth: 0, reach: 0 };

/// A world in which leaves of level 0 and 1 meet at x = 32 for a camera in the corner.
pub const TWO_LEVELS: Settings = Settings { depth: 2, reach: 1 };

/// The world of a drill of depth 3.
const DRILLED: Settings = Settings { depth: 3, reach: 2 };

pub const SEE_CORNER: Event = Event::Camera {
    view: 0,
    at: Point { z: 0, y: 0, x: 0 },
};

const MIDDLE: Point = Point { z: 8, y: 8, x: 8 };

const BESIDE: Point = Point { z: 8, y: 9, x: 9 };

const ON_EDGE: Point = Point { z: 8, y: 9, x: 32 };

pub const FILL_MIDDLE: Event = Event::Edit(Brush::Cuboid {
    mode: Mode::Fill,
    lo: MIDDLE,
    hi: MIDDLE,
});

const FILL_BESIDE: Event = Event::Edit(Brush::Cuboid {
    mode: Mode::Fill,
    lo: BESIDE,
    hi: BESIDE,
});

const FILL_CORNER: Event = Event::Edit(Brush::Cuboid {
    mode: Mode::Fill,
    lo: Point { z: 0, y: 0, x: 0 },
    hi: Point { z: 0, y: 0, x: 0 },
});

const FILL_EDGE: Event = Event::Edit(Brush::Cuboid {
    mode: Mode::Fill,
    lo: ON_EDGE,
    hi: ON_EDGE,
});

const GROUND: Event = Event::Edit(Brush::Ground {
    mode: Mode::Fill,
    h: 8,
});

const POINT: [Event; 1] = [FILL_MIDDLE];

const CORNER: [Event; 1] = [FILL_CORNER];

/// Two points across from each other in an ambiguous square.
const DIAGONAL: [Event; 2] = [FILL_MIDDLE, FILL_BESIDE];

/// A point in the middle of an edge of a coarse leaf.
const COARSE_EDGE: [Event; 2] = [SEE_CORNER, FILL_EDGE];

const TWO_LEVEL_GROUND: [Event; 2] = [SEE_CORNER, GROUND];

/// Asserts how many edges an audit has, how many cracks, and how many pairs that are open on the border.
fn expect_counts<C: Copy + Debug>(rt: &impl Abort, case: C, audit: Audit, counts: Counts) {
    expect(rt, case, (audit.edges, audit.cracks, audit.border), counts);
}

/// Shows events in a scene, and asserts the counts of their frame.
fn show_and_count<C: Copy + Debug, R: Threads + Wait + Sync + Abort>(
    rt: &R,
    alloc: Global,
    scene: &mut Scene<Bulk<'_>>,
    case: C,
    events: &[Event],
    counts: Counts,
) {
    shows(rt, alloc, scene, events);
    let audit = expect_made(rt, Audit::of(alloc, scene.shown()));
    expect_counts(rt, case, audit, counts);
}

/// Shows events in a scene of their own, and asserts the counts of their frame.
fn count_in<C: Copy + Debug, R: Threads + Wait + Sync + Abort>(
    rt: &R,
    alloc: Global,
    case: C,
    settings: Settings,
    events: &[Event],
    counts: Counts,
) {
    let cases = new_cases(rt, alloc);
    let mut scene = open_alone(rt, alloc, &cases, settings);
    show_and_count(rt, alloc, &mut scene, case, events, counts);
    scene.close(rt);
}

/// A case's name, a world and events, with what it has then.
type Case = (&'static str, Settings, &'static [Event], Counts);

static CASES: [Case; 5] = [
    ("a point", ONE_LEAF, &POINT, (24, 0, 0)),
    ("a corner", ONE_LEAF, &CORNER, (3, 0, 3)),
    ("a diagonal", ONE_LEAF, &DIAGONAL, (48, 0, 0)),
    ("a coarse edge", TWO_LEVELS, &COARSE_EDGE, (18, 0, 0)),
    ("a ground", TWO_LEVELS, &TWO_LEVEL_GROUND, (11040, 0, 162)),
];

#[test]
fn finds_no_crack_in_worked_examples(rt: HostRuntime) {
    for (name, settings, events, counts) in &CASES {
        count_in(&rt, rt.alloc(), *name, *settings, events, *counts);
    }
}

/// Returns the events of a drill of depth 3.
fn drilled(rt: &impl Abort, alloc: Global, seed: u32) -> Vec<Event> {
    let commands = expect_made(rt, drill_script(alloc, seed, 24, DRILLED.depth));
    let mut events = Vec::new(alloc);
    for command in &commands {
        if let Command::Event(event) = command {
            expect_made(rt, events.push(*event));
        }
    }
    events
}

#[test]
fn finds_no_crack_after_a_drill(rt: HostRuntime) {
    let events = drilled(&rt, rt.alloc(), 7);
    let counts = (45684, 0, 368);
    count_in(&rt, rt.alloc(), "seed 7", DRILLED, &events, counts);
}

/// Four keys off the border of the world.
const A: Key = Key {
    level: 0,
    at: MIDDLE,
    axis: Axis::X,
};

const B: Key = Key { axis: Axis::Y, ..A };

const C: Key = Key { axis: Axis::Z, ..A };

const D: Key = Key { at: BESIDE, ..A };

/// Two keys in the plane z = 0 of the border, and one that stands on it.
const FLAT: Key = Key {
    at: Point { z: 0, y: 8, x: 8 },
    ..A
};

const FLAT_TOO: Key = Key {
    axis: Axis::Y,
    ..FLAT
};

const UPRIGHT: Key = Key {
    axis: Axis::Z,
    ..FLAT
};

/// Triangles alone, each list with its counts.
static ALONE: [(&[[Key; 3]], Counts); 6] = [
    (&[], (0, 0, 0)),
    (&[[A, B, C]], (3, 3, 0)),
    (&[[A, B, C], [C, B, A]], (6, 0, 0)),
    // They share an edge, which goes once each way.
    (&[[A, B, C], [C, B, D]], (6, 4, 0)),
    // It goes the same way in both.
    (&[[A, B, C], [B, C, D]], (6, 5, 0)),
    // Of the three pairs one is in a plane of the border.
    (&[[FLAT, FLAT_TOO, UPRIGHT]], (3, 2, 1)),
];

/// Asserts the counts of triangles alone.
fn count_alone(rt: &impl Abort, alloc: Global, triangles: &[[Key; 3]], counts: Counts) {
    assert!(rt; triangles.len() < 8);
    let audit = expect_made(rt, Audit::of_triangles(alloc, &ONE_LEAF, triangles));
    expect_counts(rt, triangles.len(), audit, counts);
}

#[test]
fn finds_the_cracks_of_triangles_alone(rt: HostRuntime) {
    for (triangles, counts) in &ALONE {
        count_alone(&rt, rt.alloc(), triangles, *counts);
    }
}
