//! Picks on worked surfaces.
//!
//! The heights are those that a run of another program tells, and the triangles those of a plain search over all of the
//! triangles that it wrote.

ghost use Rattle.snapshots.specs.Frame.{IsSound};

use crate::asserts::expect;
use crate::stage::{new_cases, open_alone, shows};
use crate::surfaces::{CORNER, ONE_LEAF, POINT};
use frame_surface::pick;
use lattice::{Node, Point, Settings, UNITS};
use snapshots::Frame;
use std::alloc::Global;
use std::process::Abort;
use std::sync::Wait;
use std::thread::Threads;
use terra_events::{Brush, Event};
use terrain::Mode;

/// A world in which leaves of level 0 and 1 meet at x = 32 for a camera in the corner.
const TWO_LEVELS: Settings = Settings { depth: 2, reach: 1 };

const SEE_CORNER: Event = Event::Camera {
    view: 0,
    at: Point { z: 0, y: 0, x: 0 },
};

const GROUND: Event = Event::Edit(Brush::Ground {
    mode: Mode::Fill,
    h: 8,
});

const HIGH_GROUND: Event = Event::Edit(Brush::Ground {
    mode: Mode::Fill,
    h: 12,
});

/// Nine points on each side: the walls of it stand upright.
const BLOCK: Event = Event::Edit(Brush::Cuboid {
    mode: Mode::Fill,
    lo: Point { z: 4, y: 4, x: 4 },
    hi: Point {
        z: 12,
        y: 12,
        x: 12,
    },
});

const CAVE: Event = Event::Edit(Brush::Cuboid {
    mode: Mode::Carve,
    lo: Point { z: 3, y: 4, x: 4 },
    hi: Point { z: 7, y: 9, x: 9 },
});

const HILL: Event = Event::Edit(Brush::Ball {
    mode: Mode::Fill,
    at: Point { z: 6, y: 8, x: 8 },
    r: 5,
});

/// The leaf beside the corner, one across the diagonal from it, and two leaves of level 1.
const BESIDE: Node = Node { i: 1, ..CORNER };

const ACROSS: Node = Node { j: 1, ..BESIDE };

const WIDE: Node = Node { level: 1, ..BESIDE };

const LAST: Node = Node { level: 1, ..ACROSS };

/// What a pick finds: the leaf, the triangle, and the height in whole units and eighths of one.
type Found = (Node, u32, u128, u128);

/// The x and y of a place, and what a pick finds there.
type Place = (u32, u32, Option<Found>);

/// At the top, on an edge, inside a triangle, at two corners, and beside the surface.
const AROUND_POINT: [Place; 7] = [
    (2048, 2048, Some((CORNER, 4, 2176, 0))),
    (2112, 2048, Some((CORNER, 5, 2112, 0))),
    (0, 0, None),
    (2176, 2048, Some((CORNER, 1, 2048, 0))),
    (2100, 2090, Some((CORNER, 7, 2082, 0))),
    (2177, 2048, None),
    (2048, 2176, Some((CORNER, 2, 2048, 0))),
];

/// Three corners of the world, on its border, and two within it.
const ON_GROUND: [Place; 6] = [
    (0, 0, Some((CORNER, 0, 2176, 0))),
    (4096, 4096, Some((CORNER, 510, 2176, 0))),
    (4096, 0, Some((CORNER, 30, 2176, 0))),
    (100, 4096, Some((CORNER, 481, 2176, 0))),
    (2048, 2048, Some((CORNER, 238, 2176, 0))),
    (2050, 2047, Some((CORNER, 241, 2176, 0))),
];

/// On an upright wall, where its own triangles are found, and a unit before and behind it.
const ON_WALLS: [Place; 7] = [
    (896, 2048, Some((CORNER, 732, 3072, 0))),
    (896, 2100, Some((CORNER, 736, 3072, 0))),
    (897, 2048, Some((CORNER, 851, 3073, 0))),
    (895, 2048, None),
    (3200, 2048, Some((CORNER, 734, 3072, 0))),
    (896, 1024, Some((CORNER, 700, 3072, 0))),
    (896, 896, None),
];

/// Over a cave, whose floor and roof come before the ground above them, and off it.
const OVER_CAVE: [Place; 3] = [
    (1600, 1600, Some((CORNER, 584, 3200, 0))),
    (1500, 1600, Some((CORNER, 582, 3200, 0))),
    (3000, 3000, Some((CORNER, 754, 3200, 0))),
];

/// Where leaves of two levels meet, and leaves of one.
const AT_SEAMS: [Place; 7] = [
    (8192, 2304, Some((BESIDE, 286, 2176, 0))),
    (8192, 8192, Some((ACROSS, 510, 2176, 0))),
    (8191, 8192, Some((ACROSS, 511, 2176, 0))),
    (16384, 16384, Some((LAST, 510, 2176, 0))),
    (8192, 0, Some((BESIDE, 30, 2176, 0))),
    (9000, 2300, Some((WIDE, 130, 2176, 0))),
    (8192, 2310, Some((BESIDE, 318, 2176, 0))),
];

/// On slopes, and at the end on two triangles without area, each of which is a part of a line.
const ON_HILL: [Place; 7] = [
    (2048, 2048, Some((CORNER, 782, 2816, 0))),
    (2049, 2047, Some((CORNER, 785, 2815, 7))),
    (1024, 2048, Some((CORNER, 604, 2304, 0))),
    (3000, 2048, Some((CORNER, 710, 2376, 0))),
    (2500, 1700, Some((CORNER, 774, 2676, 7))),
    (2816, 1045, Some((CORNER, 428, 1792, 0))),
    (3072, 1312, Some((CORNER, 436, 1792, 0))),
];

/// A surface's name, its world, its events, and what picks find then.
type Surface = (&'static str, Settings, &'static [Event], &'static [Place]);

static SURFACES: [Surface; 6] = [
    ("a point", ONE_LEAF, &[POINT], &AROUND_POINT),
    ("a ground", ONE_LEAF, &[GROUND], &ON_GROUND),
    ("walls", ONE_LEAF, &[BLOCK], &ON_WALLS),
    ("a cave", ONE_LEAF, &[HIGH_GROUND, CAVE], &OVER_CAVE),
    ("seams", TWO_LEVELS, &[SEE_CORNER, GROUND], &AT_SEAMS),
    ("a hill", ONE_LEAF, &[HILL], &ON_HILL),
];

/// Returns what a pick finds in a frame; none where the place isn't in its world.
fn found(frame: &Frame, x: u32, y: u32) -> Option<Found>
    requires { IsSound frame.now }
{
    let border = UNITS * frame.settings().world_side();
    if x > border || y > border {
        return None;
    }
    let hit = pick(frame, x, y)?;
    if hit.den == 0 {
        return None;
    }
    let rest = hit.num % hit.den;
    Some((
        hit.node,
        hit.triangle,
        hit.num / hit.den,
        rest.wrapping_mul(8) / hit.den,
    ))
}

/// Asserts what picks find in a frame, each after its x and y.
fn expect_found(rt: &impl Abort, frame: &Frame, places: &[Place])
    requires { IsSound frame.now }
{
    for (x, y, expected) in places {
        expect(rt, (*x, *y), found(frame, *x, *y), *expected);
    }
}

/// Shows a surface in a scene of its own, and asserts what picks find then.
fn expect_picks<R: Threads + Wait + Sync + Abort>(rt: &R, alloc: Global, surface: &Surface) {
    let (_, settings, events, places) = surface;
    let cases = new_cases(rt, alloc);
    let mut scene = open_alone(rt, alloc, &cases, *settings);
    shows(rt, alloc, &mut scene, events);
    expect_found(rt, scene.shown(), places);
    scene.close(rt);
}

#[test]
fn finds_the_first_of_the_highest_triangles(rt: HostRuntime) {
    for surface in &SURFACES {
        expect_picks(&rt, rt.alloc(), surface);
    }
}
