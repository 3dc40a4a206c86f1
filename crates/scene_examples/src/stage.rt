//! What several tests play with: a publication that is begun, a scene, and events that it shows.
//!
//! The calls of a scene promise much that no test here relies on. A test that makes them through these functions
//! carries none of that along in its proof.

ghost use Rattle.lattice.specs.Settings.{IsSettings};

use crate::asserts::{expect_made, expect_some};
use cells::Cases;
use lattice::{MAX_DEPTH, MAX_REACH, Point, Settings};
use mesh_jobs::Bulk;
use published_frames::{BeginFault, Door, PlainDoor, Publisher, Told, Viewer, begin};
use scenes::Scene;
use std::alloc::Global;
use std::process::Abort;
use std::sync::Wait;
use std::thread::Threads;
use terra_events::Event;

/// The world of depth 1 whose levels are chosen near the camera alone.
pub const SMALL: Settings = Settings { depth: 1, reach: 1 };

/// A camera in a corner of that world, and one in the corner across from it.
pub const NEAR: Event = Event::Camera {
    view: 0,
    at: Point { z: 0, y: 0, x: 0 },
};

pub const FAR: Event = Event::Camera {
    view: 0,
    at: Point {
        z: 32,
        y: 32,
        x: 32,
    },
};

/// Begins a publication of a world before any event, with so many viewers.
pub fn begin_new<D: Door, R: Wait + Abort>(
    rt: &R,
    alloc: Global,
    door: &mut D,
    settings: Settings,
    viewers: u8,
) -> Result<(Publisher, Vec<Viewer>), BeginFault>
    requires { IsSettings settings }
{
    let cases = expect_made(rt, Cases::new(alloc));
    begin(rt, alloc, door, &cases, settings, viewers)
}

/// Returns the cases of cells, by which a scene makes its blocks.
pub fn new_cases(rt: &impl Abort, alloc: Global) -> Cases {
    expect_made(rt, Cases::new(alloc))
}

/// Opens a scene with so many viewers, whose blocks are made on the calling thread.
pub fn open<'a, R: Wait + Abort>(
    rt: &R,
    alloc: Global,
    cases: &'a Cases,
    settings: Settings,
    viewers: u8,
) -> (Scene<Bulk<'a>>, Vec<Viewer>) {
    assert!(rt; settings.depth <= MAX_DEPTH && settings.reach <= MAX_REACH);
    let mut door = PlainDoor::new();
    let mesher = Bulk::new(cases);
    expect_made(
        rt,
        Scene::open(rt, alloc, &mut door, cases, settings, mesher, viewers),
    )
}

/// Opens a scene with no viewer.
pub fn open_alone<'a, R: Wait + Abort>(
    rt: &R,
    alloc: Global,
    cases: &'a Cases,
    settings: Settings,
) -> Scene<Bulk<'a>> {
    let (scene, _viewers) = open(rt, alloc, cases, settings, 0);
    scene
}

/// Applies events, all of which the scene takes.
fn apply_all(rt: &impl Abort, alloc: Global, scene: &mut Scene<Bulk<'_>>, events: &[Event]) {
    for event in events {
        expect_made(rt, scene.apply(alloc, *event));
    }
}

/// Applies events, publishes them at once, and returns the news of them.
pub fn show<R: Threads + Wait + Sync + Abort>(
    rt: &R,
    alloc: Global,
    scene: &mut Scene<Bulk<'_>>,
    events: &[Event],
) -> Told {
    apply_all(rt, alloc, scene, events);
    let news = expect_made(rt, scene.publish(rt, alloc));
    expect_some(rt, news, "no news")
}

/// Applies events and publishes them at once, for a test that needs no news of them.
pub fn shows<R: Threads + Wait + Sync + Abort>(
    rt: &R,
    alloc: Global,
    scene: &mut Scene<Bulk<'_>>,
    events: &[Event],
) {
    let _ = show(rt, alloc, scene, events);
}
