//! Watchers of a world before any event: what they tell, that they look beside other work, and what a door refuses.

use crate::asserts::{expect, expect_made, expect_some};
use crate::doors::refusing;
use crate::stage::begin_new;
use gates::NoGate;
use lattice::Settings;
use published_frames::{Door, PlainDoor, Publisher, Viewer};
use std::alloc::{AllocError, Global};
use std::process::Abort;
use std::sync::Wait;
use std::thread::{Threads, sleep};
use std::time::{Clock, Duration};
use watchers::{Counts, Report, Watched, look_on, watch, watch_beside};

/// A world of one leaf.
const ONE_LEAF: Settings = Settings { depth: 0, reach: 0 };

/// What is told where so many looks were made, and so many are left.
fn clean(looks: u32, left: u32) -> Watched {
    let counts = Counts {
        looks,
        cracks: 0,
        backward: 0,
    };
    Watched { counts, left }
}

/// Returns what two watchers tell together.
fn both(first: Watched, second: Watched) -> Watched {
    let counts = Counts {
        looks: first.counts.looks.saturating_add(second.counts.looks),
        cracks: first.counts.cracks.saturating_add(second.counts.cracks),
        backward: first.counts.backward.saturating_add(second.counts.backward),
    };
    Watched {
        counts,
        left: first.left.saturating_add(second.left),
    }
}

/// Returns what these watchers tell together.
fn sum(told: &[Report]) -> Watched {
    let mut all = clean(0, 0);
    for one in told {
        all = both(all, one.watched);
    }
    all
}

/// Asserts what all watchers tell together.
pub fn expect_told(rt: &impl Abort, told: Result<Vec<Report>, AllocError>, expected: Watched) {
    let told = expect_made(rt, told);
    expect(rt, "all watchers", sum(&told), expected);
}

/// Waits until the place of the only viewer is free, and takes it.
fn wait_for_place<R: Wait + Clock>(rt: &R, publisher: &mut Publisher, door: &mut PlainDoor) {
    for _ in rt.forever() {
        if door.seat(publisher).is_some() {
            return;
        }
        sleep(rt, Duration::from_millis(1));
    }
}

/// Has the viewer of a publication look 5 times beside work that waits until it has left.
fn watch_waited_for<R: Threads + Wait + Clock + Sync + Abort>(
    rt: &R,
    alloc: Global,
    publisher: &mut Publisher,
    viewers: Vec<Viewer>,
) {
    let mut door = PlainDoor::new();
    let mut work = || wait_for_place(rt, publisher, &mut door);
    let (told, ()) = watch_beside(rt, alloc, viewers, 5, &NoGate, &mut work);
    expect_told(rt, told, clean(5, 0));
}

#[test]
fn watches_before_the_work_is_done(rt: HostRuntime) {
    let mut door = PlainDoor::new();
    let begun = begin_new(&rt, rt.alloc(), &mut door, ONE_LEAF, 1);
    let (mut publisher, viewers) = expect_made(&rt, begun);
    watch_waited_for(&rt, rt.alloc(), &mut publisher, viewers);
    publisher.close(&rt);
}

/// Asserts what the last of these viewers tells, which is to look 5 times by a door that refuses its third entry, and
/// returns how many looks it left.
fn watch_refused(rt: &impl Abort, alloc: Global, viewers: &mut Vec<Viewer>) -> u32 {
    let mut door = refusing(rt, alloc, 3);
    let viewer = expect_some(rt, viewers.pop(), "no viewer");
    let told = expect_made(rt, watch(alloc, viewer, &mut door, 5, 0, &NoGate));
    expect(rt, "a watcher", told, clean(2, 3));
    told.left
}

#[test]
fn leaves_the_looks_that_a_door_refuses(rt: HostRuntime) {
    let mut door = PlainDoor::new();
    let begun = begin_new(&rt, rt.alloc(), &mut door, ONE_LEAF, 1);
    let (publisher, mut viewers) = expect_made(&rt, begun);
    let left = watch_refused(&rt, rt.alloc(), &mut viewers);
    let made = look_on(rt.alloc(), publisher.shown(), left, 0, &NoGate);
    let counts = expect_made(&rt, made);
    publisher.close(&rt);
    expect(&rt, "in its place", counts, clean(3, 0).counts);
}
