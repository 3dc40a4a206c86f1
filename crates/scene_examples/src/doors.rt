//! Which doors refuse.

use crate::asserts::{expect, expect_fault, expect_made, expect_some};
use crate::stage::{SMALL, begin_new, new_cases, open};
use mesh_jobs::Bulk;
use published_frames::{BeginFault, PlainDoor, TestDoor, Viewer};
use scenes::Scene;
use std::alloc::Global;
use std::process::Abort;
use std::sync::Wait;

/// Returns a door that refuses its call of this number, from 1.
pub fn refusing(rt: &impl Abort, alloc: Global, call: u32) -> TestDoor {
    TestDoor::new(expect_made(rt, vec![in alloc; call]))
}

#[test]
fn a_publication_is_not_begun_by_a_door_that_refuses(rt: HostRuntime) {
    let mut door = refusing(&rt, rt.alloc(), 1);
    let fault = expect_fault(&rt, begin_new(&rt, rt.alloc(), &mut door, SMALL, 1));
    expect(&rt, "the first call", fault, BeginFault::NoPlace);
}

/// Has the last of these viewers be refused, and then enter the opening frame, and returns the viewer.
fn enter_refused(rt: &impl Abort, viewers: &mut Vec<Viewer>, door: &mut TestDoor) -> Viewer {
    let viewer = expect_some(rt, viewers.pop(), "no viewer");
    let refused = expect_fault(rt, viewer.enter(door));
    let entered = expect_made(rt, refused.viewer.enter(door));
    expect(rt, "the second entry", entered.events().len(), 0);
    entered.leave()
}

/// Has a viewer of a new publication enter by a door that refuses its second call, which is the first entry, and again
/// once the publisher is closed.
fn enter_twice<R: Wait + Abort>(rt: &R, alloc: Global, door: &mut TestDoor) {
    let (publisher, mut viewers) = expect_made(rt, begin_new(rt, alloc, door, SMALL, 1));
    let viewer = enter_refused(rt, &mut viewers, door);
    publisher.close(rt);
    expect(rt, "is let in", viewer.enter(door).is_ok(), false);
}

#[test]
fn a_door_refuses_the_calls_it_is_told_to(rt: HostRuntime) {
    let mut door = refusing(&rt, rt.alloc(), 2);
    enter_twice(&rt, rt.alloc(), &mut door);
}

/// Asserts whether a door finds a place.
fn expect_seated(rt: &impl Abort, scene: &mut Scene<Bulk<'_>>, is_seated: bool) {
    let mut door = PlainDoor::new();
    expect(rt, "a seat", scene.seat(&mut door).is_some(), is_seated);
}

#[test]
fn a_door_finds_no_place_where_all_are_taken(rt: HostRuntime) {
    let cases = new_cases(&rt, rt.alloc());
    let (mut scene, mut viewers) = open(&rt, rt.alloc(), &cases, SMALL, 2);
    expect_seated(&rt, &mut scene, false);
    viewers.clear();
    expect_seated(&rt, &mut scene, true);
    scene.close(&rt);
}
