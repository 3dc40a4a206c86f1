//! Undos in a scene.

use crate::asserts::{expect, expect_fault};
use crate::auditing::{FILL_MIDDLE, SEE_CORNER, TWO_LEVELS};
use crate::stage::{new_cases, open_alone, show, shows};
use mesh_jobs::Bulk;
use scenes::{Refused, Scene};
use std::alloc::Global;
use std::process::Abort;
use std::sync::Wait;
use std::thread::Threads;
use terra_events::Event;

/// What a frame shows: its events, its triangles, and how many leaves its publication put.
type Shown = (usize, u64, usize);

/// Publishes an event, and asserts what is shown then.
fn expect_shown<R: Threads + Wait + Sync + Abort>(
    rt: &R,
    alloc: Global,
    scene: &mut Scene<Bulk<'_>>,
    event: Event,
    expected: Shown,
) {
    let put = show(rt, alloc, scene, &[event]).put().len();
    let frame = scene.shown();
    let shown = (frame.events().len(), frame.stats().triangles, put);
    expect(rt, event, shown, expected);
}

/// Publishes a camera, an edit and its undo, and asserts what is shown after each of the latter two, and that another
/// undo is refused.
fn undo_twice<R: Threads + Wait + Sync + Abort>(
    rt: &R,
    alloc: Global,
    scene: &mut Scene<Bulk<'_>>,
) {
    shows(rt, alloc, scene, &[SEE_CORNER]);
    expect_shown(rt, alloc, scene, FILL_MIDDLE, (2, 8, 8));
    expect_shown(rt, alloc, scene, Event::Undo, (3, 0, 8));
    let refused = expect_fault(rt, scene.apply(alloc, Event::Undo));
    expect(rt, "another undo", refused, Refused::NothingToUndo);
}

/// The journal gets longer, the mesh is the one before the edit, and the undo puts the leaves that the edit put.
#[test]
fn an_undo_is_one_event_more(rt: HostRuntime) {
    let cases = new_cases(&rt, rt.alloc());
    let mut scene = open_alone(&rt, rt.alloc(), &cases, TWO_LEVELS);
    undo_twice(&rt, rt.alloc(), &mut scene);
    scene.close(&rt);
}
