//! What viewers learn of publications, and which leaves these change.

ghost use Rattle.snapshots.specs.Frame.{IsSound};

use crate::asserts::{expect, expect_made};
use crate::auditing::{FILL_MIDDLE, SEE_CORNER, TWO_LEVELS};
use crate::looker::Looker;
use crate::stage::{FAR, NEAR, SMALL, new_cases, open, open_alone, show, shows};
use lattice::{Node, Point};
use mesh_jobs::Bulk;
use published_frames::Viewer;
use scenes::Scene;
use snapshots::Frame;
use std::alloc::Global;
use std::process::Abort;
use std::sync::Wait;
use std::thread::Threads;
use terra_events::Event;

/// A camera in the corner across from the one that `SEE_CORNER` has.
const SEE_ACROSS: Event = Event::Camera {
    view: 0,
    at: Point {
        z: 64,
        y: 64,
        x: 64,
    },
};

/// The node of level 0 in the corner.
const CORNER: Node = Node {
    level: 0,
    k: 0,
    j: 0,
    i: 0,
};

/// What an entered frame has: how many events, how many leaves, and whether the node in the corner is one of them.
type View = (usize, usize, bool);

/// Returns what a frame has.
fn view_of(rt: &impl Abort, alloc: Global, frame: &Frame) -> View
    requires { IsSound frame.now }
{
    let leaves = expect_made(rt, frame.levels().leaves(alloc)).len();
    (frame.events().len(), leaves, frame.block(CORNER).is_some())
}

/// Returns what the frame has that a viewer enters.
fn view(rt: &impl Abort, alloc: Global, viewer: &mut Looker) -> View {
    let entered = viewer.enter(rt);
    let seen = view_of(rt, alloc, entered.frame());
    viewer.leave(entered);
    seen
}

/// How many leaves news put, and how many are gone.
type Changes = (usize, usize);

/// Publishes an event of which a viewer learns, and asserts the publication's changes.
fn teach<R: Threads + Wait + Sync + Abort>(
    rt: &R,
    alloc: Global,
    scene: &mut Scene<Bulk<'_>>,
    viewer: &mut Looker,
    event: Event,
    changes: Changes,
) {
    let news = show(rt, alloc, scene, &[event]);
    expect(rt, event, (news.put().len(), news.gone().len()), changes);
    viewer.learn(rt, news);
}

/// An event, the changes of its publication, and what a viewer sees then.
type Lesson = (Event, Changes, View);

/// All leaves are new, then eight of them are edited, and then all are new or have another rim.
static LESSONS: [Lesson; 3] = [
    (SEE_CORNER, (15, 1), (1, 15, true)),
    (FILL_MIDDLE, (8, 0), (2, 15, true)),
    (SEE_ACROSS, (15, 9), LAST),
];

const LAST: View = (3, 15, false);

/// Publishes three events one after another, of each of which the first viewer learns, and asserts what it sees then.
/// After all three the second one enters, which learnt nothing: it sees the frame that was shown last, with its leaves.
fn teach_one_of_two<R: Threads + Wait + Sync + Abort>(
    rt: &R,
    alloc: Global,
    scene: &mut Scene<Bulk<'_>>,
    viewers: &mut Vec<Viewer>,
) {
    let mut first = Looker::last_of(viewers);
    let mut second = Looker::last_of(viewers);
    for (event, changes, seen) in &LESSONS {
        teach(rt, alloc, scene, &mut first, *event, *changes);
        expect(rt, *event, view(rt, alloc, &mut first), *seen);
    }
    expect(rt, "the other", view(rt, alloc, &mut second), LAST);
}

#[test]
fn a_viewer_sees_what_it_learns_of(rt: HostRuntime) {
    let cases = new_cases(&rt, rt.alloc());
    let (mut scene, mut viewers) = open(&rt, rt.alloc(), &cases, TWO_LEVELS, 2);
    teach_one_of_two(&rt, rt.alloc(), &mut scene, &mut viewers);
    scene.close(&rt);
}

/// Publishes an event, and has a viewer learn the news of it.
fn learn_shown<R: Threads + Wait + Sync + Abort>(
    rt: &R,
    alloc: Global,
    scene: &mut Scene<Bulk<'_>>,
    viewer: &mut Looker,
    event: Event,
) {
    viewer.learn(rt, show(rt, alloc, scene, &[event]));
}

/// Has a viewer of one scene learn the news of another one with the same first event, and look; and then the news of
/// the second event there, which isn't the one here, so that it is refused then, and stays so, whatever it learns
/// besides.
fn learn_of_both<R: Threads + Wait + Sync + Abort>(
    rt: &R,
    alloc: Global,
    here: &mut Scene<Bulk<'_>>,
    elsewhere: &mut Scene<Bulk<'_>>,
    viewer: &mut Looker,
) {
    shows(rt, alloc, here, &[FAR]);
    learn_shown(rt, alloc, elsewhere, viewer, FAR);
    expect(rt, "the same event", viewer.look(rt).0, 1);
    shows(rt, alloc, here, &[NEAR]);
    learn_shown(rt, alloc, elsewhere, viewer, FAR);
    expect(rt, "another event", viewer.is_refused(rt), true);
    learn_shown(rt, alloc, here, viewer, FAR);
    expect(rt, "its own events", viewer.is_refused(rt), true);
}

#[test]
fn a_viewer_is_refused_where_it_learnt_of_another_journal(rt: HostRuntime) {
    let cases = new_cases(&rt, rt.alloc());
    let (mut here, mut viewers) = open(&rt, rt.alloc(), &cases, SMALL, 1);
    let mut elsewhere = open_alone(&rt, rt.alloc(), &cases, SMALL);
    let mut viewer = Looker::last_of(&mut viewers);
    learn_of_both(&rt, rt.alloc(), &mut here, &mut elsewhere, &mut viewer);
    elsewhere.close(&rt);
    here.close(&rt);
}
