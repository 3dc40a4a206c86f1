//! Who sees what.

use crate::asserts::expect;
use crate::looker::Looker;
use crate::stage::{FAR, NEAR, SMALL, new_cases, open, show};
use mesh_jobs::Bulk;
use published_frames::Viewer;
use scenes::Scene;
use std::alloc::Global;
use std::process::Abort;
use std::sync::Wait;
use std::thread::Threads;
use terra_events::Event;

static BOTH: [Event; 2] = [FAR, NEAR];

/// Publishes two events at once, which the news tells a viewer.
fn publish_both<R: Threads + Wait + Sync + Abort>(
    rt: &R,
    alloc: Global,
    scene: &mut Scene<Bulk<'_>>,
    viewer: &mut Looker,
) {
    let news = show(rt, alloc, scene, &BOTH);
    expect(rt, "news of both", news.events(), 2);
    viewer.learn(rt, news);
}

/// Has the first viewer look, then the second, which learns that two events were published at once, and then the first
/// twice more.
fn look_four_times<R: Threads + Wait + Sync + Abort>(
    rt: &R,
    alloc: Global,
    scene: &mut Scene<Bulk<'_>>,
    viewers: &mut Vec<Viewer>,
) {
    let mut first = Looker::last_of(viewers);
    let mut second = Looker::last_of(viewers);
    expect(rt, "the opening frame", first.look(rt), (0, true));
    publish_both(rt, alloc, scene, &mut second);
    expect(rt, "the second viewer", second.look(rt), (2, false));
    expect(rt, "the first viewer", first.look(rt), (2, false));
    expect(rt, "the first once more", first.look(rt), (2, false));
}

#[test]
fn viewers_see_what_was_published_last(rt: HostRuntime) {
    let cases = new_cases(&rt, rt.alloc());
    let (mut scene, mut viewers) = open(&rt, rt.alloc(), &cases, SMALL, 2);
    look_four_times(&rt, rt.alloc(), &mut scene, &mut viewers);
    scene.close(&rt);
}
