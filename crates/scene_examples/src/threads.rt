//! A viewer and watchers in threads of their own, while frames are published.

use crate::asserts::{expect, expect_made};
use crate::auditing::FILL_MIDDLE;
use crate::looker::Looker;
use crate::stage::{FAR, NEAR, SMALL, new_cases, open, show, shows};
use crate::watched::expect_told;
use crossbeam_channel::{Receiver, Sender, unbounded};
use gates::NoGate;
use mesh_jobs::Bulk;
use published_frames::{Told, Viewer};
use scenes::Scene;
use std::alloc::Global;
use std::process::Abort;
use std::sync::Wait;
use std::thread::{Threads, join};
use terra_events::Event;
use watchers::{Counts, Watched, watch_beside};

/// How many frames are published.
const FRAMES: usize = 6;

/// Returns an event that changes the frame after the event of the number before.
fn event_of(number: usize) -> Event {
    match number % 3 {
        0 => FAR,
        1 => FILL_MIDDLE,
        _ => NEAR,
    }
}

/// Publishes frames, each with one event more, and sends the news of each.
fn play_and_send<R: Threads + Wait + Sync + Abort>(
    rt: &R,
    alloc: Global,
    scene: &mut Scene<Bulk<'_>>,
    news: &Sender<Told>,
) {
    for number in 0..FRAMES {
        let latest = show(rt, alloc, scene, &[event_of(number)]);
        expect_made(rt, news.send(rt, latest));
    }
}

/// Waits for news, has a viewer learn it and enter a frame, asserts that this has no fewer events than the news, and
/// returns how many it has.
fn follow_once<R: Wait + Abort>(rt: &R, viewer: &mut Looker, news: &Receiver<Told>) -> usize {
    let latest = expect_made(rt, news.recv(rt));
    let events = latest.events() as usize;
    viewer.learn(rt, latest);
    let (count, _) = viewer.look(rt);
    expect(rt, "no fewer", events <= count, true);
    count
}

/// Has a viewer enter a frame each time that news comes. The last frame has all events.
fn follow<R: Wait + Abort>(rt: &R, viewer: &mut Looker, news: &Receiver<Told>) {
    let mut last = 0;
    for _ in 0..FRAMES {
        last = follow_once(rt, viewer, news);
    }
    expect(rt, "the last frame", last, FRAMES);
}

/// Has a viewer follow the news in a thread of its own while frames are published.
fn follow_beside<R: Threads + Wait + Sync + Abort>(
    rt: &R,
    alloc: Global,
    scene: &mut Scene<Bulk<'_>>,
    viewer: &mut Looker,
) {
    let (sender, receiver) = expect_made(rt, unbounded(alloc));
    join(
        rt,
        || follow(rt, viewer, &receiver),
        || play_and_send(rt, alloc, scene, &sender),
    );
}

#[test]
fn a_viewer_in_a_thread_enters_what_it_learns_of(rt: HostRuntime) {
    let cases = new_cases(&rt, rt.alloc());
    let (mut scene, mut viewers) = open(&rt, rt.alloc(), &cases, SMALL, 1);
    let mut viewer = Looker::last_of(&mut viewers);
    follow_beside(&rt, rt.alloc(), &mut scene, &mut viewer);
    scene.close(&rt);
}

/// How many watchers there are, how often each looks, and how many frames are published meanwhile: many more than the
/// three that take turns.
const WATCHERS: u8 = 8;

const WATCHER_LOOKS: u32 = 200;

const WATCHED_FRAMES: usize = 300;

/// What all watchers tell together.
const ALL_LOOKS: Watched = Watched {
    counts: Counts {
        looks: 1600,
        cracks: 0,
        backward: 0,
    },
    left: 0,
};

/// Publishes many frames, each with one event more.
fn play<R: Threads + Wait + Sync + Abort>(rt: &R, alloc: Global, scene: &mut Scene<Bulk<'_>>) {
    for number in 0..WATCHED_FRAMES {
        shows(rt, alloc, scene, &[event_of(number)]);
    }
}

/// Publishes frames beside watchers, and asserts what these tell.
fn play_watched<R: Threads + Wait + Sync + Abort>(
    rt: &R,
    alloc: Global,
    scene: &mut Scene<Bulk<'_>>,
    viewers: Vec<Viewer>,
) {
    let mut work = || play(rt, alloc, scene);
    let (told, ()) = watch_beside(rt, alloc, viewers, WATCHER_LOOKS, &NoGate, &mut work);
    expect_told(rt, told, ALL_LOOKS);
}

#[test]
fn watchers_look_while_frames_are_published(rt: HostRuntime) {
    let cases = new_cases(&rt, rt.alloc());
    let (mut scene, viewers) = open(&rt, rt.alloc(), &cases, SMALL, WATCHERS);
    play_watched(&rt, rt.alloc(), &mut scene, viewers);
    scene.close(&rt);
}
