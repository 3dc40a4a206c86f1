//! Which leaves events touch, and what a full journal takes.

use crate::asserts::{expect, expect_made, rely_on};
use crate::levels::expect_count;
use crate::samples::expect_sample;
use lattice::{Node, Point, Settings};
use octree::Levels;
use std::alloc::Global;
use std::process::Abort;
use terra_events::{ApplyFault, Brush, Event, MAX_EVENTS, Touched, World, is_lawful};
use terrain::Mode;

/// The world of depth 2 whose levels are chosen near the camera alone.
const SMALL: Settings = Settings { depth: 2, reach: 1 };

/// The node whose eight children are the leaves of level 0 for a camera at the world's origin.
const NEAR: Node = Node {
    level: 1,
    k: 0,
    j: 0,
    i: 0,
};

const MIDDLE: Point = Point { z: 8, y: 8, x: 8 };

/// A camera at the world's origin.
const AT_ORIGIN: Event = Event::Camera {
    view: 0,
    at: Point { z: 0, y: 0, x: 0 },
};

/// A camera that sees the same levels.
const BESIDE_ORIGIN: Event = Event::Camera {
    view: 0,
    at: Point { z: 3, y: 2, x: 1 },
};

/// A camera in the middle of the world.
const AT_CENTRE: Event = Event::Camera {
    view: 0,
    at: Point {
        z: 64,
        y: 64,
        x: 64,
    },
};

/// Another viewpoint in the middle of the world, and its end, that of the first one, and that of one that is nowhere.
const OTHER_AT_CENTRE: Event = Event::Camera {
    view: 1,
    at: Point {
        z: 64,
        y: 64,
        x: 64,
    },
};

/// Another viewpoint near the first one.
const OTHER_AT_ORIGIN: Event = Event::Camera {
    view: 1,
    at: MIDDLE,
};

const OTHER_AWAY: Event = Event::Away { view: 1 };

const FIRST_AWAY: Event = Event::Away { view: 0 };

const NOBODY_AWAY: Event = Event::Away { view: 7 };

/// Fills one point.
const FILL: Event = Event::Edit(Brush::Cuboid {
    mode: Mode::Fill,
    lo: MIDDLE,
    hi: MIDDLE,
});

/// Carves that point.
const CARVE: Event = Event::Edit(Brush::Cuboid {
    mode: Mode::Carve,
    lo: MIDDLE,
    hi: MIDDLE,
});

/// Events, the last of which is an edit of the point, with the point's sample after it.
type Edit = (Events, i8);

/// Edits of a world that a camera sees: leaves in which no sample changes are touched too.
static NEAR_EDITS: [Edit; 2] = [((&[AT_ORIGIN], FILL), -8), ((&[AT_ORIGIN], CARVE), 127)];

/// Edits before any camera, when the root is the one leaf.
static EDITS: [Edit; 2] = [((&[], FILL), -8), ((&[FILL], CARVE), 8)];

/// Adds an event, which has to be lawful in the world, and returns which leaves it touches.
pub(crate) fn apply(
    rt: &impl Abort,
    alloc: Global,
    world: &mut World,
    event: Event,
) -> Result<Touched, ApplyFault> {
    rely_on(rt, event, is_lawful(&event, world.settings()));
    world.apply(alloc, event)
}

/// Adds an event in the same way, and returns why it is refused, if it is.
pub(crate) fn refusal(
    rt: &impl Abort,
    alloc: Global,
    world: &mut World,
    event: Event,
) -> Option<ApplyFault> {
    apply(rt, alloc, world, event).err()
}

/// Adds events to a world, one after another.
pub(crate) fn apply_all(rt: &impl Abort, alloc: Global, world: &mut World, events: &[Event]) {
    for event in events {
        drop(expect_made(rt, apply(rt, alloc, world, *event)));
    }
}

/// Events, and one that comes after them.
type Events = (&'static [Event], Event);

/// Adds events to a world that has none, and returns which leaves the last one touches.
fn apply_events(rt: &impl Abort, alloc: Global, world: &mut World, events: &Events) -> Touched {
    apply_all(rt, alloc, world, events.0);
    expect_made(rt, apply(rt, alloc, world, events.1))
}

/// Events, with how many leaves the last of them touches, and how many there are then.
type Counted = (Events, usize, usize);

/// Asserts this of a world that has no event.
fn expect_counted(rt: &impl Abort, alloc: Global, world: &mut World, counted: &Counted) {
    let (events, touched, count) = counted;
    let found = apply_events(rt, alloc, world, events);
    expect(rt, *events, found.leaves.len(), *touched);
    drop(found);
    expect_count(rt, alloc, *events, world.levels(), *count);
}

/// Asserts this of a new world.
fn expect_anew(rt: &impl Abort, alloc: Global, counted: &Counted) {
    let mut world = expect_made(rt, World::new(alloc, SMALL));
    expect_counted(rt, alloc, &mut world, counted);
    drop(world);
}

/// Asserts this of a new world for each of some events.
fn expect_each(rt: &impl Abort, alloc: Global, counts: &[Counted]) {
    for counted in counts {
        expect_anew(rt, alloc, counted);
    }
}

/// Asserts that these are the leaves of a level map.
fn expect_leaves(rt: &impl Abort, alloc: Global, levels: &Levels, leaves: &[Node]) {
    let all = expect_made(rt, levels.leaves(alloc));
    expect(rt, "all leaves", leaves, all.as_slice());
    drop(all);
}

/// Asserts that the last of some events touches all leaves of a world that has no event, and how many these are.
fn expect_all_touched(
    rt: &impl Abort,
    alloc: Global,
    world: &mut World,
    events: &Events,
    count: usize,
) {
    let touched = apply_events(rt, alloc, world, events);
    expect(rt, *events, touched.leaves.len(), count);
    expect_leaves(rt, alloc, world.levels(), &touched.leaves);
    drop(touched);
}

/// Events whose last one touches all leaves: the second camera splits other nodes beside the six leaves that stay.
static ALL_TOUCHED: [Events; 2] = [(&[], AT_ORIGIN), (&[AT_ORIGIN], AT_CENTRE)];

/// Asserts that the last of some events touches all 15 leaves of a new world.
fn expect_fifteen(rt: &impl Abort, alloc: Global, events: &Events) {
    let mut world = expect_made(rt, World::new(alloc, SMALL));
    expect_all_touched(rt, alloc, &mut world, events, 15);
    drop(world);
}

#[test]
fn touches_leaves_whose_rim_changes(rt: HostRuntime) {
    for events in &ALL_TOUCHED {
        expect_fifteen(&rt, rt.alloc(), events);
    }
}

/// Events of two viewpoints, with how many leaves the last of them touches, and how many there are then.
static TWO_VIEWS: [Counted; 6] = [
    // Eight leaves are new, and the rims of the six that stay change; the leaves round the first viewpoint stay as they
    // are.
    ((&[AT_ORIGIN], OTHER_AT_CENTRE), 14, 22),
    // One node is whole again, beside six whose rims change.
    ((&[AT_ORIGIN, OTHER_AT_CENTRE], FIRST_AWAY), 7, 15),
    (
        (&[AT_ORIGIN, OTHER_AT_CENTRE, FIRST_AWAY], OTHER_AWAY),
        1,
        1,
    ),
    ((&[AT_ORIGIN, OTHER_AT_CENTRE], NOBODY_AWAY), 0, 22),
    (
        (&[AT_ORIGIN, OTHER_AT_CENTRE, FIRST_AWAY], FIRST_AWAY),
        0,
        15,
    ),
    // The other one keeps split what the first one leaves.
    ((&[AT_ORIGIN, OTHER_AT_ORIGIN], FIRST_AWAY), 0, 15),
];

#[test]
fn touches_what_changes_for_all_viewpoints(rt: HostRuntime) {
    expect_each(&rt, rt.alloc(), &TWO_VIEWS);
}

/// The same of one viewpoint that is seen from anew.
static SEEN_ANEW: [Counted; 2] = [
    ((&[AT_ORIGIN], AT_ORIGIN), 0, 15),
    ((&[AT_ORIGIN, AT_ORIGIN], BESIDE_ORIGIN), 0, 15),
];

#[test]
fn touches_nothing_where_no_split_changes(rt: HostRuntime) {
    expect_each(&rt, rt.alloc(), &SEEN_ANEW);
}

/// Asserts which leaves the last of some events touches in a world that has none, and the sample of the edited point
/// then.
fn expect_edit(rt: &impl Abort, alloc: Global, world: &mut World, edit: &Edit, touched: &[Node]) {
    let (events, sample) = edit;
    let found = apply_events(rt, alloc, world, events);
    expect(rt, *events, found.leaves.as_slice(), touched);
    expect_sample(rt, *events, world.version(), MIDDLE, *sample);
    drop(found);
}

/// Asserts the same of a new world.
fn expect_edit_anew(rt: &impl Abort, alloc: Global, edit: &Edit, touched: &[Node]) {
    let mut world = expect_made(rt, World::new(alloc, SMALL));
    expect_edit(rt, alloc, &mut world, edit, touched);
    drop(world);
}

/// Asserts the same of a new world for each of some edits.
fn expect_edits(rt: &impl Abort, alloc: Global, edits: &[Edit], touched: &[Node]) {
    for edit in edits {
        expect_edit_anew(rt, alloc, edit, touched);
    }
}

#[test]
fn touches_the_leaves_that_an_edit_meets(rt: HostRuntime) {
    expect_edits(&rt, rt.alloc(), &NEAR_EDITS, &NEAR.children());
    expect_edits(&rt, rt.alloc(), &EDITS, &[Node::root(SMALL.depth)]);
}

/// Asserts that a world whose journal is full refuses an event.
pub(crate) fn expect_full(rt: &impl Abort, alloc: Global, world: &mut World, event: Event) {
    let refused = refusal(rt, alloc, world, event);
    expect(rt, event, refused, Some(ApplyFault::Full));
    expect(rt, "a full journal", world.events().len(), MAX_EVENTS);
}

/// Adds as many cameras to a world as a journal has room for.
fn fill(rt: &impl Abort, alloc: Global, world: &mut World) {
    for _ in 0..MAX_EVENTS {
        drop(expect_made(rt, apply(rt, alloc, world, AT_ORIGIN)));
    }
}

/// Asserts what a world that has no event refuses once its journal is full.
fn expect_full_journal(rt: &impl Abort, alloc: Global, world: &mut World) {
    fill(rt, alloc, world);
    expect_full(rt, alloc, world, AT_ORIGIN);
    expect_full(rt, alloc, world, FILL);
    expect_full(rt, alloc, world, Event::Undo);
}

#[test]
fn refuses_an_event_once_the_journal_is_full(rt: HostRuntime) {
    let mut world = expect_made(&rt, World::new(rt.alloc(), Settings { depth: 0, reach: 0 }));
    expect_full_journal(&rt, rt.alloc(), &mut world);
    drop(world);
}
