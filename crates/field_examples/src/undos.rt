//! What edits keep and give back, and worlds that undo.

ghost use Rattle.std.specs.Prelude.{◌≡◌};

use crate::asserts::{expect, expect_made, rely_on};
use crate::forty::{EDITS, POINTS};
use crate::samples::expect_sample;
use crate::worlds::{apply, apply_all, refusal};
use brushes::{apply_kept, lawful};
use field_pages::{Kept, Version};
use lattice::{MAX_DEPTH, Point, Settings};
use std::alloc::Global;
use std::fmt::Debug;
use std::process::Abort;
use terra_events::{ApplyFault, Brush, Event, MAX_KEPT_PAGES, World};
use terrain::Mode;

/// The settings of the smallest world.
const SMALL: Settings = Settings { depth: 0, reach: 0 };

/// Those of a world with so many pages that seven edits of all of them are too many to be kept.
const LARGE: Settings = Settings { depth: 4, reach: 0 };

const ORIGIN: Point = Point { z: 0, y: 0, x: 0 };

const MIDDLE: Point = Point { z: 8, y: 8, x: 8 };

const FILL_ORIGIN: Brush = Brush::Cuboid {
    mode: Mode::Fill,
    lo: ORIGIN,
    hi: ORIGIN,
};

const FILL_MIDDLE: Brush = Brush::Cuboid {
    mode: Mode::Fill,
    lo: MIDDLE,
    hi: MIDDLE,
};

/// A ground that changes each page of the large world, and one that changes each of them back.
const FILL_ALL: Brush = Brush::Ground {
    mode: Mode::Fill,
    h: 256,
};

const CARVE_ALL: Brush = Brush::Ground {
    mode: Mode::Carve,
    h: 256,
};

/// Returns the version after a brush, and what the brush keeps.
fn kept_by(rt: &impl Abort, alloc: Global, version: &Version, brush: &Brush) -> (Version, Kept)
    ensures { result.1.depth ≡ result.0.depth }
{
    let settings = Settings {
        depth: version.depth(),
        reach: 0,
    };
    rely_on(rt, settings, settings.depth <= MAX_DEPTH);
    rely_on(rt, *brush, lawful(brush, &settings));
    expect_made(rt, apply_kept(alloc, version, brush, &settings))
}

/// Asserts what is in the middle of a version once what an edit kept is put back.
fn expect_restored(rt: &impl Abort, alloc: Global, edited: &Version, kept: &Kept)
    requires { kept.now.depth ≡ edited.now.depth }
{
    let restored = expect_made(rt, edited.restore(alloc, kept));
    expect_sample(rt, "restored", &restored, MIDDLE, 127);
    drop(restored);
}

/// Asserts how many pages an edit in the middle keeps, and what they give back.
fn expect_middle(rt: &impl Abort, alloc: Global, opening: &Version) {
    let edited = kept_by(rt, alloc, opening, &FILL_MIDDLE);
    expect(rt, "the middle", edited.1.pages(), 8);
    expect_sample(rt, "the middle", &edited.0, MIDDLE, -8);
    expect_restored(rt, alloc, &edited.0, &edited.1);
    drop(edited);
}

/// Asserts how many pages a brush keeps.
fn expect_kept(rt: &impl Abort, alloc: Global, version: &Version, brush: &Brush, pages: u32) {
    let edited = kept_by(rt, alloc, version, brush);
    expect(rt, *brush, edited.1.pages(), pages);
    drop(edited);
}

/// Asserts how many pages an edit in the corner keeps, and the same edit once more.
fn expect_corner(rt: &impl Abort, alloc: Global, opening: &Version) {
    let edited = kept_by(rt, alloc, opening, &FILL_ORIGIN);
    expect(rt, "the corner", edited.1.pages(), 1);
    expect_kept(rt, alloc, &edited.0, &FILL_ORIGIN, 0);
    drop(edited);
}

/// Asserts how many pages edits of the opening version keep.
fn expect_pages(rt: &impl Abort, alloc: Global, opening: &Version) {
    expect_middle(rt, alloc, opening);
    expect_corner(rt, alloc, opening);
}

#[test]
fn an_edit_keeps_the_pages_that_it_changes(rt: HostRuntime) {
    let opening = expect_made(&rt, Version::new(rt.alloc(), 0));
    expect_pages(&rt, rt.alloc(), &opening);
    drop(opening);
}

const FILL: Event = Event::Edit(FILL_MIDDLE);

const CARVE: Event = Event::Edit(Brush::Cuboid {
    mode: Mode::Carve,
    lo: MIDDLE,
    hi: MIDDLE,
});

const SMOOTH: Event = Event::Edit(Brush::Smooth {
    lo: MIDDLE,
    hi: MIDDLE,
});

const CAMERA: Event = Event::Camera {
    view: 1,
    at: MIDDLE,
};

const AWAY: Event = Event::Away { view: 1 };

/// Events, and the sample in the middle of the small world after them.
static UNDONE: [(&[Event], i8); 11] = [
    (&[FILL, Event::Undo], 127),
    (&[FILL, CARVE, Event::Undo], -8),
    (&[FILL, CARVE, Event::Undo, Event::Undo], 127),
    (&[FILL, CAMERA, Event::Undo], 127),
    (&[FILL, CAMERA, CARVE, AWAY, Event::Undo, CAMERA], -8),
    (
        &[FILL, CAMERA, CARVE, AWAY, Event::Undo, CAMERA, Event::Undo],
        127,
    ),
    // An edit after an undo is the next to be undone, and then the one before both.
    (&[FILL, CARVE, Event::Undo, SMOOTH], 4),
    (&[FILL, CARVE, Event::Undo, SMOOTH, Event::Undo], -8),
    (
        &[FILL, CARVE, Event::Undo, SMOOTH, Event::Undo, Event::Undo],
        127,
    ),
    // An edit that changes no sample is in force all the same.
    (&[FILL, FILL, Event::Undo], -8),
    (&[FILL, FILL, Event::Undo, Event::Undo], 127),
];

/// Asserts the sample in the middle of a world that has no event after some events.
fn expect_after(rt: &impl Abort, alloc: Global, world: &mut World, events: &[Event], sample: i8) {
    apply_all(rt, alloc, world, events);
    expect(rt, "the journal", world.events(), events);
    expect_sample(rt, events, world.version(), MIDDLE, sample);
}

/// Asserts the same of a new world.
fn expect_undone_anew(rt: &impl Abort, alloc: Global, events: &[Event], sample: i8) {
    let mut world = expect_made(rt, World::new(alloc, SMALL));
    expect_after(rt, alloc, &mut world, events, sample);
    drop(world);
}

#[test]
fn an_undo_takes_the_last_edit_in_force(rt: HostRuntime) {
    for (events, sample) in &UNDONE {
        expect_undone_anew(&rt, rt.alloc(), events, *sample);
    }
}

/// Events after which no edit is in force.
static NOTHING: [&[Event]; 4] = [
    &[],
    &[CAMERA],
    &[FILL, Event::Undo],
    &[FILL, CARVE, Event::Undo, CAMERA, Event::Undo, AWAY],
];

/// Asserts that an undo is refused after these events of a world that has none.
fn expect_refused(rt: &impl Abort, alloc: Global, world: &mut World, events: &[Event]) {
    apply_all(rt, alloc, world, events);
    let refused = refusal(rt, alloc, world, Event::Undo);
    expect(rt, events, refused, Some(ApplyFault::NothingToUndo));
    expect(rt, "the journal", world.events(), events);
}

/// Asserts the same of a new world.
fn expect_refused_anew(rt: &impl Abort, alloc: Global, events: &[Event]) {
    let mut world = expect_made(rt, World::new(alloc, SMALL));
    expect_refused(rt, alloc, &mut world, events);
    drop(world);
}

#[test]
fn an_undo_without_an_edit_is_refused(rt: HostRuntime) {
    for events in &NOTHING {
        expect_refused_anew(&rt, rt.alloc(), events);
    }
}

/// Asserts the samples of a world at the points of the forty edits.
fn expect_at_points(rt: &impl Abort, case: usize, world: &World, samples: [i8; 3]) {
    for i in 0..3 {
        expect_sample(rt, case, world.version(), POINTS[i], samples[i]);
    }
}

/// Adds the forty edits to a world, and asserts the samples after each.
fn expect_edits(rt: &impl Abort, alloc: Global, world: &mut World) {
    for number in 0..EDITS.len() {
        let (brush, samples) = EDITS[number];
        drop(expect_made(rt, apply(rt, alloc, world, Event::Edit(brush))));
        expect_at_points(rt, number, world, samples);
    }
}

/// Undoes the forty edits, and asserts the samples before each undo.
fn expect_undos(rt: &impl Abort, alloc: Global, world: &mut World) {
    for undone in 0..EDITS.len() {
        let number = EDITS.len() - 1 - undone;
        expect_at_points(rt, number, world, EDITS[number].1);
        drop(expect_made(rt, apply(rt, alloc, world, Event::Undo)));
    }
}

/// Adds the forty edits to a world that has none, and undoes them.
fn expect_forty(rt: &impl Abort, alloc: Global, world: &mut World) {
    expect_edits(rt, alloc, world);
    expect_undos(rt, alloc, world);
    expect_at_points(rt, EDITS.len(), world, [127; 3]);
}

#[test]
fn undoes_forty_edits_one_by_one(rt: HostRuntime) {
    let mut world = expect_made(&rt, World::new(rt.alloc(), Settings { depth: 1, reach: 0 }));
    expect_forty(&rt, rt.alloc(), &mut world);
    drop(world);
}

const BALL: Event = Event::Edit(Brush::Ball {
    mode: Mode::Fill,
    at: Point {
        z: 96,
        y: 128,
        x: 160,
    },
    r: 45,
});

/// Adds so many undos to a world.
fn undo(rt: &impl Abort, alloc: Global, world: &mut World, undos: usize) {
    for _ in 0..undos {
        drop(expect_made(rt, apply(rt, alloc, world, Event::Undo)));
    }
}

/// A ball, and then seven edits of all pages, of which six at most are kept.
static SEVEN_ON_A_BALL: [Event; 8] = [
    BALL,
    Event::Edit(FILL_ALL),
    Event::Edit(CARVE_ALL),
    Event::Edit(FILL_ALL),
    Event::Edit(CARVE_ALL),
    Event::Edit(FILL_ALL),
    Event::Edit(CARVE_ALL),
    Event::Edit(FILL_ALL),
];

/// Asserts that two versions have the same samples at points that lie 32 apart.
fn expect_same<C: Copy + Debug>(rt: &impl Abort, case: C, one: &Version, other: &Version) {
    for z in 0..9 {
        for y in 0..9 {
            for x in 0..9 {
                let at = Point::new(32 * x, 32 * y, 32 * z);
                expect_sample(rt, case, one, at, sample_of(rt, other, at));
            }
        }
    }
}

/// Returns the sample of a version at a point, which has to be in the world.
fn sample_of(rt: &impl Abort, version: &Version, at: Point) -> i8 {
    let settings = Settings {
        depth: version.depth(),
        reach: 0,
    };
    rely_on(rt, at, at.is_in_world(&settings));
    version.sample(at)
}

/// Asserts that seven edits of all pages are too many to be kept.
fn expect_too_many(rt: &impl Abort, alloc: Global, opening: &Version) {
    let filled = kept_by(rt, alloc, opening, &FILL_ALL);
    let pages = filled.1.pages();
    drop(filled);
    expect(rt, "all pages", pages, 17 * 17 * 17);
    expect(rt, "seven times", 7 * pages > MAX_KEPT_PAGES, true);
}

/// Asserts the same by a world that has no event.
fn expect_replayed(rt: &impl Abort, alloc: Global, world: &World, replayed: &mut World) {
    drop(expect_made(rt, apply(rt, alloc, replayed, BALL)));
    expect_same(rt, "the ball", world.version(), replayed.version());
}

/// Asserts that a world has the samples that the ball alone leaves.
fn expect_ball(rt: &impl Abort, alloc: Global, world: &World) {
    let mut replayed = expect_made(rt, World::new(alloc, LARGE));
    expect_replayed(rt, alloc, world, &mut replayed);
    drop(replayed);
}

/// Adds the ball and the seven edits to a world, undoes the seven and then the ball, and asserts samples after both.
fn expect_undone(rt: &impl Abort, alloc: Global, world: &mut World, opening: &Version) {
    apply_all(rt, alloc, world, &SEVEN_ON_A_BALL);
    // The seventh undo replays the ball, which is kept anew then.
    undo(rt, alloc, world, 7);
    expect_ball(rt, alloc, world);
    undo(rt, alloc, world, 1);
    expect_same(rt, "no edit", world.version(), opening);
}

/// Asserts the same of a new world.
fn expect_seven(rt: &impl Abort, alloc: Global, opening: &Version) {
    let mut world = expect_made(rt, World::new(alloc, LARGE));
    expect_undone(rt, alloc, &mut world, opening);
    drop(world);
}

/// Asserts that seven edits of all pages are too many to be kept, and are undone all the same.
fn expect_past_kept(rt: &impl Abort, alloc: Global, opening: &Version) {
    expect_too_many(rt, alloc, opening);
    expect_seven(rt, alloc, opening);
}

#[test]
fn undoes_past_what_is_kept(rt: HostRuntime) {
    let opening = expect_made(&rt, Version::new(rt.alloc(), LARGE.depth));
    expect_past_kept(&rt, rt.alloc(), &opening);
    drop(opening);
}
