//! The bytes of heads and patches.

ghost use Rattle.lattice.specs.Settings.{IsSettings};

use crate::asserts::expect;
use crate::played::wire_of;
use crate::wires::{BOX, CHAIN, EACH_TAG};
use lattice::{MAX_DEPTH, MAX_REACH, Point, Settings};
use std::alloc::Global;
use std::process::Abort;
use terrain::{Brush, Event, Mode};

/// The smallest world.
const SMALL: Settings = Settings { depth: 0, reach: 0 };

/// The world of depth 1 whose levels are chosen near the cameras alone.
const TWO_LEVELS: Settings = Settings { depth: 1, reach: 1 };

/// A box that fills the point (8, 8, 8).
const FILL: Event = Event::Edit(Brush::Cuboid {
    mode: Mode::Fill,
    lo: Point { z: 8, y: 8, x: 8 },
    hi: Point { z: 8, y: 8, x: 8 },
});

/// What has the wire `CHAIN`.
const PLAYED: [&[Event]; 6] = [
    &[Event::Camera {
        view: 0,
        at: Point { z: 0, y: 0, x: 0 },
    }],
    &[FILL],
    &[Event::Camera {
        view: 7,
        at: Point {
            z: 32,
            y: 32,
            x: 32,
        },
    }],
    &[Event::Undo],
    &[Event::Away { view: 0 }],
    &[Event::Away { view: 7 }],
];

/// Events of each tag, which have the wire `EACH_TAG`.
pub(crate) const EVENTS: [Event; 7] = [
    Event::Edit(Brush::Cuboid {
        mode: Mode::Carve,
        lo: Point { z: 3, y: 2, x: 1 },
        hi: Point { z: 6, y: 5, x: 4 },
    }),
    Event::Edit(Brush::Ball {
        mode: Mode::Carve,
        at: Point { z: 9, y: 8, x: 7 },
        r: 10,
    }),
    Event::Edit(Brush::Ground {
        mode: Mode::Carve,
        h: 11,
    }),
    Event::Edit(Brush::Smooth {
        lo: Point { z: 2, y: 1, x: 0 },
        hi: Point {
            z: 16,
            y: 15,
            x: 14,
        },
    }),
    Event::Camera {
        view: 3,
        at: Point {
            z: 14,
            y: 13,
            x: 12,
        },
    },
    Event::Away { view: 5 },
    Event::Undo,
];

/// Worlds, what is played on each, and its wire.
static WIRES: [(Settings, &[&[Event]], &[u8]); 4] = [
    (SMALL, &[], b"TERRAPW1\0\0"),
    (SMALL, &[&[FILL]], &BOX),
    (SMALL, &[&EVENTS], &EACH_TAG),
    (TWO_LEVELS, &PLAYED, &CHAIN),
];

/// Asserts that the settings are a world's.
fn expect_settings(rt: &impl Abort, settings: &Settings)
    ensures { IsSettings settings.now }
{
    assert!(rt; settings.depth <= MAX_DEPTH && settings.reach <= MAX_REACH);
}

/// Asserts the wire of a world.
fn expect_wire(
    rt: &impl Abort,
    alloc: Global,
    settings: &Settings,
    lists: &[&[Event]],
    bytes: &[u8],
) {
    expect_settings(rt, settings);
    let sink = wire_of(rt, alloc, *settings, lists);
    let is_same = sink.bytes() == bytes;
    drop(sink);
    expect(rt, bytes.len(), is_same, true);
}

#[test]
fn writes_heads_and_patches(rt: HostRuntime) {
    for (settings, lists, bytes) in &WIRES {
        expect_wire(&rt, rt.alloc(), settings, lists, bytes);
    }
}
