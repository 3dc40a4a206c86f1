//! Events of the small world, and how an event is applied to a board.

use lattice::{Point, Settings};
use mesh_jobs::Board;
use std::alloc::Global;
use terra_events::{ApplyFault, Brush, Event, is_lawful};
use terrain::Mode;

const LOW: Point = Point { z: 0, y: 0, x: 0 };

const HIGH: Point = Point {
    z: 64,
    y: 64,
    x: 64,
};

/// A point in the first leaf of level 0 for a camera in the low corner.
const INSIDE: Point = Point { z: 8, y: 8, x: 8 };

/// A point in the leaf beside it, from where a fill changes samples in their common face.
const BESIDE: Point = Point { z: 8, y: 8, x: 24 };

/// The high corner of the last leaf of level 0 then.
const MIDDLE: Point = Point {
    z: 32,
    y: 32,
    x: 32,
};

/// A point in a leaf of level 1 then, from where a fill changes no sample of a leaf of level 0.
const FAR: Point = Point {
    z: 48,
    y: 48,
    x: 48,
};

/// Puts the camera in the low corner.
pub const SEE_LOW: Event = Event::Camera { view: 0, at: LOW };

/// Puts the camera in the high corner.
pub const SEE_HIGH: Event = Event::Camera { view: 0, at: HIGH };

pub const FILL_INSIDE: Event = Event::Edit(Brush::Cuboid {
    mode: Mode::Fill,
    lo: INSIDE,
    hi: INSIDE,
});

pub const FILL_BESIDE: Event = Event::Edit(Brush::Cuboid {
    mode: Mode::Fill,
    lo: BESIDE,
    hi: BESIDE,
});

pub const FILL_MIDDLE: Event = Event::Edit(Brush::Cuboid {
    mode: Mode::Fill,
    lo: MIDDLE,
    hi: MIDDLE,
});

pub const FILL_FAR: Event = Event::Edit(Brush::Cuboid {
    mode: Mode::Fill,
    lo: FAR,
    hi: FAR,
});

/// Changes no sample where nothing is solid.
pub const CARVE_INSIDE: Event = Event::Edit(Brush::Cuboid {
    mode: Mode::Carve,
    lo: INSIDE,
    hi: INSIDE,
});

/// Makes every sample what it was at first, unless there was something solid near the border of the world.
pub const CARVE_ALL: Event = Event::Edit(Brush::Cuboid {
    mode: Mode::Carve,
    lo: LOW,
    hi: HIGH,
});

pub const FILL_GROUND: Event = Event::Edit(Brush::Ground {
    mode: Mode::Fill,
    h: 8,
});

/// Applies an event to a board, if the board's world takes it, and returns whether it does.
pub fn apply(alloc: Global, board: &mut Board, event: Event) -> Result<bool, ApplyFault> {
    if !is_lawful(&event, board.world().settings()) {
        return Ok(false);
    }
    board.apply(alloc, event)?;
    Ok(true)
}
