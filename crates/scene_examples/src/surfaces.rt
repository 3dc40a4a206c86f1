//! What tests of surfaces play with.

use lattice::{Node, Point, Settings};
use terra_events::{Brush, Event};
use terrain::Mode;

/// A world of one leaf.
pub const ONE_LEAF: Settings = Settings { depth: 0, reach: 0 };

/// The leaf of that world, and the node of the lowest level in the low corner of any other.
pub const CORNER: Node = Node {
    level: 0,
    k: 0,
    j: 0,
    i: 0,
};

/// Fills the one point in the middle of that world.
pub const POINT: Event = Event::Edit(Brush::Cuboid {
    mode: Mode::Fill,
    lo: Point { z: 8, y: 8, x: 8 },
    hi: Point { z: 8, y: 8, x: 8 },
});
