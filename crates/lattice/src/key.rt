//! Keys: the edges of cells on which vertices may lie.

ghost use Rattle.std.specs.Prelude.{◌≡◌, ◌+◌, ◌^◌, ◌<◌};

use crate::point::{Axis, Point};

/// A key: the edge from the point `at` to the point `2^level` further along `axis`.
///
/// Keys are ordered by level, then `at` (z, y, x), then axis.
#[derive(Clone, Copy, Debug, PartialEq, Eq, PartialOrd, Ord, Hash)]
pub struct Key {
    pub level: u8,
    pub at: Point,
    pub axis: Axis,
}

impl Key {
    ghost use Rattle.lattice.specs.Key.{far_end};
    ghost use Rattle.lattice.specs.Point.{coordinate};

    /// Returns the point at which the key's edge ends.
    pub fn far_end(&self) -> Point
        requires level { self.now.level < 32 }
        requires fits { coordinate self.now.axis self.now.at + 2 ^ self.now.level < 2 ^ 32 }
        ensures { result ≡ far_end self.now }
    {
        self.at.moved(self.axis, 1 << self.level)
    }
}
