//! Edges of a leaf's cells, before their keys are made.

ghost use Rattle.std.specs.Prelude.{◌≡◌};
ghost use Rattle.lattice.specs.declared.settings.TheConstants.{MAX_DEPTH};
ghost use Rattle.lattice.specs.Key.{IsKey};
ghost use Rattle.lattice.specs.Steps.{AreAtMost};

use lattice::{Axis, Key, Point, point_after};

/// An edge of a leaf's cells, or of the cells of the level below on the leaf's faces: its level, how many cells of
/// that level its low end is from the leaf's low corner, its axis, and the samples at its ends. That takes less than a
/// quarter of the memory of its key and its position, which are made from it.
#[derive(Clone, Copy, Debug)]
pub struct LeafEdge {
    pub z: u8,
    pub y: u8,
    pub x: u8,
    pub axis: Axis,
    pub level: u8,
    pub near: i8,
    pub far: i8,
}

impl LeafEdge {
    ghost use Rattle.vertex_places.specs.LeafEdges.{edge_at, key_from, low_end};

    /// Returns the edge of a level that begins so many of its cells from the leaf's low corner.
    #[inline(always)]
    pub fn new(level: u8, at: Point, axis: Axis, near: i8, far: i8) -> LeafEdge
        requires { AreAtMost 255 at }
        ensures { result ≡ edge_at level at axis near far }
    {
        LeafEdge {
            z: at.z as u8,
            y: at.y as u8,
            x: at.x as u8,
            axis,
            level,
            near,
            far,
        }
    }

    /// Returns how many cells of its level the edge begins from the leaf's low corner.
    pub fn at(&self) -> Point
        ensures { result ≡ low_end self.now }
    {
        Point {
            z: self.z.into(),
            y: self.y.into(),
            x: self.x.into(),
        }
    }

    /// Returns the edge's key. `low` is the leaf's low corner.
    pub fn key(&self, low: Point) -> Key
        requires { IsKey MAX_DEPTH (key_from low self.now) }
        ensures { result ≡ key_from low self.now }
    {
        Key {
            level: self.level,
            at: point_after(low, self.level, self.at()),
            axis: self.axis,
        }
    }
}
