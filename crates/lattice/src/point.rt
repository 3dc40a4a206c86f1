//! Points, axes, faces and positions.

ghost use Rattle.std.specs.Prelude.{◌≡◌, ◌+◌, ◌^◌, ◌<◌, ◌↔◌, IsTrue};
ghost use Rattle.lattice.specs.Settings.{IsDepth};

use crate::settings::Settings;

/// A point of the lattice, in fine cells; each coordinate is 0 to the world's side.
///
/// Points are ordered by z, then y, then x.
#[derive(Clone, Copy, Debug, PartialEq, Eq, PartialOrd, Ord, Hash)]
pub struct Point {
    pub z: u32,
    pub y: u32,
    pub x: u32,
}

/// One of the three axes, in the order X, Y, Z.
#[derive(Clone, Copy, Debug, PartialEq, Eq, PartialOrd, Ord, Hash)]
pub enum Axis {
    X,
    Y,
    Z,
}

/// A face of a node: an axis, and the low or the high side of it.
#[derive(Clone, Copy, Debug, PartialEq, Eq, PartialOrd, Ord, Hash)]
pub enum Face {
    XLow,
    XHigh,
    YLow,
    YHigh,
    ZLow,
    ZHigh,
}

/// How many units of a position there are in a fine cell.
pub const UNITS: u32 = 256;

/// A position of a vertex, in units of 1/256 fine cell.
#[derive(Clone, Copy, Debug, PartialEq, Eq, Hash)]
pub struct Pos {
    pub x: u32,
    pub y: u32,
    pub z: u32,
}

impl Point {
    ghost use Rattle.lattice.specs.Point.{IsInWorld, coordinate, moved};

    /// Returns the point with these coordinates.
    pub const fn new(x: u32, y: u32, z: u32) -> Point
        ensures { result ≡ record { z = z; y = y; x = x } }
    {
        Point { z, y, x }
    }

    /// Returns the coordinate on an axis.
    pub fn coordinate(&self, axis: Axis) -> u32
        ensures { result ≡ coordinate axis self.now }
    {
        match axis {
            Axis::X => self.x,
            Axis::Y => self.y,
            Axis::Z => self.z,
        }
    }

    /// Returns the point that is `by` fine cells further along an axis.
    pub fn moved(self, axis: Axis, by: u32) -> Point
        requires { coordinate axis self + by < 2 ^ 32 }
        ensures { result ≡ moved axis by self }
    {
        match axis {
            Axis::X => Point {
                x: self.x + by,
                ..self
            },
            Axis::Y => Point {
                y: self.y + by,
                ..self
            },
            Axis::Z => Point {
                z: self.z + by,
                ..self
            },
        }
    }

    /// Returns whether each coordinate is at most the world's side.
    pub fn is_in_world(&self, settings: &Settings) -> bool
        requires { IsDepth settings.now.depth }
        ensures { IsTrue result ↔ IsInWorld settings.now.depth self.now }
    {
        let side = settings.world_side();
        self.z <= side && self.y <= side && self.x <= side
    }
}

impl Face {
    ghost use Rattle.lattice.specs.Face.{faces, axis_across, axis_along, is_high, lower, higher};

    /// The six faces in their order.
    pub const ALL: [Face; 6] = [
        Face::XLow,
        Face::XHigh,
        Face::YLow,
        Face::YHigh,
        Face::ZLow,
        Face::ZHigh,
    ];

    /// Returns the axis that leads across the face.
    pub fn axis_across(self) -> Axis
        ensures { result ≡ axis_across self }
    {
        match self {
            Face::XLow | Face::XHigh => Axis::X,
            Face::YLow | Face::YHigh => Axis::Y,
            Face::ZLow | Face::ZHigh => Axis::Z,
        }
    }

    /// Returns the lower of the two axes along the face.
    pub fn lower_axis(self) -> Axis
        ensures { result ≡ axis_along self lower }
    {
        match self {
            Face::XLow | Face::XHigh => Axis::Y,
            Face::YLow | Face::YHigh | Face::ZLow | Face::ZHigh => Axis::X,
        }
    }

    /// Returns the higher of the two axes along the face.
    pub fn higher_axis(self) -> Axis
        ensures { result ≡ axis_along self higher }
    {
        match self {
            Face::XLow | Face::XHigh | Face::YLow | Face::YHigh => Axis::Z,
            Face::ZLow | Face::ZHigh => Axis::Y,
        }
    }

    /// Returns whether the face is the high one of its axis.
    pub fn is_high(self) -> bool
        ensures { result ≡ is_high self }
    {
        matches!(self, Face::XHigh | Face::YHigh | Face::ZHigh)
    }
}
