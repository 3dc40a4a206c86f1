//! Brushes, and the units in which they work.

use lattice::Point;

/// The greatest sample, which is also that of a field before any edit; the least is its opposite.
pub const MAX_SAMPLE: i8 = 127;

/// How many units of a shape's value there are in a fine cell.
pub const SUBCELLS: u32 = 16;

/// How far past a shape its value can be less than `MAX_SAMPLE`, in fine cells.
pub const MARGIN: u32 = 8;

/// Whether a shaping brush adds ground or takes it away.
#[derive(Clone, Copy, Debug, PartialEq, Eq)]
pub enum Mode {
    Fill,
    Carve,
}

/// An edit of the samples. All lengths are in fine cells.
#[derive(Clone, Copy, Debug, PartialEq, Eq)]
pub enum Brush {
    /// A box of points, from `lo` to `hi`.
    Cuboid { mode: Mode, lo: Point, hi: Point },
    /// A ball at a point, of radius `r`.
    Ball { mode: Mode, at: Point, r: u32 },
    /// All that lies at or below the height `h`.
    Ground { mode: Mode, h: u32 },
    /// Smooths the samples of the points from `lo` to `hi`.
    Smooth { lo: Point, hi: Point },
}
