//! Normals as numbers.

/// A normal: a direction off the surface, of any length, also 0.
#[derive(Clone, Copy, Debug, PartialEq, Eq)]
pub struct Normal {
    pub x: i32,
    pub y: i32,
    pub z: i32,
}
