//! Places over which a surface is asked for.

/// A place: x and y, in units of 1/256 fine cell.
#[derive(Clone, Copy)]
pub(crate) struct Spot {
    pub x: u32,
    pub y: u32,
}
