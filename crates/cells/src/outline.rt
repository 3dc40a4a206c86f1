//! The faces of cells, by the numbers of their corners and sides.

/// A face of four corners, by numbers: its corners, counter-clockwise as seen from outside the cell, and its sides, of
/// which each goes from the corner at its place to the next one, and the last back to the first.
#[derive(Clone, Copy, Debug)]
pub struct Square {
    pub corners: [u8; 4],
    pub sides: [u8; 4],
}

/// A face between the coarse and the fine side of a transition cell: two coarse corners and three fine points.
#[derive(Clone, Copy, Debug)]
pub struct Lateral {
    pub corners: [u8; 5],
    pub sides: [u8; 5],
}
