//! Curves on the faces of cells.

/// A curve on a face of a cell, from the side on which it starts to the side on which it ends.
///
/// A side is named by the number that its cell gives it.
#[derive(Clone, Copy, Debug, Default, PartialEq, Eq)]
pub struct Curve {
    pub start: u8,
    pub end: u8,
}
