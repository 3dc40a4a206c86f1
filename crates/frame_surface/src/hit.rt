//! What a pick finds.

use lattice::Node;

/// The highest point of a surface over a place, and the first triangle that has it.
///
/// The height is `num / den` units of 1/256 fine cell.
#[derive(Clone, Copy, Debug, PartialEq, Eq)]
pub struct Hit {
    /// The triangle's leaf.
    pub node: Node,
    /// The triangle's number in the leaf's mesh, from 0.
    pub triangle: u32,
    /// The height's numerator.
    pub num: u128,
    /// The height's denominator, at least 1.
    pub den: u128,
}
