//! The lists of a mesh.

use lattice::{Key, Pos};

/// The lists of a leaf's mesh, lent by what holds them.
#[derive(Clone, Copy, Debug)]
pub struct BlockView<'a> {
    /// In the order of first use, each once.
    pub keys: &'a [Key],
    /// Where the vertex of each key lies.
    pub positions: &'a [Pos],
    /// The indices of their keys, counter-clockwise as seen from the empty side.
    pub triangles: &'a [[u32; 3]],
}
