//! Leaves of the small world.

use block_mesh::Block;
use lattice::Node;
use std::sync::Arc;

/// The level of a node, and its place by `k`, `j` and `i`.
pub type Place = (u8, u32, u32, u32);

/// The leaves for a camera in the low corner, in the order of nodes: the eight of level 0 there, and seven of level 1.
const LOW_LEAVES: [Place; 15] = [
    (0, 0, 0, 0),
    (0, 0, 0, 1),
    (0, 0, 1, 0),
    (0, 0, 1, 1),
    (0, 1, 0, 0),
    (0, 1, 0, 1),
    (0, 1, 1, 0),
    (0, 1, 1, 1),
    (1, 0, 0, 1),
    (1, 0, 1, 0),
    (1, 0, 1, 1),
    (1, 1, 0, 0),
    (1, 1, 0, 1),
    (1, 1, 1, 0),
    (1, 1, 1, 1),
];

/// The leaves for a camera in the high corner.
const HIGH_LEAVES: [Place; 15] = [
    (0, 2, 2, 2),
    (0, 2, 2, 3),
    (0, 2, 3, 2),
    (0, 2, 3, 3),
    (0, 3, 2, 2),
    (0, 3, 2, 3),
    (0, 3, 3, 2),
    (0, 3, 3, 3),
    (1, 0, 0, 0),
    (1, 0, 0, 1),
    (1, 0, 1, 0),
    (1, 0, 1, 1),
    (1, 1, 0, 0),
    (1, 1, 0, 1),
    (1, 1, 1, 0),
];

/// What is no leaf any more once the camera goes from the low corner to the high one.
const GONE: [Place; 9] = [
    (0, 0, 0, 0),
    (0, 0, 0, 1),
    (0, 0, 1, 0),
    (0, 0, 1, 1),
    (0, 1, 0, 0),
    (0, 1, 0, 1),
    (0, 1, 1, 0),
    (0, 1, 1, 1),
    (1, 1, 1, 1),
];

/// Some leaves of the small world.
#[derive(Clone, Copy)]
pub enum Leaves {
    None,
    /// The leaves for a camera in the low corner.
    Low,
    /// Those of level 0 among them.
    LowEight,
    /// Those among them that follow the first one.
    LowRest,
    /// The leaves for a camera in the high corner.
    High,
    /// What is no leaf any more once the camera goes from the low corner to the high one.
    Gone,
}

impl Leaves {
    /// Returns the places of these leaves, in the order of nodes.
    pub fn places(self) -> &'static [Place] {
        match self {
            Leaves::None => &[],
            Leaves::Low => &LOW_LEAVES,
            Leaves::LowEight => &LOW_LEAVES[..8],
            Leaves::LowRest => &LOW_LEAVES[1..],
            Leaves::High => &HIGH_LEAVES,
            Leaves::Gone => &GONE,
        }
    }
}

pub fn place(node: Node) -> Place {
    (node.level, node.k, node.j, node.i)
}

/// Returns whether these are the nodes at some places, in order.
pub fn are_nodes(nodes: &[Node], places: &[Place]) -> bool {
    for (node, expected) in nodes.iter().zip(places) {
        if place(*node) != *expected {
            return false;
        }
    }
    nodes.len() == places.len()
}

/// Returns whether these are the blocks of the leaves at some places, in order.
pub fn are_blocks(blocks: &[Arc<Block>], places: &[Place]) -> bool {
    for (done, expected) in blocks.iter().zip(places) {
        if place(done.node()) != *expected {
            return false;
        }
    }
    blocks.len() == places.len()
}
