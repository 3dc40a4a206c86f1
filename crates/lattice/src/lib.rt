//! The lattice of a terrain world: its points, nodes, keys and positions, and the settings that fix its size.
//!
//! A world of depth `L` has the fine cells of a cube of side `16 * 2^L`. A node of level `l` is a cube of side
//! `16 * 2^l`, after Lengyel's blocks of 16 x 16 x 16 cells (2010). A key names an edge of a cell, on which
//! Marching Cubes (Lorensen and Cline 1987) may place a vertex.
//!
//! The fields of `Point`, `Node` and `Key` are in the order in which they are compared, so the derived orders are
//! the project's orders, as the laws `order_of_points`, `order_of_nodes` and `order_of_keys` say.
#![tactic(auto)]

mod key;
mod node;
mod orders;
mod point;
mod region;
mod settings;
mod steps;
mod worlds;

pub use key::Key;
pub use node::{CELLS, Node, node_side, nodes_across, nodes_below};
pub use orders::{
    counts_of_nodes, nodes_in_order, order_of_keys, order_of_nodes, order_of_points, slots_of_nodes,
};
pub use point::{Axis, Face, Point, Pos, UNITS};
pub use region::Region;
pub use settings::{MAX_DEPTH, MAX_REACH, MAX_SIDE, Settings};
pub use steps::point_after;
pub use worlds::{nodes_of_worlds, points_of_regions, sizes_of_worlds};
