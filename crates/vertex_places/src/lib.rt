//! Where the vertices of a leaf's keys lie.
//!
//! A vertex lies between the ends of its key, by the linear interpolation of Marching Cubes (Lorensen and Cline 1987).
//! Where levels meet, the ends of a leaf's keys first move into the leaf, to make room for transition cells. How far
//! is this project's rule, and the leaf's rim alone tells it.
#![tactic(auto)]

mod direction;
mod leaf_edge;
mod leaf_places;
mod leaf_rim;
mod moves;
mod places;

pub use leaf_edge::LeafEdge;
pub use leaf_places::{edge_position, unmoved_position};
pub use moves::{Move, Moves, fine_points_stay};
