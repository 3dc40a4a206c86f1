//! The meshes of leaves.
//!
//! A leaf's mesh is made from its brick alone: the triangles of its regular cells, then those of its transition cells,
//! both Lengyel's (2010), with each key once. The order of keys and triangles is this project's rule.
#![tactic(auto)]

mod bench;
mod block;
mod builder;
mod cell_steps;
mod done;
mod growing;
mod mesh_edge;
mod mesher;
mod nets;
mod scratch;
mod seen;
mod signs;
mod vertices;

pub use bench::Bench;
pub use bricks::{Brick, gather};
pub use done::{Block, Done, equal_bricks_have_equal_meshes};
pub use mesher::MAX_KEYS;
pub use terrain::BlockView;
pub use vertex_places::{Move, Moves, fine_points_stay};
