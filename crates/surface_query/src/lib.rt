//! Shots whose vertices have normals, as Wavefront OBJ.
//!
//! Whoever writes these asks of the surface elsewhere too: so the calls of `frame_surface` are lent here.
#![tactic(auto)]

mod bases;
mod lines;
mod normals;
mod numbers;
mod shots;

pub use bases::Bases;
pub use frame_surface::{
    Hit, Normal, height_over, keys_of_leaves_are_in_their_world, normal, pick,
    surfaces_stand_over_their_nodes, triangles_lie_in_their_leaf,
};
pub use shots::{NormalFault, write_shot_normals};
