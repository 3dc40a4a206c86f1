//! What is asked of a frame's surface: the normal of a key, and the highest point over a place.
//!
//! A key has one normal, in whichever blocks it is, since it is made from the field alone (`surface_normals`). A pick
//! answers exactly: heights are fractions, and the triangle that is found is the first one, whatever the search skips.
#![tactic(auto)]

mod corners;
mod height;
mod hit;
mod laws;
mod line;
mod normals;
mod picking;
mod scanning;
mod spot;
mod tops;
mod turns;

pub use hit::Hit;
pub use laws::{
    keys_of_leaves_are_in_their_world, surfaces_stand_over_their_nodes, triangles_lie_in_their_leaf,
};
pub use normals::normal;
pub use picking::pick;
pub use surface_normals::Normal;
pub use tops::height_over;
