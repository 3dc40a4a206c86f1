//! The level map of a world: which of its nodes are split for its viewpoints, its leaves, and their rims.
//!
//! A node is split where it is near a viewpoint (wanted split), or where balance needs it: two leaves that share
//! part of a face or of an edge differ by at most one level, after Lengyel's blocks (2010), and no more is split than
//! that. A level map has a bit for each node above level 0, in a word for each row of nodes. `choose` goes up from
//! level 1, for all viewpoints at once: each wants a box of the nodes of a level, and balance splits the parents of the
//! nodes next to those split below. What is asked of all leaves is told row by row: which nodes of a row are leaves,
//! and which of them a change of levels makes other leaves.
#![tactic(auto)]

mod above;
mod changed;
mod choosing;
mod following;
mod indices;
mod laws;
mod layer;
mod leaves;
mod levels;
mod rims;
mod rows;
mod viewpoints;
mod wanted;

pub use changed::{LeafChange, leaf_change};
pub use choosing::choose;
pub use following::follow;
pub use indices::Indices;
pub use laws::{maps_of_viewpoints_are_balanced, viewpoints_that_want_the_same_split_the_same};
pub use levels::Levels;
pub use viewpoints::Viewpoints;
