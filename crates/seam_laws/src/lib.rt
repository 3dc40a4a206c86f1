//! No crack between blocks: what the triangles of all blocks leave open is what the border of the world leaves open.
//!
//! These are theorems about the definitions of `terrain` alone, as functions with no parameters and an empty body: what
//! holds of them is the contract.
#![tactic(auto)]

mod examples;
mod seams;
mod sides;

pub use examples::{ground_at_a_segment, ground_at_a_square, one_split_corner};
pub use seams::{
    faces_cancel, leaves_leave_faces_and_rows, no_crack, no_crack_by_faces, sides_cancel,
};
pub use sides::{squares_have_two_cells_or_none, turns_round_a_segment_alternate};
