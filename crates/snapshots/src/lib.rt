//! Frames: a world as readers see it, with the mesh of each of its leaves, and patches that lead from one frame to a
//! later one.
//!
//! A frame has a journal, the field and the level map after it, and a table with the block of each leaf. A patch has
//! the events that come next, the field and the level map after them, and the blocks of the leaves that one of these
//! events touched; all other leaves keep their blocks, and frames share them. All of it is the project's own rule.
#![tactic(auto)]

mod absorbing;
mod block_table;
mod frame;
mod patch;
mod seams;
mod stats;

pub use absorbing::{frames_absorb_patches, later_patches_suffice};
pub use frame::Frame;
pub use patch::Patch;
pub use seams::{histories_are_seamless, sound_frames_have_no_crack};
pub use stats::Stats;
