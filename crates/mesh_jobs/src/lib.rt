//! Meshing what a board wants: on the calling thread, or on many threads, in rounds.
#![tactic(auto)]

mod bulk;
mod mesher;
mod meshing;
mod round;
mod worker;

pub use bulk::Bulk;
pub use mesh_board::{Board, Verdict};
pub use mesher::Mesher;
pub use meshing::{settle, settle_on};
pub use round::{Haul, Round};
