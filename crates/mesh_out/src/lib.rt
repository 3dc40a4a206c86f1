//! The texts that a run writes: shots as Wavefront OBJ, lines of stats and of picks, and the line of watchers.
#![tactic(auto)]

mod fault;
mod lines;
mod numerals;
mod obj;
mod pick;
mod shot;
mod stats;
mod watch;

pub use audits::Audit;
pub use fault::OutFault;
pub use obj::{MAX_MESH_BASE, push_group, push_shot_head, push_vertices};
pub use pick::write_pick;
pub use shot::{MAX_BASE, MAX_VERTICES, write_mesh, write_piece, write_shot};
pub use stats::{push_stats, write_stats, write_stats_line};
pub use watch::write_watch;
