//! Worlds that one thread of a game owns: they are edited, meshed on that thread or by jobs that any other thread
//! makes, and drawn from a frame that is brought up to date on demand. No call waits, and none starts a thread.
//!
//! A game that has threads of Rattle and viewers in them takes `scenes` in its place. This crate is what a C library
//! stands on, which can be given no handle for threads.
#![tactic(auto)]

mod fault;
mod game;
mod job;
mod snapshot;

pub use audits::Audit;
pub use block_mesh::{BlockView, Done};
pub use fault::{NotUpdated, Refused};
pub use frame_surface::{Hit, Normal, keys_of_leaves_are_in_their_world};
pub use game::GameWorld;
pub use job::Job;
pub use lattice::{Key, MAX_DEPTH, MAX_REACH, Node, Point, Pos, Settings, UNITS};
pub use mesh_jobs::Verdict;
pub use snapshot::Snapshot;
pub use snapshots::Stats;
pub use terrain::{Brush, Event, MAX_VIEWS, Mode};
