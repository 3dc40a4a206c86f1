//! Theorems about what an event changes, as functions with no parameters: what holds is the contract. A caller that
//! needs a theorem calls the function, which costs nothing.
#![tactic(auto)]

mod bricks;
mod changes;
mod maps;
mod touched;

pub use bricks::bricks_read_their_leaf;
pub use changes::{leaves_keep_their_bricks_until_touched, touched_nodes_add_up};
pub use maps::levels_follow_the_viewpoints;
pub use touched::{touched_leaves_are_met_or_changed, untouched_leaves_keep_their_bricks};
