//! What is kept for each node of a world: sets of nodes, by a bit for each node, and tables, by a slot for each.
//!
//! Only a new set or table takes memory, a bit or a slot for each node of its world. What is done with whole sets is
//! done word by word.
#![tactic(auto)]

mod bits;
mod members;
mod places;
mod runs;
mod set;
mod slots;
mod table;
mod words;

pub use members::Members;
pub use set::NodeSet;
pub use table::{NodeTable, slot_count};
