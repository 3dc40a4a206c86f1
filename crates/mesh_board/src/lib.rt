//! The engine's board, which knows of each leaf whether its mesh is wanted, is being made, or is there.
#![tactic(auto)]

mod board;
mod leaf_table;
mod patching;
mod verdict;

pub use board::Board;
pub use verdict::Verdict;
