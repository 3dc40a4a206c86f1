//! Theorems about nodes and level maps alone, as functions with no parameters and an empty body: what holds is the
//! contract. A caller that needs a theorem calls the function, which costs nothing.
//!
//! Its `proofs/` also offer lemmas on plain nodes and leaves to the proofs of the crates above, which import them: a
//! node's parent and children (`NodeLemmas`), ranges on an axis (`RangeLemmas`), what two nodes share (`ShareLemmas`),
//! what balance splits (`SplitLemmas`), and the tests of leaves (`LeafLemmas`) and of nodes among others
//! (`AmongLemmas`).
#![tactic(auto)]

mod balance;
mod leaves;
mod nodes;

pub use balance::balance_splits_nodes_beside_split_ones;
pub use leaves::leaves_are_listed;
pub use nodes::nodes_are_told_apart;
