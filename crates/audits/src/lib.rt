//! Audits of frames: whether the meshes of leaves meet without cracks, and what many looks at frames count together.
#![tactic(auto)]

mod alone;
mod audit;
mod counts;
mod leaves;
mod tally;

pub use audit::Audit;
pub use counts::Counts;
pub use leaves::MAX_LEAVES;
