//! What becomes of jobs.

use block_mesh::Done;
use lattice::Node;

/// What became of a job to mesh a brick.
#[derive(Drop)]
pub enum Outcome {
    /// The brick with its block.
    Made { ticket: u64, done: Done },
    /// Memory ran out. The node is that of the brick.
    Lost { ticket: u64, node: Node },
}
