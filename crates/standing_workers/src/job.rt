//! What is asked of workers.

use block_mesh::Brick;

/// What a worker is asked to do.
#[derive(Drop)]
pub enum Job {
    /// To mesh a brick. The ticket is the number of the job, from 0.
    Mesh { ticket: u64, brick: Brick },
    /// To stop.
    Stop,
}
