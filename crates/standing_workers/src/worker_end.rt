//! What a worker did.

use crate::seat::Seat;

/// What a worker did in one call of `work`.
#[derive(Drop)]
pub struct WorkerEnd {
    pub seat: Seat,
    /// How many jobs to mesh it popped.
    pub popped: u64,
    /// Of how many of them it made the mesh.
    pub made: u64,
    /// How many of them were lost, since memory ran out.
    pub lost: u64,
}
