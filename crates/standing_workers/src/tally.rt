//! The tally of all work.

/// What became of all jobs to mesh, once no worker works any more.
#[derive(Clone, Copy, Debug, PartialEq, Eq)]
pub struct Tally {
    /// How many jobs the desk pushed.
    pub issued: u64,
    /// How many jobs and outcomes the desk popped.
    pub collected: u64,
    /// How many jobs and outcomes are left in the queues.
    pub left: u64,
}
