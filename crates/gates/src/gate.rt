//! What is told of workers and watchers, in their threads.

/// What is told of the steps of workers and watchers, in their threads. A test may hold them up by it, and nothing that
/// it does changes what they do.
pub trait MeshGate: Sync {
    /// A worker is about to mesh the brick of the job with this ticket.
    fn pass(&self, ticket: u64);

    /// A watcher has looked at a frame whose journal has this many events. Watchers have numbers from 0.
    fn look(&self, watcher: u8, events: u32);
}

/// The gate that does nothing.
#[derive(Clone, Copy, Debug, PartialEq, Eq)]
pub struct NoGate;

impl MeshGate for NoGate {
    fn pass(&self, ticket: u64) {}

    fn look(&self, watcher: u8, events: u32) {}
}
