//! Accounts with a shared queue.

use crate::entries::Entries;
use crossbeam_queue::Pass;

/// What a thread pushes to a shared queue and pops from it with. Contracts see its shares of the queue, and what was
/// pushed and popped with it; it takes no memory.
///
/// An account that is dropped takes its shares with it, so nobody has all of them again.
#[derive(Drop)]
pub struct Account<T> {
    pub(crate) pass: Pass<T, Entries<T>>,
}
