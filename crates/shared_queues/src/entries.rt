//! What an account shows.

use std::collections::LinkedList;

/// What an account shows: how many of the queue's shares it has, and which items were pushed and popped with it, in
/// their order. No value of it is made.
pub struct Entries<T> {
    pub shares: u64,
    pub pushed: LinkedList<T>,
    pub popped: LinkedList<T>,
}
