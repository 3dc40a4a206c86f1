//! Queues that threads share, and accounts of what each thread pushed and popped.
#![tactic(auto)]

mod account;
mod entries;
mod queue;
mod rule;

pub use account::Account;
pub use entries::Entries;
pub use queue::SharedQueue;
