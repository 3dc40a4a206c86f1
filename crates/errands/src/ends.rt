//! The two ends of an exchange.

use crate::message::Message;
use crate::side::Side;
use crossbeam_queue::Pass;

/// The end of the thread that asks. Contracts see what was asked and isn't collected; it takes no memory.
#[derive(Drop)]
pub struct Asker<Q, A> {
    pub(crate) pass: Pass<Message<Q, A>, Side<Q>>,
}

/// The end of the thread that is asked. Contracts see what is being done.
#[derive(Drop)]
pub struct Doer<Q, A> {
    pub(crate) pass: Pass<Message<Q, A>, Side<Q>>,
    /// How often something was asked when it looked last.
    pub(crate) seen: u64,
}
