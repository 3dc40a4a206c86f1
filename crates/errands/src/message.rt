//! What lies at an exchange.

/// What one end leaves for the other one.
#[derive(Drop)]
pub enum Message<Q, A> {
    /// What is asked.
    Ask(Q),
    /// What came of it.
    Reply(A),
    /// Nothing will be asked any more.
    Stop,
}
