//! What a mail counted.

/// How many events went through a mail: those that the clerk took, and those that were left in the queue.
#[derive(Clone, Copy, Debug, PartialEq, Eq)]
pub struct Letters {
    pub taken: u64,
    pub left: u64,
}
