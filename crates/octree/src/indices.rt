//! Ranges of the indices of nodes on an axis, and boxes of nodes.

/// The indices from `low` to just below `end`.
#[derive(Clone, Copy, Debug, PartialEq, Eq)]
pub struct Indices {
    pub low: u32,
    pub end: u32,
}

/// The nodes of a level whose indices are among these on each axis.
#[derive(Clone, Copy, PartialEq, Eq)]
pub(crate) struct NodeBox {
    pub(crate) ks: Indices,
    pub(crate) js: Indices,
    pub(crate) is: Indices,
}
