//! What becomes of a result.

/// What becomes of a block that is delivered to a board with its brick.
#[derive(Clone, Copy, Debug, PartialEq, Eq)]
pub enum Verdict {
    /// The brick is the present one of a leaf, which has the mesh from then on.
    Kept,
    /// The brick's node isn't a leaf any more, or its brick is another one by now.
    Stale,
}
