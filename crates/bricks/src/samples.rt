//! The samples of a brick, as it keeps them.

/// The samples of a leaf, and the finer ones of the faces across which it meets finer leaves.
#[derive(Debug, Drop)]
pub(crate) enum Samples {
    /// All of them are this one.
    Even(i8),
    Lists {
        /// By z, then y, then x.
        leaf: Vec<i8>,
        /// In the order of faces, and on a face by the higher axis, then the lower.
        faces: Vec<i8>,
    },
}
