//! What is written of a script.

use arguments::Options;

/// What is written of a script.
#[derive(Clone, Copy, Debug, PartialEq, Eq)]
pub enum Form {
    /// The meshes that it asks for, by a run with these options.
    Text(Options),
    /// Its wire: the patches of the frames that they are of.
    Wire,
}
