//! Patches.

use block_mesh::Block;
use field_pages::Version;
use lattice::Node;
use octree::Levels;
use std::sync::Arc;
use terrain::Event;

/// What leads from one frame to a later one.
#[derive(Debug)]
pub struct Patch {
    /// How many events the frame has.
    pub base: u32,
    /// The events that come next.
    pub events: Vec<Event>,
    /// The field after them.
    pub version: Arc<Version>,
    /// The level map after them.
    pub levels: Arc<Levels>,
    /// The blocks of the leaves then that one of these events touched, in the order of nodes.
    pub put: Vec<Arc<Block>>,
    /// The leaves of the frame that are leaves no more, in the order of nodes.
    pub gone: Vec<Node>,
}

// Written out, since a derived drop is proved anew in each crate that drops a patch.
impl Drop for Patch {
    fn drop(self) {
        let Self {
            base: _,
            events: _events,
            version: _version,
            levels: _levels,
            put: _put,
            gone: _gone,
        } = self;
    }
}
