//! The memory in which bricks are gathered, one after another.

ghost use Rattle.std.specs.Prelude.{◌≡◌, IfOk, OnOk, All};
ghost use Rattle.lattice.specs.Node.{IsNode};
ghost use Rattle.lattice.specs.Settings.{IsDepth};
ghost use Rattle.terrain.specs.Blocks.{brick, face_samples, leaf_samples};
ghost use Rattle.terrain.specs.Levels.{IsBalanced, IsLeaf};
ghost use Rattle.terrain.specs.Samples.{IsSample};
ghost use Rattle.field_pages.specs.Pages.{sample_at};
ghost use Rattle.octree.specs.SplitBits.{split_at};
ghost use Rattle.bricks.specs.Brick.{over_rim};

use crate::brick::{LEAF_SAMPLES, push_faces};
use crate::brick_view::BrickView;
use crate::parts::fill_leaf;
use field_pages::Version;
use lattice::{Node, nodes_of_worlds};
use octree::Levels;
use std::alloc::{AllocError, Global};
use std::marker::Model;

/// The memory in which bricks are gathered, one after another. It shows in no brick.
pub struct Room {
    /// Those of the last brick, after one was gathered.
    lists: Option<Lists>,
}

impl Model for Room {
    ghost use Rattle.std.specs.Prelude.{⊤};

    ghost Value = { ⊤ };

    ghost view = { λ _. tt };
}

// Written out, since a derived drop is proved anew in each crate that drops a room.
impl Drop for Room {
    fn drop(self) {
        let Self { lists: _lists } = self;
    }
}

impl Room {
    /// Returns memory for bricks, and takes none yet.
    pub fn new() -> Room {
        Room { lists: None }
    }

    /// Gathers the brick of a leaf, also where all its samples are one, and lends it. Out of memory is the only error.
    pub fn gather(
        &mut self,
        alloc: Global,
        version: &Version,
        levels: &Levels,
        leaf: Node,
    ) -> Result<BrickView<'_>, AllocError>
        requires depth { version.now.depth ≡ levels.now.depth }
        requires balanced { IsBalanced levels.now.depth (split_at levels.now) }
        requires leaf { IsLeaf levels.now.depth (split_at levels.now) leaf }
        ensures { IfOk result (λ gathered. gathered
            ≡ brick levels.now.depth (sample_at version.now) (split_at levels.now) leaf) }
    {
        let depth = levels.depth();
        let rim = levels.rim(leaf);
        let lists = self.lists.get_or_insert_with(|| Lists::new(alloc));
        lists.fill(version, leaf, rim)?;
        Ok(BrickView {
            depth,
            node: leaf,
            rim,
            samples: &lists.leaf,
            faces: &lists.faces,
        })
    }
}

/// The lists of a brick.
#[derive(Drop)]
pub(crate) struct Lists {
    /// By z, then y, then x.
    pub(crate) leaf: Vec<i8>,
    /// In the order of faces, and on a face by the higher axis, then the lower.
    pub(crate) faces: Vec<i8>,
}

impl Lists {
    /// Returns empty lists. They take no memory.
    pub(crate) fn new(alloc: Global) -> Lists {
        Lists {
            leaf: Vec::new(alloc),
            faces: Vec::new(alloc),
        }
    }

    /// Makes these the samples of a leaf, and the finer ones of the faces whose bits are set in a rim. Out of memory is
    /// the only error.
    pub(crate) fn fill(&mut self, version: &Version, leaf: Node, rim: u32) -> Result<(), AllocError>
        requires depth { IsDepth version.now.depth }
        requires leaf { IsNode version.now.depth leaf }
        requires level { leaf.level ≡ 0 → rim ≡ 0 }
        ensures leaf { OnOk result
            (self.new.leaf.items ≡ leaf_samples (sample_at version.now) leaf) }
        ensures faces { OnOk result
            (self.new.faces.items ≡ over_rim rim (face_samples (sample_at version.now) leaf)) }
        ensures leaf_range { OnOk result (All IsSample self.new.leaf.items) }
        ensures face_range { OnOk result (All IsSample self.new.faces.items) }
    {
        nodes_of_worlds();
        let _ = version.sample(leaf.low_corner());
        self.leaf.resize(LEAF_SAMPLES, 0)?;
        fill_leaf(version, leaf, &mut self.leaf);
        self.faces.clear();
        push_faces(version, leaf, rim, &mut self.faces)
    }
}
