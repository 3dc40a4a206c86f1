//! Workbenches for meshes.

ghost use Rattle.std.specs.Prelude.{◌≡◌, IfErr, IfOk};
ghost use Rattle.std.specs.Arc.{arc_value};

use crate::done::{Block, Done};
use crate::mesher::{mesh_lists, mesh_on};
use crate::scratch::Scratch;
use crate::seen::{Seen, seen_brick};
use bricks::{Brick, Room, is_plain_leaf};
use cells::Cases;
use field_pages::Version;
use lattice::Node;
use octree::Levels;
use std::alloc::{AllocError, Global};
use std::marker::Model;
use std::sync::Arc;

/// A workbench on which bricks are gathered and meshes made, one after another. It keeps its memory, which shows in no
/// mesh.
pub struct Bench {
    room: Room,
    scratch: Scratch,
}

impl Model for Bench {
    ghost use Rattle.std.specs.Prelude.{⊤};

    ghost Value = { ⊤ };

    ghost view = { λ _. tt };
}

// Written out, since a derived drop is proved anew in each crate that drops a workbench.
impl Drop for Bench {
    fn drop(self) {
        let Self {
            room: _room,
            scratch: _scratch,
        } = self;
    }
}

impl Bench {
    ghost use Rattle.terrain.specs.Blocks.{brick as brick_of};
    ghost use Rattle.terrain.specs.Levels.{IsBalanced, IsLeaf};
    ghost use Rattle.field_pages.specs.Pages.{sample_at};
    ghost use Rattle.octree.specs.SplitBits.{split_at};

    /// Returns an empty workbench. It takes no memory.
    pub fn new() -> Bench {
        Bench {
            room: Room::new(),
            scratch: Scratch::new(),
        }
    }

    /// Returns the block of a leaf of a field and a level map. Out of memory is the only error.
    ///
    /// Two samples alone are read where the field's pages tell that none of the leaf's is solid, or that all are.
    pub fn leaf_block(
        &mut self,
        alloc: Global,
        cases: &Cases,
        version: &Version,
        levels: &Levels,
        leaf: Node,
    ) -> Result<Arc<Block>, AllocError>
        requires depth { version.now.depth ≡ levels.now.depth }
        requires balanced { IsBalanced levels.now.depth (split_at levels.now) }
        requires leaf { IsLeaf levels.now.depth (split_at levels.now) leaf }
        ensures { IfOk result (λ block. (arc_value block).brick
            ≡ brick_of levels.now.depth (sample_at version.now) (split_at levels.now) leaf) }
    {
        let _ = version.depth();
        if is_plain_leaf(version, leaf) {
            return Block::plain(alloc, version, levels, leaf);
        }
        let brick = self.room.gather(alloc, version, levels, leaf)?;
        let mesh = mesh_lists(&mut self.scratch, alloc, cases, &brick)?;
        drop(brick);
        Block::join(alloc, leaf, seen_brick(version, levels, &leaf), mesh)
    }

    /// Returns the block of a brick, which goes. Out of memory is the only error.
    pub fn block(
        &mut self,
        alloc: Global,
        cases: &Cases,
        brick: Brick,
    ) -> Result<Arc<Block>, AllocError>
        ensures { IfOk result (λ block. (arc_value block).brick ≡ brick) }
    {
        self.block_of(alloc, cases, &brick)
    }

    /// Returns the block of a brick. Out of memory is the only error.
    fn block_of(
        &mut self,
        alloc: Global,
        cases: &Cases,
        brick: &Brick,
    ) -> Result<Arc<Block>, AllocError>
        ensures { IfOk result (λ block. (arc_value block).brick ≡ brick.now) }
    {
        let mesh = mesh_on(&mut self.scratch, alloc, cases, brick)?;
        Block::join(alloc, brick.node(), Seen::of(brick), mesh)
    }

    /// Returns a brick with its block, and where memory runs out the brick.
    pub fn make(&mut self, alloc: Global, cases: &Cases, brick: Brick) -> Result<Done, Brick>
        ensures made { IfOk result (λ done. done.brick ≡ brick) }
        ensures returned { IfErr result (λ refused. refused ≡ brick) }
    {
        match self.block_of(alloc, cases, &brick) {
            Ok(block) => Ok(Done::new(brick, block)),
            Err(_) => Err(brick),
        }
    }
}
