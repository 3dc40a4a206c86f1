//! Blocks: the meshes of bricks, which know their bricks in proofs alone.
//!
//! A brick's samples are read while its mesh is made, and mostly nobody reads them afterwards: a block that was made
//! from the field and the level map at hand needs no look at them, and normals are made from the field. So a block
//! keeps its leaf and its mesh. That the mesh is the brick's is a fact of contracts, which see the brick as it was
//! (`Seen`). A block that may come back late goes with its brick (`Done`), to be compared with the present one.

ghost use Rattle.std.specs.Prelude.{◌≡◌, IfErr, IfOk};
ghost use Rattle.std.specs.Arc.{arc_value};
ghost use Rattle.block_mesh.specs.Done.{DoneState, IsDone};

use crate::bench::Bench;
use crate::block::Mesh;
use crate::nets::meshes_leave_curves;
use crate::seen::{Seen, seen_brick};
use bricks::Brick;
use cells::Cases;
use field_pages::Version;
use lattice::{Node, nodes_of_worlds};
use octree::Levels;
use std::alloc::{AllocError, Global};
use std::fmt;
use std::marker::Model;
use std::sync::Arc;
use terrain::BlockView;

/// A block: the mesh of a leaf's brick.
///
/// Contracts see the brick and the lists of the mesh. The brick itself isn't kept.
pub struct Block {
    node: Node,
    /// The brick, for contracts.
    brick: Seen<Brick>,
    mesh: Mesh,
}

impl Model for Block {
    ghost use Rattle.std.specs.Prelude.{◌≡◌};
    ghost use Rattle.block_mesh.specs.Done.{DoneState, IsDone};

    ghost Value = { DoneState };

    ghost view = { λ block. record { brick = block.brick.value; mesh = block.mesh } };

    ghost invariant = { λ block. IsDone (record { brick = block.brick.value; mesh = block.mesh })
        × (block.node ≡ block.brick.value.node) };
}

// Written out, since a derived drop is proved anew in each crate that drops a block.
impl Drop for Block {
    fn drop(self) {
        let Self {
            node: _,
            brick: _brick,
            mesh: _mesh,
        } = self;
    }
}

// The lists of the mesh aren't printed.
impl fmt::Debug for Block {
    fn fmt<W: fmt::Write>(&self, f: &mut fmt::Formatter<W>) -> fmt::Result {
        f.write_str("Block of ")?;
        fmt::Debug::fmt(&self.node, f)
    }
}

impl Block {
    ghost use Rattle.terrain.specs.Blocks.{brick};
    ghost use Rattle.terrain.specs.Levels.{IsBalanced, IsLeaf};
    ghost use Rattle.field_pages.specs.Pages.{sample_at};
    ghost use Rattle.octree.specs.SplitBits.{split_at};
    ghost use Rattle.bricks.specs.Brick.{IsBrick};
    ghost use Rattle.bricks.specs.Even.{IsPlainLeaf};
    ghost use Rattle.block_mesh.specs.Mesh.{IsMesh, IsMeshOf};
    ghost use Rattle.terrain.specs.MeshLists.{lists_of};
    ghost use Rattle.block_mesh.specs.Nets.{LeavesCurves};

    /// Returns the block of a brick, which goes. Out of memory is the only error.
    pub fn of(alloc: Global, cases: &Cases, brick: Brick) -> Result<Arc<Block>, AllocError>
        ensures { IfOk result (λ block. (arc_value block).brick ≡ brick) }
    {
        let mut bench = Bench::new();
        bench.block(alloc, cases, brick)
    }

    /// Puts the mesh of a leaf's brick and the brick, which isn't kept, together. Out of memory is the only error.
    pub(crate) fn join(
        alloc: Global,
        node: Node,
        brick: Seen<Brick>,
        mesh: Mesh,
    ) -> Result<Arc<Block>, AllocError>
        requires node { node ≡ brick.value.node }
        requires brick { IsBrick brick.value }
        requires of { IsMeshOf brick.value mesh }
        ensures { IfOk result (λ block. (arc_value block).brick ≡ brick.value) }
    {
        let block = Block { node, brick, mesh };
        Ok(Arc::new(alloc, block)?)
    }

    /// Returns the block of a plain leaf, which has no solid sample or solid ones alone, and so no triangles. Out of
    /// memory is the only error.
    pub(crate) fn plain(
        alloc: Global,
        version: &Version,
        levels: &Levels,
        leaf: Node,
    ) -> Result<Arc<Block>, AllocError>
        requires depth { version.now.depth ≡ levels.now.depth }
        requires balanced { IsBalanced levels.now.depth (split_at levels.now) }
        requires leaf { IsLeaf levels.now.depth (split_at levels.now) leaf }
        requires plain { IsPlainLeaf (sample_at version.now) leaf }
        ensures { IfOk result (λ block. (arc_value block).brick
            ≡ brick levels.now.depth (sample_at version.now) (split_at levels.now) leaf) }
    {
        nodes_of_worlds();
        let _ = levels.depth();
        let _ = version.sample(leaf.low_corner());
        let block = Block {
            node: leaf,
            brick: seen_brick(version, levels, &leaf),
            mesh: Mesh::empty(alloc),
        };
        Ok(Arc::new(alloc, block)?)
    }

    /// Returns the leaf.
    pub fn node(&self) -> Node
        ensures value { result ≡ self.now.brick.node }
        ensures done { IsDone self.now }
    {
        self.node
    }

    /// Lends the lists of the mesh.
    pub fn view(&self) -> BlockView<'_>
        ensures lists { lists_of result ≡ self.now.mesh }
        ensures brick { IsBrick self.now.brick }
        ensures of { IsMeshOf self.now.brick self.now.mesh }
        ensures net { LeavesCurves self.now.brick self.now.mesh }
        ensures mesh { IsMesh self.now.mesh }
    {
        meshes_leave_curves();
        self.mesh.view()
    }
}

/// A brick with its block, as whoever meshes for somebody else gives it back. Contracts see the block.
#[derive(Debug)]
pub struct Done {
    brick: Brick,
    block: Arc<Block>,
}

impl Model for Done {
    ghost use Rattle.std.specs.Prelude.{◌≡◌};
    ghost use Rattle.block_mesh.specs.Done.{DoneState};

    ghost Value = { DoneState };

    ghost view = { λ done. done.block.value };

    ghost invariant = { λ done. done.brick ≡ done.block.value.brick };
}

// Written out, since a derived drop is proved anew in each crate that drops a brick with its block.
impl Drop for Done {
    fn drop(self) {
        let Self {
            brick: _brick,
            block: _block,
        } = self;
    }
}

impl Done {
    ghost use Rattle.terrain.specs.MeshLists.{lists_of};

    /// Returns the brick with its block, and where memory runs out the brick.
    pub fn make(alloc: Global, cases: &Cases, brick: Brick) -> Result<Done, Brick>
        ensures made { IfOk result (λ done. done.brick ≡ brick) }
        ensures returned { IfErr result (λ refused. refused ≡ brick) }
    {
        let mut bench = Bench::new();
        bench.make(alloc, cases, brick)
    }

    /// Puts a brick and its block together.
    pub(crate) fn new(brick: Brick, block: Arc<Block>) -> Done
        requires { (arc_value block).brick ≡ brick }
        ensures { result.brick ≡ brick }
    {
        Done { brick, block }
    }

    /// Returns the brick and its block.
    pub fn into_parts(self) -> (Brick, Arc<Block>)
        ensures brick { result.0 ≡ self.brick }
        ensures block { arc_value result.1 ≡ self }
    {
        let Done { brick, block } = self;
        (brick, block)
    }

    /// Lends the brick.
    pub fn brick(&self) -> &Brick
        ensures { result.now ≡ self.now.brick }
    {
        &self.brick
    }

    /// Lends the block.
    pub fn block(&self) -> &Arc<Block>
        ensures { arc_value result.now ≡ self.now }
    {
        &self.block
    }

    /// Lends the lists of the block's mesh.
    pub fn view(&self) -> BlockView<'_>
        ensures { lists_of result ≡ self.now.mesh }
    {
        self.block.view()
    }
}

/// Two blocks are equal where their bricks are.
pub fn equal_bricks_have_equal_meshes()
    ensures { (a b : DoneState) → IsDone a → IsDone b → a.brick ≡ b.brick → a ≡ b }
{}
