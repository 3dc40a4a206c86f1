//! Tables of blocks.

ghost use Rattle.std.specs.Prelude.{◌≡◌, ◌≢◌, ℕ, All, IfOk, MatchOption, None, Some, false, map};
ghost use Rattle.std.specs.Arc.{arc_value};
ghost use Rattle.lattice.specs.declared.node.Node.{Node as NodeOf};
ghost use Rattle.lattice.specs.Node.{IsNode, is_among, nodes};
ghost use Rattle.lattice.specs.Settings.{IsDepth};
ghost use Rattle.block_mesh.specs.Done.{DoneState};
ghost use Rattle.node_tables.specs.NodeSlots.{item_at};
ghost use Rattle.snapshots.specs.Blocks.{IsBlockTable, cleared, put_over};
ghost use Rattle.snapshots.specs.Stats.{stats_of_slots};

use crate::stats::{Stats, after_change, count};
use block_mesh::Block;
use cell_laws::triangles_are_few;
use lattice::Node;
use node_tables::NodeTable;
use std::alloc::{AllocError, Global};
use std::marker::Model;
use std::sync::Arc;

/// A table with at most one block, the mesh of a brick, for each node of a world, and the stats of its blocks. Others
/// may share the blocks.
///
/// Contracts see the depth of the world and what each slot has; `item_at` is what it has for a node. All memory is
/// taken when a table is made.
#[derive(Debug, Drop)]
pub(crate) struct BlockTable {
    table: NodeTable<Block>,
    stats: Stats,
}

impl Model for BlockTable {
    ghost use Rattle.std.specs.Prelude.{◌≡◌};
    ghost use Rattle.block_mesh.specs.Done.{DoneState};
    ghost use Rattle.node_tables.specs.NodeSlots.{NodeSlots};
    ghost use Rattle.snapshots.specs.Blocks.{IsBlockTable, listed};
    ghost use Rattle.snapshots.specs.Stats.{stats_of_slots};

    ghost Value = { NodeSlots DoneState };

    ghost view = { λ blocks. listed blocks.table };

    ghost invariant = { λ blocks. IsBlockTable (listed blocks.table)
        × (blocks.stats ≡ stats_of_slots (listed blocks.table).slots) };
}

impl BlockTable {
    /// Returns a table for a world of this depth that has no block. Out of memory is the only error.
    pub(crate) fn new(alloc: Global, depth: u8) -> Result<BlockTable, AllocError>
        requires { IsDepth depth }
        ensures depth { IfOk result (λ blocks. blocks.depth ≡ depth) }
        ensures none { IfOk result (λ blocks. (n : NodeOf) → item_at blocks n ≡ None) }
    {
        let table = NodeTable::new(alloc, depth)?;
        Ok(BlockTable {
            table,
            stats: count(None),
        })
    }

    /// Returns a copy, which shares all blocks, of a table that has blocks for these nodes alone. Out of memory is the
    /// only error.
    pub(crate) fn try_clone(&self, alloc: Global, nodes: &[Node]) -> Result<BlockTable, AllocError>
        requires { (n : NodeOf) → is_among nodes.now n ≡ false → item_at self.now n ≡ None }
        ensures { IfOk result (λ copy. copy ≡ self.now) }
    {
        let mut copy = BlockTable::new(alloc, self.depth())?;
        let _depth = copy.depth();
        for node in nodes {
            let Some(done) = self.get(*node) else {
                continue;
            };
            copy.set(*node, Arc::try_clone(done)?);
        }
        Ok(copy)
    }

    /// Returns the depth of the world.
    pub(crate) fn depth(&self) -> u8
        ensures value { result ≡ self.now.depth }
        ensures table { IsBlockTable self.now }
    {
        self.table.depth()
    }

    /// Lends the block of a node, if there is one; a node that isn't in the world has none.
    pub(crate) fn get(&self, node: Node) -> Option<&Arc<Block>>
        ensures { MatchOption result (item_at self.now node ≡ None)
            (λ done. item_at self.now node ≡ Some (arc_value done.now)) }
    {
        self.table.get(node)
    }

    /// Returns the stats of what all slots have.
    pub(crate) fn stats(&self) -> Stats
        ensures { result ≡ stats_of_slots (map (item_at self.now) (nodes self.now.depth)) }
    {
        self.stats
    }

    /// Puts a block into the slot of a node, in place of what was there.
    pub(crate) fn set(&mut self, node: Node, done: Arc<Block>)
        requires { IsNode self.old.depth node }
        ensures depth { self.new.depth ≡ self.old.depth }
        ensures here { item_at self.new node ≡ Some (arc_value done) }
        ensures others { (n : NodeOf) → n ≢ node → item_at self.new n ≡ item_at self.old n }
        ensures table { IsBlockTable self.new }
    {
        triangles_are_few();
        let old = count(self.table.get(node));
        let new = count(Some(&done));
        self.table.set(node, done);
        self.stats = after_change(self.stats, old, new);
    }

    /// Clears the slot of a node, if it has one.
    pub(crate) fn clear(&mut self, node: Node)
        ensures depth { self.new.depth ≡ self.old.depth }
        ensures here { item_at self.new node ≡ None }
        ensures others { (n : NodeOf) → n ≢ node → item_at self.new n ≡ item_at self.old n }
        ensures table { IsBlockTable self.new }
    {
        triangles_are_few();
        if !node.is_in_world(self.table.depth()) {
            return;
        }
        let old = count(self.table.get(node));
        let _ = self.table.clear(node);
        self.stats = after_change(self.stats, old, count(None));
    }

    /// Puts blocks into the slots of their nodes, one after another.
    pub(crate) fn put_all(&mut self, dones: Vec<Arc<Block>>)
        requires { All (λ (done : DoneState). IsNode self.old.depth done.brick.node)
            (map arc_value dones.items) }
        ensures depth { self.new.depth ≡ self.old.depth }
        ensures slots { (n : NodeOf) → item_at self.new n
            ≡ put_over (map arc_value dones.items) n (item_at self.old n) }
        ensures table { IsBlockTable self.new }
    {
        let _depth = self.depth();
        for done in dones {
            self.set(done.node(), done);
        }
    }

    /// Clears the slots of nodes.
    pub(crate) fn clear_all(&mut self, nodes: &[Node])
        ensures depth { self.new.depth ≡ self.old.depth }
        ensures slots { (n : NodeOf) → item_at self.new n
            ≡ cleared nodes.now n (item_at self.old n) }
        ensures table { IsBlockTable self.new }
    {
        let _depth = self.depth();
        for node in nodes {
            self.clear(*node);
        }
    }
}
