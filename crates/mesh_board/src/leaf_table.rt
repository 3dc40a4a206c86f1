//! How each leaf of a world is.
//!
//! A leaf's state isn't kept as such. A node that has a block is fresh, the wanted leaves and those that are out are
//! sets, and a third set has all leaves. So the first wanted leaf is found word by word, all that is out is recalled
//! by one operation on sets, and whether all is fresh is asked of two sets. No call takes memory, and none can fail.

ghost use Rattle.std.specs.Prelude.{◌≡◌, ◌≢◌, ◌↔◌, IfOk, IsTrue, MatchOption};
ghost use Rattle.std.specs.Arc.{arc_value};
ghost use Rattle.lattice.specs.declared.node.Node.{Node as NodeOf};
ghost use Rattle.lattice.specs.Node.{IsNode};
ghost use Rattle.lattice.specs.Settings.{IsDepth};
ghost use Rattle.node_tables.specs.NodeBits.{has};
ghost use Rattle.block_mesh.specs.Done.{IsDone};

use block_mesh::Block;
use lattice::Node;
use node_tables::{NodeSet, NodeTable};
use std::alloc::{AllocError, Global};
use std::marker::Model;
use std::sync::Arc;

/// How each node of a world is: no leaf, or a leaf that is wanted, out, or fresh.
///
/// Contracts see the states in the order of nodes; `state_at` is a node's.
#[derive(Debug)]
pub(crate) struct LeafTable {
    blocks: NodeTable<Block>,
    wanted: NodeSet,
    out: NodeSet,
    leaves: NodeSet,
}

impl Model for LeafTable {
    ghost use Rattle.mesh_board.specs.LeafStates.{LeafStates};

    ghost Value = { LeafStates };

    ghost use Rattle.mesh_board.specs.LeafTable.{IsLeafTable, states_of};

    ghost view = { states_of };

    ghost invariant = { IsLeafTable };
}

// Written out, since a derived drop is proved anew at each way out that drops a table.
impl Drop for LeafTable {
    fn drop(self) {
        let Self {
            blocks: _blocks,
            wanted: _wanted,
            out: _out,
            leaves: _leaves,
        } = self;
    }
}

impl LeafTable {
    ghost use Rattle.mesh_board.specs.LeafStates.{ChangesState, IsFirstWanted, IsFresh, IsSettled, fresh, is_leaf_state, is_wanted_state, no_leaf, out, recalled, state_at, wanted};

    /// Returns the table of a world in which no node is a leaf. Out of memory is the only error.
    pub(crate) fn new(alloc: Global, depth: u8) -> Result<LeafTable, AllocError>
        requires { IsDepth depth }
        ensures depth { IfOk result (λ table. table.depth ≡ depth) }
        ensures none { IfOk result (λ table. (n : NodeOf) → state_at table n ≡ no_leaf) }
    {
        Ok(LeafTable {
            wanted: NodeSet::new(alloc, depth)?,
            out: NodeSet::new(alloc, depth)?,
            leaves: NodeSet::new(alloc, depth)?,
            blocks: NodeTable::new(alloc, depth)?,
        })
    }

    /// Makes a node a leaf that is wanted.
    pub(crate) fn want(&mut self, leaf: Node)
        requires { IsNode self.old.depth leaf }
        ensures { ChangesState self.old self.new leaf wanted }
    {
        let _ = self.blocks.clear(leaf);
        self.wanted.insert(leaf);
        self.out.remove(leaf);
        self.leaves.insert(leaf);
    }

    /// Makes a leaf that is wanted one that is out.
    pub(crate) fn send_out(&mut self, leaf: Node)
        requires { state_at self.old leaf ≡ wanted }
        ensures { ChangesState self.old self.new leaf out }
    {
        self.wanted.remove(leaf);
        self.out.insert(leaf);
    }

    /// Makes a brick's node a leaf that is fresh with this block.
    pub(crate) fn keep(&mut self, done: Arc<Block>)
        requires { IsNode self.old.depth (arc_value done).brick.node }
        ensures fresh { let block = arc_value done in
            ChangesState self.old self.new block.brick.node (fresh block) }
        ensures done { IsDone (arc_value done) }
    {
        let leaf = done.node();
        self.blocks.set(leaf, done);
        self.wanted.remove(leaf);
        self.out.remove(leaf);
        self.leaves.insert(leaf);
    }

    /// Makes a node no leaf.
    pub(crate) fn forget(&mut self, leaf: Node)
        requires { IsNode self.old.depth leaf }
        ensures { ChangesState self.old self.new leaf no_leaf }
    {
        let _ = self.blocks.clear(leaf);
        self.wanted.remove(leaf);
        self.out.remove(leaf);
        self.leaves.remove(leaf);
    }

    /// Makes each leaf that is out one that is wanted.
    pub(crate) fn recall(&mut self)
        ensures depth { self.new.depth ≡ self.old.depth }
        ensures each { (n : NodeOf) → state_at self.new n ≡ recalled (state_at self.old n) }
    {
        self.wanted.insert_all(&self.out);
        self.out.clear();
    }

    /// Returns the first wanted leaf in the order of nodes.
    #[tactic(auto, using(crate::proofs::TableLemmas::first_wanted_seen))]
    pub(crate) fn first_wanted(&self) -> Option<Node>
        ensures { MatchOption result
            ((n : NodeOf) → state_at self.now n ≢ wanted)
            (IsFirstWanted self.now) }
    {
        self.wanted.first()
    }

    /// Lends the set of the wanted leaves.
    pub(crate) fn wanted(&self) -> &NodeSet
        ensures { (n : NodeOf) → has result.now n ≡ is_wanted_state (state_at self.now n) }
    {
        &self.wanted
    }

    /// Returns whether no leaf is wanted or out.
    pub(crate) fn is_settled(&self) -> bool
        ensures { IsTrue result ↔ ((n : NodeOf) → IsSettled (state_at self.now n)) }
    {
        self.wanted.is_empty() && self.out.is_empty()
    }

    /// Lends the set of the leaves.
    pub(crate) fn leaves(&self) -> &NodeSet
        ensures depth { result.now.depth ≡ self.now.depth }
        ensures each { (n : NodeOf) → has result.now n ≡ is_leaf_state (state_at self.now n) }
    {
        &self.leaves
    }

    /// Lends the block of a leaf that is fresh.
    pub(crate) fn block(&self, leaf: Node) -> &Arc<Block>
        requires { IsFresh (state_at self.now leaf) }
        ensures { state_at self.now leaf ≡ fresh (arc_value result.now) }
    {
        self.blocks.get(leaf).unwrap()
    }
}
