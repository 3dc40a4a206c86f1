//! Level maps, by a word for each row of nodes above level 0.

ghost use Rattle.std.specs.Prelude.{◌≡◌, ℕ, ◌+◌, ◌<◌, ◌≤◌, ◌^◌, ◌↔◌, false, IfOk, IsTrue};
ghost use Rattle.lattice.specs.declared.node.Node.{Node as NodeOf};
ghost use Rattle.lattice.specs.Settings.{IsDepth};
ghost use Rattle.lattice.specs.Node.{IsNode, nodes_across};
ghost use Rattle.lattice.specs.Offset.{AreSteps, direction_of};
ghost use Rattle.terrain.specs.Levels.{IsLeaf, is_leaf, leaves, rim, is_finer};
ghost use Rattle.octree.specs.Growing.{Gains, IsInBits};
ghost use Rattle.octree.specs.SplitBits.{IsRow, row_bit, row_of, rows_below, split_at};
ghost use Rattle.octree.specs.LeafLists.{ListsLeaves};

use crate::layer::Layer;
use crate::leaves::push_leaves;
use crate::rims::rim_of;
use crate::rows::row_bit;
use lattice::{Node, nodes_across, nodes_in_order};
use std::alloc::{AllocError, Global};
use std::marker::Model;

/// Which nodes of a world are split.
///
/// Contracts see the depth of the world and a word for each row of nodes above level 0; `split_at` is the level map of
/// it.
#[derive(Debug)]
pub struct Levels {
    depth: u8,
    rows: Vec<u64>,
}

impl Model for Levels {
    ghost use Rattle.octree.specs.SplitBits.{SplitBits, IsWhole};

    ghost Value = { SplitBits };

    ghost view = { λ levels. record { depth = levels.depth; rows = levels.rows.items } };

    ghost invariant = { λ levels.
        IsWhole (record { depth = levels.depth; rows = levels.rows.items }) };
}

// Written out, since a derived drop is proved anew in each crate that drops a level map.
impl Drop for Levels {
    fn drop(self) {
        let Self {
            depth: _,
            rows: _rows,
        } = self;
    }
}

impl Levels {
    /// Returns the level map of a world that splits no node. Out of memory is the only error.
    pub(crate) fn whole(alloc: Global, depth: u8) -> Result<Levels, AllocError>
        requires { IsDepth depth }
        ensures depth { IfOk result (λ levels. levels.depth ≡ depth) }
        ensures none { IfOk result (λ levels. (n : NodeOf) → split_at levels n ≡ false) }
    {
        let rows = vec![in alloc; 0; rows_below(depth, depth + 1) as usize]?;
        Ok(Levels { depth, rows })
    }

    /// Returns the depth of the world.
    pub fn depth(&self) -> u8
        ensures value { result ≡ self.now.depth }
        ensures most { IsDepth result }
    {
        self.depth
    }

    /// Returns whether a node is split; a node that isn't in the world isn't.
    pub fn is_split(&self, node: Node) -> bool
        ensures { result ≡ split_at self.now node }
    {
        if node.level == 0 {
            return false;
        }
        node.is_in_world(self.depth) && row_bit(self.rows[row_index(self.depth, node)], node.i)
    }

    /// Splits the nodes of a row above level 0 whose bits are set.
    pub(crate) fn split_row(&mut self, level: u8, k: u32, j: u32, bits: u64)
        requires row { IsRow self.old.depth level k j }
        requires bits { bits < 2 ^ nodes_across self.old.depth level }
        ensures { Gains (IsInBits level k j bits) self.old self.new }
    {
        let at = row_index(self.depth, Node { level, k, j, i: 0 });
        self.rows[at] |= bits;
    }

    /// Lends the rows of a level.
    pub(crate) fn layer(&self, level: u8) -> Layer<'_>
        ensures { result ≡ record { levels = self.now; level = level } }
    {
        if level == 0 || level > self.depth {
            return Layer {
                levels: self,
                level,
                across: 0,
                rows: &self.rows[0..0],
            };
        }
        let across = nodes_across(self.depth, level);
        let first = rows_below(self.depth, level) as usize;
        Layer {
            levels: self,
            level,
            across,
            rows: &self.rows[first..first + (across * across) as usize],
        }
    }

    /// Returns whether a node is a leaf; a node that isn't in the world isn't.
    pub fn is_leaf(&self, node: Node) -> bool
        ensures fact { IsTrue result ↔ IsLeaf self.now.depth (split_at self.now) node }
        ensures test { result ≡ is_leaf self.now.depth (split_at self.now) node }
    {
        node.is_in_world(self.depth)
            && !self.is_split(node)
            && match node.parent(self.depth) {
                None => true,
                Some(parent) => self.is_split(parent),
            }
    }

    /// Returns the leaves, in the order of nodes. Out of memory is the only error.
    pub fn leaves(&self, alloc: Global) -> Result<Vec<Node>, AllocError>
        ensures value { IfOk result (λ list.
            list.items ≡ leaves self.now.depth (split_at self.now)) }
        ensures each { IfOk result (λ list.
            ListsLeaves self.now.depth (split_at self.now) list.items) }
    {
        nodes_in_order();
        let mut list = Vec::new(alloc);
        for level in 0..self.depth + 1 {
            push_leaves(&mut list, self, level)?;
        }
        Ok(list)
    }

    /// Returns the rim of a leaf: one bit for each of the 26 places around it that have its size, set where that place
    /// is in the world and its node is split. They are numbered by z, then y, then x, from the lowest corner.
    pub fn rim(&self, leaf: Node) -> u32
        requires { IsLeaf self.now.depth (split_at self.now) leaf }
        ensures { result ≡ rim self.now.depth (split_at self.now) leaf }
    {
        if leaf.level == 0 {
            return 0;
        }
        rim_of(self, leaf)
    }
}

impl PartialEq for Levels {
    ghost use Rattle.std.proofs.Common.{rules};
    ghost use Rattle.std.specs.Cmp.Rules.{comparing};
    ghost use Rattle.octree.specs.SplitBits.{are_same};

    ghost eq = { are_same };

    ghost laws = { Prim.search (comparing, rules) };

    /// Returns whether both are level maps of one depth that split the same nodes.
    fn eq(&self, other: &Levels) -> bool
        ensures value { result ≡ are_same self.now other.now }
        ensures fact { IsTrue result ↔ (self.now ≡ other.now) }
    {
        self.depth == other.depth && self.rows.as_slice() == other.rows.as_slice()
    }
}

/// Returns the index of the word of a node's row, above level 0.
fn row_index(depth: u8, node: Node) -> usize
    requires depth { IsDepth depth }
    requires node { IsNode depth node }
    requires level { 1 ≤ node.level }
    ensures { result ≡ row_of depth node.level node.k node.j }
{
    (rows_below(depth, node.level) + (node.k * nodes_across(depth, node.level) + node.j)) as usize
}

/// Returns how many rows above level 0 are of lower levels than this one.
fn rows_below(depth: u8, level: u8) -> u32
    requires depth { IsDepth depth }
    requires low { 1 ≤ level }
    requires high { level ≤ depth + 1 }
    ensures { result ≡ rows_below depth level }
{
    ((1 << (2 * depth)) - (1 << (2 * (depth + 1 - level)))) / 3
}
