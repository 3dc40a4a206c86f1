//! Sets of nodes of a world.

ghost use Rattle.std.specs.Prelude.{◌≡◌, ◌≢◌, ◌+◌, ◌<◌, ◌≤◌, ◌&&◌, ◌||◌, false, not, IfOk, IfSome, IsTrue, MatchOption, ◌↔◌};
ghost use Rattle.lattice.specs.declared.node.Node.{Node as NodeOf};
ghost use Rattle.lattice.specs.Node.{IsNode, slot};
ghost use Rattle.lattice.specs.Settings.{IsDepth};
ghost use Rattle.node_tables.specs.NodeBits.{has};

use crate::bits::Bits;
use crate::members::Members;
use crate::places::{node_at, words_for};
use lattice::{Node, counts_of_nodes};
use std::alloc::{AllocError, Global};
use std::marker::Model;

/// A set of nodes of a world.
///
/// Contracts see the depth of the world and a bit for each of its nodes; `has` tells the members.
#[derive(Debug)]
pub struct NodeSet {
    depth: u8,
    bits: Bits,
}

impl Model for NodeSet {
    ghost use Rattle.node_tables.specs.NodeBits.{IsNodeSet, NodeBits};

    ghost Value = { NodeBits };

    ghost view = { λ set. record { depth = set.depth; words = set.bits } };

    ghost invariant = { λ set.
        IsNodeSet (record { depth = set.depth; words = set.bits }) };
}

// Written out, since a derived drop is proved anew in each crate that drops a set.
impl Drop for NodeSet {
    fn drop(self) {
        let Self {
            depth: _,
            bits: _bits,
        } = self;
    }
}

impl NodeSet {
    ghost use Rattle.node_tables.specs.Members.{IsFirst, IsFirstFrom, members, members_left};

    /// Returns the empty set of nodes of a world. Out of memory is the only error.
    pub fn new(alloc: Global, depth: u8) -> Result<NodeSet, AllocError>
        requires { IsDepth depth }
        ensures depth { IfOk result (λ set. set.depth ≡ depth) }
        ensures none { IfOk result (λ set. (n : NodeOf) → has set n ≡ false) }
    {
        counts_of_nodes();
        let bits = Bits::new(alloc, words_for(depth))?;
        Ok(NodeSet { depth, bits })
    }

    /// Returns the depth of the world.
    pub fn depth(&self) -> u8
        ensures value { result ≡ self.now.depth }
        ensures allowed { IsDepth result }
    {
        self.depth
    }

    /// Returns whether a node is in the set; a node that isn't in the world isn't.
    pub fn contains(&self, node: Node) -> bool
        ensures { result ≡ has self.now node }
    {
        node.is_in_world(self.depth) && self.bits.has(node.slot(self.depth) as usize)
    }

    /// Adds a node of the world.
    pub fn insert(&mut self, node: Node)
        requires { IsNode self.old.depth node }
        ensures depth { self.new.depth ≡ self.old.depth }
        ensures here { IsTrue (has self.new node) }
        ensures others { (n : NodeOf) → n ≢ node → has self.new n ≡ has self.old n }
    {
        let slot = node.slot(self.depth) as usize;
        self.bits.set(slot);
    }

    /// Takes a node of the world out of the set, if it is in it.
    pub fn remove(&mut self, node: Node)
        requires { IsNode self.old.depth node }
        ensures depth { self.new.depth ≡ self.old.depth }
        ensures here { has self.new node ≡ false }
        ensures others { (n : NodeOf) → n ≢ node → has self.new n ≡ has self.old n }
    {
        let slot = node.slot(self.depth) as usize;
        self.bits.clear(slot);
    }

    /// Returns the first member in the order of nodes.
    pub fn first(&self) -> Option<Node>
        ensures first { MatchOption result
            ((n : NodeOf) → has self.now n ≡ false)
            (IsFirst self.now) }
        ensures slot { IfSome result (IsFirstFrom self.now 0) }
    {
        self.first_from(0)
    }

    /// Returns the first member that is after a node of the world.
    pub fn first_after(&self, node: Node) -> Option<Node>
        requires { IsNode self.now.depth node }
        ensures { let depth = self.now.depth in MatchOption result
            ((n : NodeOf) → slot depth node < slot depth n → has self.now n ≡ false)
            (IsFirstFrom self.now (slot depth node + 1)) }
    {
        self.first_from(node.slot(self.depth) as usize + 1)
    }

    /// Returns the first member, in the order of nodes, whose slot is at least this.
    pub(crate) fn first_from(&self, from: usize) -> Option<Node>
        ensures first { MatchOption result
            ((n : NodeOf) → from ≤ slot self.now.depth n → has self.now n ≡ false)
            (IsFirstFrom self.now from) }
        ensures node { IfSome result (IsNode self.now.depth) }
    {
        counts_of_nodes();
        let place = self.bits.next(from)?;
        Some(node_at(self.depth, place as u32))
    }

    /// Returns whether the set has no member.
    pub fn is_empty(&self) -> bool
        ensures { IsTrue result ↔ ((n : NodeOf) → has self.now n ≡ false) }
    {
        self.first().is_none()
    }

    /// Lends the members, in the order of nodes.
    pub fn iter(&self) -> Members<'_>
        ensures { members_left result ≡ members self.now }
    {
        Members::of(self)
    }

    /// Takes all members out of the set.
    pub fn clear(&mut self)
        ensures depth { self.new.depth ≡ self.old.depth }
        ensures none { (n : NodeOf) → has self.new n ≡ false }
    {
        self.bits.clear_all();
    }

    /// Makes the members those of another set of the world.
    pub fn copy_from(&mut self, other: &NodeSet)
        requires { self.old.depth ≡ other.now.depth }
        ensures { self.new ≡ other.now }
    {
        self.bits.copy_from(&other.bits);
    }

    /// Adds the members of another set of the world.
    pub fn insert_all(&mut self, other: &NodeSet)
        requires { self.old.depth ≡ other.now.depth }
        ensures depth { self.new.depth ≡ self.old.depth }
        ensures each { (n : NodeOf) → has self.new n ≡ (has self.old n || has other.now n) }
    {
        self.bits.insert_all(&other.bits);
    }

    /// Takes the members of another set of the world out of this one.
    pub fn remove_all(&mut self, other: &NodeSet)
        requires { self.old.depth ≡ other.now.depth }
        ensures depth { self.new.depth ≡ self.old.depth }
        ensures each { (n : NodeOf) → has self.new n ≡ (has self.old n && not (has other.now n)) }
    {
        self.bits.remove_all(&other.bits);
    }

    /// Takes the nodes out of the set that another set of the world doesn't have.
    pub fn keep_all(&mut self, other: &NodeSet)
        requires { self.old.depth ≡ other.now.depth }
        ensures depth { self.new.depth ≡ self.old.depth }
        ensures each { (n : NodeOf) → has self.new n ≡ (has self.old n && has other.now n) }
    {
        self.bits.keep_all(&other.bits);
    }
}
