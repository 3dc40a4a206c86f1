//! Tables with a slot for each node of a world.

ghost use Rattle.std.specs.Prelude.{◌≡◌, ◌≢◌, IfOk, MatchOption, None, Some, length};
ghost use Rattle.std.specs.Arc.{arc_value};
ghost use Rattle.lattice.specs.declared.node.Node.{Node as NodeOf};
ghost use Rattle.lattice.specs.Node.{IsNode, nodes};
ghost use Rattle.lattice.specs.Settings.{IsDepth};
ghost use Rattle.node_tables.specs.NodeSlots.{item_at};

use crate::slots::Slots;
use lattice::{Node, counts_of_nodes, slots_of_nodes};
use std::alloc::{AllocError, Global};
use std::marker::Model;
use std::sync::Arc;

/// A table with at most one item for each node of a world. Others may share the items.
///
/// Contracts see the depth of the world and what each slot has; `item_at` is what it has for a node. All memory is
/// taken when a table is made, but hardly any is touched before it is used.
#[derive(Debug, Drop)]
pub struct NodeTable<T: Drop> {
    depth: u8,
    slots: Slots<T>,
}

impl<T: Drop> Model for NodeTable<T> {
    ghost use Rattle.node_tables.specs.NodeSlots.{NodeSlots, IsNodeTable};

    ghost Value = { NodeSlots T };

    ghost view = { λ table. record {
      depth = table.depth;
      slots = table.slots;
    } };

    ghost invariant = { λ table. IsNodeTable {T = T} (record {
      depth = table.depth;
      slots = table.slots;
    }) };
}

impl<T: Drop> NodeTable<T> {
    /// Returns a table for a world of this depth that has no item. Out of memory is the only error.
    pub fn new(alloc: Global, depth: u8) -> Result<NodeTable<T>, AllocError>
        requires { IsDepth depth }
        ensures depth { IfOk result (λ table. table.depth ≡ depth) }
        ensures none { IfOk result (λ table. (n : NodeOf) → item_at table n ≡ None) }
    {
        counts_of_nodes();
        let slots = Slots::new(alloc, slot_count(depth))?;
        Ok(NodeTable { depth, slots })
    }

    /// Returns the depth of the world.
    pub fn depth(&self) -> u8
        ensures value { result ≡ self.now.depth }
        ensures allowed { IsDepth result }
    {
        self.depth
    }

    /// Lends the item of a node, if there is one; a node that isn't in the world has none.
    pub fn get(&self, node: Node) -> Option<&Arc<T>>
        ensures { MatchOption result (item_at self.now node ≡ None)
            (λ item. item_at self.now node ≡ Some (arc_value item.now)) }
    {
        if !node.is_in_world(self.depth) {
            return None;
        }
        self.slots.get(node.slot(self.depth) as usize)
    }

    /// Puts an item into the slot of a node, in place of what was there.
    pub fn set(&mut self, node: Node, item: Arc<T>)
        requires { IsNode self.old.depth node }
        ensures depth { self.new.depth ≡ self.old.depth }
        ensures here { item_at self.new node ≡ Some (arc_value item) }
        ensures others { (n : NodeOf) → n ≢ node → item_at self.new n ≡ item_at self.old n }
    {
        self.slots.set(node.slot(self.depth) as usize, item);
    }

    /// Takes the item out of the slot of a node, if there is one; a node that isn't in the world has none.
    pub fn clear(&mut self, node: Node) -> Option<Arc<T>>
        ensures depth { self.new.depth ≡ self.old.depth }
        ensures taken { MatchOption result (item_at self.old node ≡ None)
            (λ item. item_at self.old node ≡ Some (arc_value item)) }
        ensures here { item_at self.new node ≡ None }
        ensures others { (n : NodeOf) → n ≢ node → item_at self.new n ≡ item_at self.old n }
    {
        if !node.is_in_world(self.depth) {
            return None;
        }
        self.slots.take(node.slot(self.depth) as usize)
    }
}

/// Returns how many nodes a world of this depth has.
pub fn slot_count(depth: u8) -> usize
    requires { IsDepth depth }
    ensures { result ≡ length (nodes depth) }
{
    slots_of_nodes();
    Node::root(depth).slot(depth) as usize + 1
}
