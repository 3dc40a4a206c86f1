//! The node at a place of the order of nodes.

ghost use Rattle.std.specs.Prelude.{◌≡◌, ◌<◌, ◌≤◌, ◌+◌, ◌-◌, ◌/◌, length, slice_get, Some};
ghost use Rattle.lattice.specs.Node.{IsNode, nodes, nodes_across, slot};
ghost use Rattle.lattice.specs.Settings.{IsDepth};
ghost use Rattle.node_tables.specs.declared.words.TheConstants.{WORD};

use crate::words::WORD;
use lattice::{Node, counts_of_nodes, nodes_across, slots_of_nodes};

/// Returns the node of a world whose slot this is.
pub(crate) fn node_at(depth: u8, place: u32) -> Node
    requires depth { IsDepth depth }
    requires place { place < length (nodes depth) }
    ensures listed { slice_get (nodes depth) place ≡ Some result }
    ensures node { IsNode depth result }
    ensures slot { slot depth result ≡ place }
{
    counts_of_nodes();
    slots_of_nodes();
    let mut before = place;
    for level in 0..depth {
        let across = nodes_across(depth, level);
        if before < across.pow(3) {
            return Node {
                level,
                k: before / across / across,
                j: before / across % across,
                i: before % across,
            };
        }
        before -= across.pow(3);
    }
    Node::root(depth)
}

/// Returns how many words of 64 bits the nodes of a world need.
pub(crate) fn words_for(depth: u8) -> usize
    requires { IsDepth depth }
    ensures value { result ≡ (length (nodes depth) + WORD - 1) / WORD }
    ensures some { 0 < length (nodes depth) }
{
    slots_of_nodes();
    Node::root(depth).slot(depth) as usize / WORD + 1
}
