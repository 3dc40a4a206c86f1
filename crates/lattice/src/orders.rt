//! The laws of orders, of slots, and of how many nodes there are.

ghost use Rattle.std.specs.Prelude.{◌≡◌, ℕ, ◌+◌, ◌*◌, ◌^◌, ◌≤◌, ◌↔◌, IsTrue, length};
ghost use Rattle.lattice.specs.declared.node.Node.{Node as NodeOf};
ghost use Rattle.lattice.specs.declared.settings.TheConstants.{MAX_DEPTH};
ghost use Rattle.lattice.specs.Laws.{NodesAreListed, NodesHaveSlots, NodesRise, SlotsAreApart, SlotsAreNumbers, SlotsHaveNodes};
ghost use Rattle.lattice.specs.Lists.{joined};
ghost use Rattle.lattice.specs.Node.{is_before, level_nodes, nodes, nodes_across, root, slot};
ghost use Rattle.lattice.specs.Orders.{IsOrderBy, KeyIsBefore, NodeIsBefore, PointIsBefore};
ghost use Rattle.lattice.specs.Settings.{IsDepth};

use crate::key::Key;
use crate::node::Node;
use crate::point::Point;

/// The law that points are ordered by z, then y, then x.
pub fn order_of_points()
    ensures { IsOrderBy ⟦<Point as Ord>⟧.cmp PointIsBefore }
{}

/// The law that nodes are ordered by level, then k, then j, then i.
pub fn order_of_nodes()
    ensures { IsOrderBy ⟦<Node as Ord>⟧.cmp NodeIsBefore }
{}

/// The law that keys are ordered by level, then the point's order, then the axis, X before Y before Z.
pub fn order_of_keys()
    ensures { IsOrderBy ⟦<Key as Ord>⟧.cmp KeyIsBefore }
{}

/// The law that the list of nodes has each node of the world and no other, and that each is before all later ones.
pub fn nodes_in_order()
    ensures each { NodesAreListed }
    ensures rising { NodesRise }
    ensures test { (a b : NodeOf) → IsTrue (is_before a b) ↔ NodeIsBefore a b }
{}

/// The law that slots number the nodes of a world without gaps, and no two alike.
///
/// A node's slot is the number of the nodes of the lower levels, and of those of its own level that are in the planes,
/// the rows and the places before it. The root has the last one.
pub fn slots_of_nodes()
    ensures place { NodesHaveSlots }
    ensures no_gap { SlotsHaveNodes }
    ensures apart { SlotsAreApart }
    ensures number { SlotsAreNumbers }
    ensures last { (depth : ℕ) → slot depth (root depth) + 1 ≡ length (nodes depth) }
{}

/// The law of how many nodes there are: a level has the cube of the number in a row, below level 0 there are none, each
/// level adds its own, and the last level has the root alone.
///
/// So no level has more than level 0 of a world of the greatest depth, and no world more than so many for each level of
/// that one.
pub fn counts_of_nodes()
    ensures level { (depth level : ℕ) → length (level_nodes depth level)
        ≡ nodes_across depth level ^ 3 }
    ensures none { (depth : ℕ) → length (joined 0 (level_nodes depth)) ≡ 0 }
    ensures more { (depth level : ℕ) → length (joined (level + 1) (level_nodes depth))
        ≡ length (joined level (level_nodes depth)) + nodes_across depth level ^ 3 }
    ensures all { (depth : ℕ) → length (nodes depth)
        ≡ length (joined depth (level_nodes depth)) + 1 }
    ensures level_most { (depth level : ℕ) → IsDepth depth
        → nodes_across depth level ^ 3 ≤ (2 ^ MAX_DEPTH) ^ 3 }
    ensures most { (depth : ℕ) → IsDepth depth
        → length (nodes depth) ≤ (2 ^ MAX_DEPTH) ^ 3 * (MAX_DEPTH + 1) }
{}
