//! Nodes: the cubes into which a world is split.

ghost use Rattle.std.specs.Prelude.{◌≡◌, ℕ, ◌+◌, ◌-◌, ◌^◌, ◌<◌, ◌≤◌, ℤ, pos, negsuc, ◌+ℤ◌, ◌≤ℤ◌, unsigned_abs, Contains, ◌↔◌, IsTrue, MatchOption, length, slice_get, if◌then◌else◌, nat_lt, nat_le, ◌==◌, ◌&&◌};
ghost use Rattle.lattice.specs.declared.settings.TheConstants.{MAX_SIDE};
ghost use Rattle.lattice.specs.Lists.{joined};
ghost use Rattle.lattice.specs.Node.{level_nodes, node_side, nodes_across};
ghost use Rattle.lattice.specs.Settings.{IsDepth};

use crate::point::Point;

/// How many cells a node has along each axis.
pub const CELLS: u32 = 16;

/// A node: the closed cube of side `16 * 2^level` whose low corner is (i, j, k) times that side.
///
/// Nodes are ordered by level, then k, then j, then i.
#[derive(Clone, Copy, Debug, PartialEq, Eq, PartialOrd, Ord, Hash)]
pub struct Node {
    pub level: u8,
    pub k: u32,
    pub j: u32,
    pub i: u32,
}

impl Node {
    ghost use Rattle.lattice.specs.declared.node.Node.{Node as NodeOf};
    ghost use Rattle.lattice.specs.declared.settings.TheConstants.{MAX_DEPTH};
    ghost use Rattle.lattice.specs.Node.{Holds, IsNode, children, high_corner, is_node, low_corner, nodes, parent, root, slot};
    ghost use Rattle.lattice.specs.Point.{IsInWorld};
    ghost use Rattle.lattice.specs.Offset.{AreSteps, IsAtOffset, direction_of, has_neighbour, neighbour};

    /// Returns the node that is the whole world of this depth.
    pub fn root(depth: u8) -> Node
        ensures { result ≡ root depth }
    {
        Node {
            level: depth,
            k: 0,
            j: 0,
            i: 0,
        }
    }

    /// Returns the side of the node's cube, in fine cells.
    pub fn side(&self) -> u32
        requires { IsDepth self.now.level }
        ensures value { result ≡ node_side self.now.level }
        ensures most { result ≤ MAX_SIDE }
    {
        node_side(self.level)
    }

    /// Returns the low corner of the node's cube.
    pub fn low_corner(&self) -> Point
        requires { IsNode MAX_DEPTH self.now }
        ensures { result ≡ low_corner self.now }
    {
        let side = self.side();
        Point::new(self.i * side, self.j * side, self.k * side)
    }

    /// Returns the high corner of the node's cube.
    pub fn high_corner(&self) -> Point
        requires { IsNode MAX_DEPTH self.now }
        ensures value { result ≡ high_corner self.now }
        ensures world { (depth : ℕ) → IsNode depth self.now → IsInWorld depth result }
    {
        let side = self.side();
        Point::new(
            (self.i + 1) * side,
            (self.j + 1) * side,
            (self.k + 1) * side,
        )
    }

    /// Returns whether the node is in the world of this depth.
    pub fn is_in_world(&self, depth: u8) -> bool
        requires { IsDepth depth }
        ensures test { result ≡ is_node depth self.now }
        ensures fact { IsTrue result ↔ IsNode depth self.now }
    {
        let across = nodes_across(depth, self.level);
        self.level <= depth && self.k < across && self.j < across && self.i < across
    }

    /// Returns the node of the same level whose i, j and k are greater by the items of `d`, if that place is in the
    /// world.
    ///
    /// Each item of `d` is -1, 0 or 1, for the axes x, y and z.
    pub fn neighbour(&self, depth: u8, d: [i8; 3]) -> Option<Node>
        requires depth { IsDepth depth }
        requires node { IsNode depth self.now }
        requires steps { AreSteps d }
        ensures value { result
            ≡ (if has_neighbour depth (direction_of d) self.now
            then Some (neighbour (direction_of d) self.now)
            else None) }

        // It is the node of the world at that offset; None says that there is no such node.
        ensures place { MatchOption result
            ((n : NodeOf) → IsNode depth n → IsAtOffset d self.now n → ⊥)
            (λ n. IsNode depth n × IsAtOffset d self.now n) }
    {
        let across = nodes_across(depth, self.level);
        Some(Node {
            level: self.level,
            k: stepped(self.k, d[2], across)?,
            j: stepped(self.j, d[1], across)?,
            i: stepped(self.i, d[0], across)?,
        })
    }

    /// Returns the node of the next higher level whose cube holds this one's; the root has none.
    pub fn parent(&self, depth: u8) -> Option<Node>
        requires depth { IsDepth depth }
        requires node { IsNode depth self.now }
        ensures value { result
            ≡ (if self.now.level == depth then None else Some (parent self.now)) }
        ensures place { MatchOption result
            (self.now ≡ root depth)
            (λ p. IsNode depth p × (p.level ≡ self.now.level + 1) × Holds p self.now) }
    {
        if self.level == depth {
            return None;
        }
        Some(Node {
            level: self.level + 1,
            k: self.k / 2,
            j: self.j / 2,
            i: self.i / 2,
        })
    }

    /// Returns the eight nodes of the next lower level in this node's cube, by z, then y, then x.
    pub fn children(&self) -> [Node; 8]
        requires level { 1 ≤ self.now.level }
        requires k { self.now.k < 2 ^ 31 }
        requires j { self.now.j < 2 ^ 31 }
        requires i { self.now.i < 2 ^ 31 }
        ensures value { result ≡ children self.now }
        ensures place { (c : NodeOf) → Contains result c
            ↔ ((c.level + 1 ≡ self.now.level) × Holds self.now c) }
    {
        let child = |z: u32, y: u32, x: u32| Node {
            level: self.level - 1,
            k: 2 * self.k + z,
            j: 2 * self.j + y,
            i: 2 * self.i + x,
        };
        [
            child(0, 0, 0),
            child(0, 0, 1),
            child(0, 1, 0),
            child(0, 1, 1),
            child(1, 0, 0),
            child(1, 0, 1),
            child(1, 1, 0),
            child(1, 1, 1),
        ]
    }

    /// Returns the number of nodes of the world before this one, in the order of nodes.
    pub fn slot(&self, depth: u8) -> u32
        requires depth { IsDepth depth }
        requires node { IsNode depth self.now }
        ensures before { result ≡ slot depth self.now }
        ensures place { slice_get (nodes depth) result ≡ Some self.now }
        ensures below { result < length (nodes depth) }
        ensures apart { (n : NodeOf) → IsNode depth n → slot depth n ≡ result → n ≡ self.now }
    {
        let across = nodes_across(depth, self.level);
        nodes_below(depth, self.level) + (self.k * across + self.j) * across + self.i
    }
}

/// Returns the side of a node of a level, in fine cells.
pub fn node_side(level: u8) -> u32
    requires { IsDepth level }
    ensures value { result ≡ node_side level }
    ensures most { result ≤ MAX_SIDE }
{
    CELLS << level
}

/// Returns how many nodes of a level there are in a row of a world of this depth.
pub fn nodes_across(depth: u8, level: u8) -> u32
    requires { IsDepth depth }
    ensures { result ≡ nodes_across depth level }
{
    1 << depth.saturating_sub(level)
}

/// Returns how many nodes of a world are of lower levels than this one. A level has an eighth of the nodes of the one
/// below it, and the level above the root's would have none left.
pub fn nodes_below(depth: u8, level: u8) -> u32
    requires depth { IsDepth depth }
    requires level { level ≤ depth + 1 }
    ensures { result ≡ length (joined level (level_nodes depth)) }
{
    ((1 << (3 * (depth + 1))) - (1 << (3 * (depth + 1 - level)))) / 7
}

/// Returns the index that is greater by a step of -1, 0 or 1, if it is below the number of nodes in a row.
fn stepped(index: u32, step: i8, across: u32) -> Option<u32>
    requires low { negsuc 0 ≤ℤ step }
    requires high { step ≤ℤ pos 1 }
    ensures { let at = index + unsigned_abs (step +ℤ pos 1) in
        result ≡ (if nat_lt 0 at && nat_le at across then Some (at - 1) else None) }
{
    index
        .checked_add_signed(i32::from(step))
        .filter(|&at| at < across)
}
