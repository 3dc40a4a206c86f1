//! How far the lattice points of a leaf move as ends of keys of its level.

ghost use Rattle.std.specs.Prelude.{◌≡◌, ◌≢◌, ◌-◌, ◌≤◌, ◌↔◌, IsTrue, if◌then◌else◌};
ghost use Rattle.lattice.specs.declared.node.TheConstants.{CELLS};
ghost use Rattle.lattice.specs.Node.{IsNode};
ghost use Rattle.lattice.specs.Point.{is_same_axis, moved};
ghost use Rattle.lattice.specs.Settings.{IsDepth};
ghost use Rattle.terrain.specs.Blocks.{cell_corner, shift};
ghost use Rattle.terrain.specs.Levels.{LevelMap};
ghost use Rattle.lattice.specs.Steps.{AreAtMost};
ghost use Rattle.vertex_places.specs.Moves.{FinePointsStay};

use crate::direction::{DIRECTIONS, Direction};
use crate::leaf_rim::LeafRim;
use lattice::{Axis, Node, Point, Region};
use level_laws::balance_splits_nodes_beside_split_ones;
use std::marker::Model;

/// How far a point moves on each axis, in units of 1/256 fine cell.
#[derive(Clone, Copy, Debug, PartialEq, Eq)]
pub struct Move {
    pub x: i32,
    pub y: i32,
    pub z: i32,
}

impl Move {
    ghost use Rattle.vertex_places.specs.Moves.{move_on};

    /// No move on any axis.
    pub const NONE: Move = Move { x: 0, y: 0, z: 0 };

    /// Returns how far the move is on an axis.
    pub fn on(&self, axis: Axis) -> i32
        ensures { result ≡ move_on axis self.now }
    {
        match axis {
            Axis::X => self.x,
            Axis::Y => self.y,
            Axis::Z => self.z,
        }
    }
}

/// How far each lattice point of a leaf moves as an end of a key of the leaf's level.
///
/// Contracts see the leaf: the depth of its world, its node and its rim, which decide every move.
#[derive(Debug, Drop)]
pub struct Moves {
    leaf: LeafRim,
    still: Region,
    table: [Move; DIRECTIONS],
}

impl Model for Moves {
    ghost use Rattle.vertex_places.specs.declared.leaf_rim.LeafRim.{LeafRim as LeafRimOf};
    ghost use Rattle.vertex_places.specs.Moves.{AreMoves};

    ghost Value = { LeafRimOf };

    ghost view = { λ moves. moves.leaf };

    ghost invariant = { λ moves. AreMoves moves.leaf moves.still moves.table };
}

impl Moves {
    ghost use Rattle.vertex_places.specs.Moves.{IsLeafOf, IsShift, IsSmall, IsWayIn, leaf_move, still_points};

    /// Returns the moves of a leaf, a node of a world of this depth, by its rim.
    pub fn new(depth: u8, node: Node, rim: u32) -> Moves
        requires depth { IsDepth depth }
        requires node { IsNode depth node }
        ensures { result ≡ record { depth = depth; node = node; rim = rim } }
    {
        let leaf = LeafRim { depth, node, rim };
        let still = leaf.still_points();
        let mut table = [Move::NONE; DIRECTIONS];
        if rim == 0 {
            return Moves { leaf, still, table };
        }
        for (number, entry) in table.iter_mut().enumerate() {
            *entry = leaf.move_at(Direction::numbered(number));
        }
        Moves { leaf, still, table }
    }

    /// Returns whether the leaf's rim is empty, so that no point moves.
    pub fn are_none(&self) -> bool
        ensures { IsTrue result ↔ (self.now.rim ≡ 0) }
    {
        self.leaf.rim == 0
    }

    /// Returns whether a lattice point that is so many cells of the leaf's level from its low corner, and the next one
    /// on an axis, lie on no face across which the place is finer, so that neither moves.
    pub(crate) fn have_still(&self, from: Point, axis: Axis) -> bool
        requires { AreAtMost CELLS from }
        ensures { IsTrue result ↔ IsWayIn (still_points self.now) from (moved axis 1 from) }
    {
        let Region { lo, hi } = self.still;
        lo.z <= from.z
            && from.z + one_on(axis, Axis::Z) <= hi.z
            && lo.y <= from.y
            && from.y + one_on(axis, Axis::Y) <= hi.y
            && lo.x <= from.x
            && from.x + one_on(axis, Axis::X) <= hi.x
    }

    /// Returns whether some point may move as an end of a key of a level: where the leaf's rim isn't empty, and the
    /// level is the leaf's.
    pub(crate) fn may_move(&self, level: u8) -> bool
        ensures { IsTrue result ↔ ((self.now.rim ≢ 0) × (level ≡ self.now.node.level)) }
    {
        self.leaf.rim != 0 && level == self.leaf.node.level
    }

    /// Returns how far the lattice point moves that is so many cells of the leaf's level from the leaf's low corner.
    pub fn at(&self, z: u32, y: u32, x: u32) -> Move
        requires z { z ≤ CELLS }
        requires y { y ≤ CELLS }
        requires x { x ≤ CELLS }
        ensures value { result ≡ leaf_move self.now z y x }
        ensures small { IsSmall self.now.node.level result }

        // In each level map of which the leaf is one, with this rim, it is the point's shift.
        ensures shift { let node = self.now.node in
            (m : LevelMap) → IsLeafOf m self.now
            → IsShift self.now.depth m node.level (cell_corner node z y x) result }
    {
        self.table[Direction::of_border(z, y, x).number()]
    }
}

/// For each axis 1 on the axis itself, and 0 on the others.
const ONES: [[u32; 3]; 3] = [[1, 0, 0], [0, 1, 0], [0, 0, 1]];

/// Returns 1 on the axis itself, and 0 on the others.
#[inline(always)]
pub(crate) fn one_on(own: Axis, axis: Axis) -> u32
    ensures value { result ≡ (if is_same_axis own axis then 1 else 0) }
    ensures most { result ≤ 1 }
{
    ONES[own as usize][axis as usize]
}

/// The law that no point of a leaf moves at the level below the leaf's. So the keys of that level on the leaf's faces
/// end where the lattice has their ends.
pub fn fine_points_stay()
    ensures { FinePointsStay }
{
    balance_splits_nodes_beside_split_ones();
}
