//! A leaf with its rim, and how far the points on its borders move.

ghost use Rattle.std.specs.Prelude.{◌≡◌, ◌+◌, ◌<◌, ◌≤◌, ◌≤ℤ◌, if◌then◌else◌, ◌&&◌, map, nat_le, nat_lt, pos};
ghost use Rattle.std.specs.List.{list_any};
ghost use Rattle.vertex_places.specs.Directions.{step_of};

use crate::direction::{Direction, Step};
use crate::moves::Move;
use lattice::{Axis, CELLS, Node, Point, Region, UNITS};

/// A leaf of a world of some depth, with its rim: one bit for each of the 26 places around it that have its size, set
/// where that place is in the world and its node is split.
#[derive(Clone, Copy, Debug)]
pub(crate) struct LeafRim {
    pub depth: u8,
    pub node: Node,
    pub rim: u32,
}

impl LeafRim {
    ghost use Rattle.lattice.specs.Offset.{has_neighbour};
    ghost use Rattle.vertex_places.specs.Directions.{as_direction};
    ghost use Rattle.vertex_places.specs.Moves.{IsWorldLeaf, is_finer_by, is_whole_by, quarter};
    ghost use Rattle.vertex_places.specs.Moves.{border_move, move_at, moves_inwards, still_points};

    /// Returns how far the points on a border move.
    pub(crate) fn move_at(&self, border: Direction) -> Move
        requires { IsWorldLeaf self.now }
        ensures { result ≡ move_at self.now (as_direction border) }
    {
        Move {
            x: self.move_on(border, Axis::X),
            y: self.move_on(border, Axis::Y),
            z: self.move_on(border, Axis::Z),
        }
    }

    /// Returns the box of the leaf's lattice points, by cells from its low corner, that lie on no face across which the
    /// place is finer. None of them moves.
    pub(crate) fn still_points(&self) -> Region
        ensures { result ≡ still_points self.now }
    {
        let (low, stay, high) = (Step::Low, Step::Stay, Step::High);
        Region {
            lo: Point {
                z: self.cells_off(low, stay, stay),
                y: self.cells_off(stay, low, stay),
                x: self.cells_off(stay, stay, low),
            },
            hi: Point {
                z: CELLS - self.cells_off(high, stay, stay),
                y: CELLS - self.cells_off(stay, high, stay),
                x: CELLS - self.cells_off(stay, stay, high),
            },
        }
    }

    /// Returns how far from a face the points begin that are still: a cell where the place across it is finer, or 0.
    fn cells_off(&self, z: Step, y: Step, x: Step) -> u32
        ensures value { result
            ≡ (if is_finer_by self.now (as_direction (record { z = z; y = y; x = x })) then 1
            else 0) }
        ensures most { result ≤ 1 }
    {
        u32::from(self.is_finer(Direction { z, y, x }))
    }

    /// Returns how far the points on a border move on an axis.
    fn move_on(&self, border: Direction, axis: Axis) -> i32
        requires { IsWorldLeaf self.now }
        ensures { result ≡ border_move self.now (as_direction border) axis }
    {
        if self.moves_inwards(border, axis) {
            border.step(axis).inwards(self.quarter())
        } else {
            0
        }
    }

    /// Returns whether the points on a border move on an axis: where the place across their face is finer, and none of
    /// those beyond the border is whole.
    fn moves_inwards(&self, border: Direction, axis: Axis) -> bool
        requires { IsWorldLeaf self.now }
        ensures { result ≡ moves_inwards self.now (as_direction border) axis }
    {
        self.is_finer(border.facing(axis)) && !self.is_any_whole(&border.beyond(axis))
    }

    /// Returns a quarter of a cell of the leaf's level, in units of 1/256 fine cell.
    fn quarter(&self) -> i32
        requires { IsWorldLeaf self.now }
        ensures value { result ≡ pos (quarter self.now.node.level) }
        ensures low { pos 0 ≤ℤ result }
    {
        ((UNITS / 4) << self.node.level) as i32
    }

    /// Returns whether some of these places is whole.
    fn is_any_whole(&self, places: &[Direction]) -> bool
        requires { IsWorldLeaf self.now }
        ensures { result ≡ list_any (is_whole_by self.now) (map as_direction places.now) }
    {
        places.iter().any(|place| self.is_whole(*place))
    }

    /// Returns whether the place in a direction is in the world and split.
    fn is_finer(&self, place: Direction) -> bool
        ensures { result ≡ is_finer_by self.now (as_direction place) }
    {
        place
            .rim_bit()
            .is_some_and(|bit| (self.rim >> bit) % 2 == 1)
    }

    /// Returns whether the place in a direction is in the world and isn't split; the leaf itself is.
    fn is_whole(&self, place: Direction) -> bool
        requires { IsWorldLeaf self.now }
        ensures { result ≡ is_whole_by self.now (as_direction place) }
    {
        self.has_neighbour(place) && !self.is_finer(place)
    }

    /// Returns whether the place in a direction is in the world.
    fn has_neighbour(&self, place: Direction) -> bool
        requires { IsWorldLeaf self.now }
        ensures { result ≡ has_neighbour self.now.depth (as_direction place) self.now.node }
    {
        let across = 1 << (self.depth - self.node.level);
        fits(self.node.k, place.z, across)
            && fits(self.node.j, place.y, across)
            && fits(self.node.i, place.x, across)
    }
}

/// Returns whether a step from an index leads to an index of a row of this length.
fn fits(index: u32, step: Step, across: u32) -> bool
    requires { index < across }
    ensures { result ≡ (nat_lt 0 (index + step_of step) && nat_le (index + step_of step) across) }
{
    match step {
        Step::Low => index > 0,
        Step::Stay => true,
        Step::High => index + 1 < across,
    }
}
