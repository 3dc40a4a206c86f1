//! The edges of cells, in the order of keys, and their keys.

ghost use Rattle.std.specs.Prelude.{◌≡◌, ◌<◌};
ghost use Rattle.lattice.specs.Face.{axis_along};
ghost use Rattle.terrain.specs.Cells.{corner_point, fine_point, regular_key, transition_key};
ghost use Rattle.cells.specs.declared.edges.TheConstants.{FINE_POINTS, REGULAR_CORNERS, REGULAR_EDGES, TRANSITION_EDGES};
ghost use Rattle.cells.specs.Edges.{CellHasRoom, face_axis, regular_edge, transition_edge};

use lattice::{Axis, Face, Key, Point};

/// An edge of a regular cell: the corner at its low end, and its axis.
#[derive(Clone, Copy, Debug, PartialEq, Eq)]
pub struct RegularEdge {
    pub corner: u8,
    pub axis: Axis,
}

/// One of the two axes along a face.
#[derive(Clone, Copy, Debug, PartialEq, Eq)]
pub enum Along {
    Lower,
    Higher,
}

/// An edge of a transition cell: whether it is a coarse one, the point at its low end, and the axis along which it
/// goes.
#[derive(Clone, Copy, Debug, PartialEq, Eq)]
pub struct TransitionEdge {
    pub is_coarse: bool,
    pub point: u8,
    pub along: Along,
}

/// How many corners a regular cell has.
pub const REGULAR_CORNERS: u8 = 8;

/// How many fine points a transition cell has.
pub const FINE_POINTS: u8 = 9;

/// How many edges a regular cell has.
pub const REGULAR_EDGES: usize = 12;

/// How many edges a transition cell has: twelve fine ones, and then four coarse ones.
pub const TRANSITION_EDGES: usize = 16;

/// The edges of a regular cell: the corner at the low end, and the axis.
static REGULAR: [(u8, Axis); REGULAR_EDGES] = [
    (0, Axis::X),
    (0, Axis::Y),
    (0, Axis::Z),
    (1, Axis::Y),
    (1, Axis::Z),
    (2, Axis::X),
    (2, Axis::Z),
    (3, Axis::Z),
    (4, Axis::X),
    (4, Axis::Y),
    (5, Axis::Y),
    (6, Axis::X),
];

/// The edges of a transition cell: whether it is a coarse one, the point at the low end, and the axis.
static TRANSITION: [(bool, u8, Along); TRANSITION_EDGES] = [
    (false, 0, Along::Lower),
    (false, 0, Along::Higher),
    (false, 1, Along::Lower),
    (false, 1, Along::Higher),
    (false, 2, Along::Higher),
    (false, 3, Along::Lower),
    (false, 3, Along::Higher),
    (false, 4, Along::Lower),
    (false, 4, Along::Higher),
    (false, 5, Along::Higher),
    (false, 6, Along::Lower),
    (false, 7, Along::Lower),
    (true, 0, Along::Lower),
    (true, 0, Along::Higher),
    (true, 2, Along::Higher),
    (true, 6, Along::Lower),
];

impl Along {
    /// Returns the axis that this is on a face.
    pub fn axis(self, face: Face) -> Axis
        ensures { result ≡ axis_along face (face_axis self) }
    {
        match self {
            Along::Lower => face.lower_axis(),
            Along::Higher => face.higher_axis(),
        }
    }
}

/// Returns the edge of this number of a regular cell, in the order of keys.
pub fn regular_edge(number: u8) -> RegularEdge
    requires { number < REGULAR_EDGES }
    ensures corner { result.corner ≡ (regular_edge number).corner }
    ensures axis { result.axis ≡ (regular_edge number).axis }
    ensures low { result.corner < REGULAR_CORNERS }
{
    let (corner, axis) = REGULAR[usize::from(number)];
    RegularEdge { corner, axis }
}

/// Returns corner x + 2 y + 4 z of the cell of a level with this low corner.
pub fn corner_point(level: u8, low: Point, corner: u8) -> Point
    requires cell { CellHasRoom level low }
    requires corner { corner < REGULAR_CORNERS }
    ensures { result ≡ corner_point level low corner }
{
    let side = 1 << level;
    Point {
        z: low.z + side * u32::from(corner / 4),
        y: low.y + side * u32::from(corner / 2 % 2),
        x: low.x + side * u32::from(corner % 2),
    }
}

/// Returns the key of the edge of this number, in the regular cell of a level with this low corner.
pub fn regular_key(level: u8, low: Point, number: u8) -> Key
    requires cell { CellHasRoom level low }
    requires number { number < REGULAR_EDGES }
    ensures { result ≡ regular_key level low number }
{
    let edge = regular_edge(number);
    Key {
        level,
        at: corner_point(level, low, edge.corner),
        axis: edge.axis,
    }
}

/// Returns the edge of this number of a transition cell, in the order of keys.
pub fn transition_edge(number: u8) -> TransitionEdge
    requires { number < TRANSITION_EDGES }
    ensures coarse { result.is_coarse ≡ (transition_edge number).is_coarse }
    ensures point { result.point ≡ (transition_edge number).point }
    ensures along { face_axis result.along ≡ (transition_edge number).along }
    ensures low { result.point < FINE_POINTS }
{
    let (is_coarse, point, along) = TRANSITION[usize::from(number)];
    TransitionEdge {
        is_coarse,
        point,
        along,
    }
}

/// Returns point a + 3 b on the square of a leaf's face with this low corner: a half squares along the lower axis of
/// the face, and b along the higher one.
pub fn fine_point(level: u8, face: Face, low: Point, point: u8) -> Point
    requires level { 0 < level }
    requires square { CellHasRoom level low }
    requires point { point < FINE_POINTS }
    ensures { result ≡ fine_point level face low point }
{
    let half = 1 << (level - 1);
    let row = low.moved(face.higher_axis(), half * u32::from(point / 3));
    row.moved(face.lower_axis(), half * u32::from(point % 3))
}

/// Returns the key of the edge of this number, in the transition cell on the square of a leaf's face with this low
/// corner: of the leaf's level where the edge is coarse, and of the level below where it is fine.
pub fn transition_key(level: u8, face: Face, low: Point, number: u8) -> Key
    requires level { 0 < level }
    requires square { CellHasRoom level low }
    requires number { number < TRANSITION_EDGES }
    ensures { result ≡ transition_key level face low number }
{
    let edge = transition_edge(number);
    Key {
        level: if edge.is_coarse { level } else { level - 1 },
        at: fine_point(level, face, low, edge.point),
        axis: edge.along.axis(face),
    }
}
