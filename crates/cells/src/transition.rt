//! The faces of a transition cell.

ghost use Rattle.std.specs.Prelude.{◌≡◌, ◌<◌, ◌≤◌, length};
ghost use Rattle.terrain.specs.Cells.{is_straight, transition_faces};
ghost use Rattle.face_curves.specs.declared.polygon.TheConstants.{MAX_CORNERS};
ghost use Rattle.cells.specs.Faces.{turned_polygon};

use crate::outline::{Lateral, Square};
use crate::polygon::{polygon, reversed_polygon};
use face_curves::{Faces, Polygon};
use lattice::Face;

/// The fine points of which the four coarse corners are copies.
const C0: u8 = 0;

const C1: u8 = 2;

const C2: u8 = 6;

const C3: u8 = 8;

/// The number of a side between two copies of one point.
const NONE: u8 = 255;

/// The squares of a transition cell in the straight turn: the four fine ones, and the coarse one.
const SQUARES: [Square; 5] = [
    Square {
        corners: [0, 1, 4, 3],
        sides: [0, 3, 5, 1],
    },
    Square {
        corners: [1, 2, 5, 4],
        sides: [2, 4, 7, 3],
    },
    Square {
        corners: [3, 4, 7, 6],
        sides: [5, 8, 10, 6],
    },
    Square {
        corners: [4, 5, 8, 7],
        sides: [7, 9, 11, 8],
    },
    Square {
        corners: [C0, C2, C3, C1],
        sides: [13, 15, 14, 12],
    },
];

/// The lateral faces in the straight turn: at the low end of the face's higher axis, at the high end of its lower axis,
/// at the high end of its higher axis, and at the low end of its lower axis.
const LATERAL_FACES: [Lateral; 4] = [
    Lateral {
        corners: [C0, C1, 2, 1, 0],
        sides: [12, NONE, 2, 0, NONE],
    },
    Lateral {
        corners: [C1, C3, 8, 5, 2],
        sides: [14, NONE, 9, 4, NONE],
    },
    Lateral {
        corners: [C3, C2, 6, 7, 8],
        sides: [15, NONE, 10, 11, NONE],
    },
    Lateral {
        corners: [C2, C0, 0, 3, 6],
        sides: [13, NONE, 1, 6, NONE],
    },
];

/// Returns the faces of the transition cell with this sign number, on the face of a leaf.
pub fn transition_faces(face: Face, signs: u16) -> Faces
    ensures { result.items ≡ transition_faces face signs }
{
    let mut faces = Faces::new();
    for square in &SQUARES {
        faces.push(turned_polygon(face, polygon(signs, &square.corners, &square.sides)));
    }
    for lateral in &LATERAL_FACES {
        faces.push(turned_polygon(face, polygon(signs, &lateral.corners, &lateral.sides)));
    }
    faces
}

/// Returns whether the transition cells on the face have the straight turn.
pub fn is_straight(face: Face) -> bool
    ensures { result ≡ is_straight face }
{
    matches!(face, Face::XHigh | Face::YLow | Face::ZHigh)
}

/// Returns a face of a transition cell in the turn that it has on the face of a leaf, from the straight turn.
fn turned_polygon(face: Face, straight: Polygon) -> Polygon
    requires corners { length straight.solid ≤ MAX_CORNERS }
    requires sides { length straight.sides ≤ MAX_CORNERS }
    requires some { 0 < length straight.sides }
    ensures { result ≡ turned_polygon face straight }
{
    if is_straight(face) {
        straight
    } else {
        reversed_polygon(&straight)
    }
}
