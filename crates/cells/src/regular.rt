//! The faces of a regular cell.

ghost use Rattle.std.specs.Prelude.{◌≡◌};
ghost use Rattle.terrain.specs.Cells.{regular_faces};

use crate::outline::Square;
use crate::polygon::polygon;
use face_curves::Faces;

/// The six faces of a regular cell: XLow, XHigh, YLow, YHigh, ZLow, ZHigh.
const SQUARES: [Square; 6] = [
    Square {
        corners: [0, 4, 6, 2],
        sides: [2, 9, 6, 1],
    },
    Square {
        corners: [1, 3, 7, 5],
        sides: [3, 7, 10, 4],
    },
    Square {
        corners: [0, 1, 5, 4],
        sides: [0, 4, 8, 2],
    },
    Square {
        corners: [2, 6, 7, 3],
        sides: [6, 11, 7, 5],
    },
    Square {
        corners: [0, 2, 3, 1],
        sides: [1, 5, 3, 0],
    },
    Square {
        corners: [4, 5, 7, 6],
        sides: [8, 10, 11, 9],
    },
];

/// Returns the faces of the regular cell with this sign number.
pub fn regular_faces(signs: u16) -> Faces
    ensures { result.items ≡ regular_faces signs }
{
    let mut faces = Faces::new();
    for square in &SQUARES {
        faces.push(polygon(signs, &square.corners, &square.sides));
    }
    faces
}
