//! A face of a cell with signs at its corners.

ghost use Rattle.std.specs.Prelude.{◌≡◌, ◌<◌, ◌≤◌, length};
ghost use Rattle.std.specs.List.{AllByRecursion};
ghost use Rattle.terrain.specs.Cells.{polygon};
ghost use Rattle.face_curves.specs.declared.polygon.TheConstants.{MAX_CORNERS};
ghost use Rattle.cells.specs.Faces.{reversed_polygon};

use face_curves::Polygon;

/// Returns a face of the cell with this sign number: bit c of it is set where corner c is solid.
pub fn polygon(signs: u16, corners: &[u8], sides: &[u8]) -> Polygon
    requires numbers { AllByRecursion (λ corner. corner < 16) corners.now }
    requires few_corners { length corners.now ≤ MAX_CORNERS }
    requires few_sides { length sides.now ≤ MAX_CORNERS }
    ensures { result ≡ polygon signs (record { corners = corners.now; sides = sides.now }) }
{
    let mut polygon = Polygon::default();
    for corner in corners {
        polygon.solid.push((signs >> *corner) % 2 == 1);
    }
    for side in sides {
        polygon.sides.push(*side);
    }
    polygon
}

/// Returns the face with its corners in reverse: the side that led back to the first corner does so still.
pub fn reversed_polygon(face: &Polygon) -> Polygon
    requires corners { length face.now.solid ≤ MAX_CORNERS }
    requires sides { length face.now.sides ≤ MAX_CORNERS }
    requires some { 0 < length face.now.sides }
    ensures { result ≡ reversed_polygon face.now }
{
    let mut reversed = Polygon::default();
    for solid in face.solid.iter() {
        reversed.solid.insert(0, *solid);
    }
    for side in face.sides.iter() {
        reversed.sides.insert(0, *side);
    }
    let back = reversed.sides.remove(0);
    reversed.sides.push(back);
    reversed
}
