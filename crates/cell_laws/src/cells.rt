//! That the faces of every cell fit together, and that the keys of its triangles are present.

ghost use Rattle.std.specs.Prelude.{ℕ, ◌<◌, ◌≤◌};
ghost use Rattle.std.specs.List.{AllByRecursion};
ghost use Rattle.lattice.specs.declared.point.Point.{Point};
ghost use Rattle.lattice.specs.declared.point.Face.{Face};
ghost use Rattle.terrain.specs.Curves.{IsClosed};
ghost use Rattle.terrain.specs.Samples.{Field};
ghost use Rattle.terrain.specs.declared.cells.TheConstants.{REGULAR_CASES, TRANSITION_CASES};
ghost use Rattle.terrain.specs.Cells.{regular_faces, transition_faces, IsPresent, regular_triangles, transition_triangles};

/// The faces of every regular cell, and of every transition cell on each of the six faces, are the faces of a closed
/// body: each side whose corners differ is in exactly two of them, in opposite directions.
pub fn cells_are_closed()
    ensures regular { (signs : ℕ) → signs < REGULAR_CASES → IsClosed (regular_faces signs) }
    ensures transition { (face : Face) (signs : ℕ) → signs < TRANSITION_CASES
        → IsClosed (transition_faces face signs) }
{}

/// Every key of a cell's triangles is present: exactly one end of its edge is solid.
pub fn keys_of_cells_are_present()
    ensures regular { (s : Field) (level : ℕ) (low : Point)
        → AllByRecursion (AllByRecursion (IsPresent s)) (regular_triangles s level low) }
    ensures transition { (s : Field) (level : ℕ) (face : Face) (low : Point) → 1 ≤ level →
        AllByRecursion (AllByRecursion (IsPresent s)) (transition_triangles s level face low) }
{}
