//! How many triangles a cell and a leaf have at most.

ghost use Rattle.std.specs.Prelude.{ℕ, ◌≤◌, length};
ghost use Rattle.lattice.specs.declared.point.Face.{Face};
ghost use Rattle.lattice.specs.declared.point.Point.{Point};
ghost use Rattle.terrain.specs.declared.cells.TheConstants.{REGULAR_TRIANGLES, TRANSITION_TRIANGLES};
ghost use Rattle.terrain.specs.Cells.{regular_triangles, transition_triangles};
ghost use Rattle.terrain.specs.Samples.{Field};
ghost use Rattle.cell_laws.specs.Laws.{LeavesHaveFewTriangles};

/// The law that a cell and a leaf have no more triangles than these.
pub fn triangles_are_few()
    ensures regular { (s : Field) (level : ℕ) (low : Point)
        → length (regular_triangles s level low) ≤ REGULAR_TRIANGLES }
    ensures transition { (s : Field) (level : ℕ) (face : Face) (low : Point)
        → length (transition_triangles s level face low) ≤ TRANSITION_TRIANGLES }
    ensures leaf { LeavesHaveFewTriangles }
{}
