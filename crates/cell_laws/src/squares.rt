//! Cells that share a square see it with opposite turns, and so do lateral faces that share a segment: the curves of
//! the one are those of the other the other way round, with the same keys.

ghost use Rattle.std.specs.Prelude.{◌≡◌, ℕ, ◌-◌, ◌^◌, ◌<◌, ◌≤◌, Bool, true, false, not};
ghost use Rattle.std.specs.Bool.{beq};
ghost use Rattle.lattice.specs.declared.point.Point.{Point};
ghost use Rattle.lattice.specs.declared.point.Axis.{Axis};
ghost use Rattle.lattice.specs.declared.point.Face.{Face};
ghost use Rattle.lattice.specs.Point.{moved};
ghost use Rattle.terrain.specs.Samples.{Field};
ghost use Rattle.lattice.specs.Face.{FaceAxis, axis_along};
ghost use Rattle.terrain.specs.Cells.{is_straight, fine_point};
ghost use Rattle.cell_laws.specs.Laws.{RegularCellsLeaveCurves, TransitionCellsLeaveCurves};
ghost use Rattle.cell_laws.specs.Squares.{AreReverses, AreInTurn, regular_square, coarse_square, fine_square, fine_corner, low_face, high_face, opposite, corner_on, square_curves, other, lateral_face, segment_start, leads_forwards, goes_round, segment_curves};

/// The curves of a cell on a square depend on the square's four samples alone, and on the turn: that of a regular
/// cell's faces and of a fine square is straight on XHigh, YLow and ZHigh, and that of a coarse square on the other
/// faces.
pub fn curves_of_squares()
    ensures regular { (s : Field) (level : ℕ) (face : Face) (low : Point) →
        AreInTurn (is_straight face) (regular_square s level face low)
        (square_curves s level face (corner_on level face low)) }
    ensures coarse { (s : Field) (level : ℕ) (face : Face) (low : Point) → 1 ≤ level →
        AreInTurn (not (is_straight face)) (coarse_square s level face low)
        (square_curves s level face low) }
    ensures fine { (s : Field) (level : ℕ) (face : Face) (low : Point) (place : ℕ) → place < 4 →
        AreInTurn (is_straight face) (fine_square s level face low place)
        (square_curves s (level - 1) face (fine_point level face low (fine_corner place))) }
{}

/// Two regular cells of a level side by side along an axis: each curve of the one on the square between them is a curve
/// of the other the other way round.
pub fn curves_between_regular_cells()
    ensures { (s : Field) (level : ℕ) (axis : Axis) (low : Point) →
        AreReverses (regular_square s level (high_face axis) low)
        (regular_square s level (low_face axis) (moved axis (2 ^ level) low)) }
{}

/// The coarse square of a transition cell on a face of a leaf, and the leaf's regular cell that has this square on that
/// face.
pub fn curves_on_coarse_squares()
    ensures { (s : Field) (level : ℕ) (face : Face) (low : Point) → 1 ≤ level →
        AreReverses (coarse_square s level face (corner_on level face low))
        (regular_square s level face low) }
{}

/// A fine square of a transition cell on a face of a leaf, and the regular cell of the level below that has this square
/// on its opposite face.
pub fn curves_on_fine_squares()
    ensures { (s : Field) (level : ℕ) (face : Face) (low cell : Point) (place : ℕ) → place < 4 →
        corner_on (level - 1) (opposite face) cell ≡ fine_point level face low (fine_corner place) →
        AreReverses (fine_square s level face low place)
        (regular_square s (level - 1) (opposite face) cell) }
{}

/// The curves of a lateral face depend on the samples at the two ends and the middle of its segment alone, and on the
/// turn: the coarse edge is passed forwards exactly where the way from the leaf to the finer node goes
/// counter-clockwise round the segment. (A lateral face at the high end of an axis has its cell on the low side of the
/// segment.)
pub fn curves_of_lateral_faces()
    ensures curves { (s : Field) (level : ℕ) (face : Face) (low : Point) (along : FaceAxis)
        (high : Bool) → 1 ≤ level →
        AreInTurn (beq (is_straight face) (leads_forwards along high))
        (lateral_face s level face low along high)
        (segment_curves s level (axis_along face along) (segment_start level face low along high)) }
    ensures turn { (face : Face) (along : FaceAxis) (high : Bool) →
        beq (is_straight face) (leads_forwards along high) ≡ goes_round (axis_along face along) face
        (not high) }
{}

/// Two transition cells side by side on a face of a leaf: each curve of the one on the lateral face between them is a
/// curve of the other the other way round.
pub fn curves_between_transition_cells()
    ensures { (s : Field) (level : ℕ) (face : Face) (low : Point) (along : FaceAxis) → 1 ≤ level →
        AreReverses (lateral_face s level face low along true)
        (lateral_face s level face (moved (axis_along face (other along)) (2 ^ level) low)
        along false) }
{}

/// The triangles of a cell leave open just the curves of its faces: their directed edges differ from their reverses by
/// as much as those of the curves do, for each pair of keys.
pub fn nets_of_cells()
    ensures regular { RegularCellsLeaveCurves }
    ensures transition { TransitionCellsLeaveCurves }
{}
