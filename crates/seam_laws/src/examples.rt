//! The law at one place: a world of depth 2 in which one corner is split, so that two levels meet, and the ground.

ghost use Rattle.std.specs.Prelude.{◌≡◌, ◌++◌, Bool, true, pos, negsuc};
ghost use Rattle.lattice.specs.declared.point.Face.TheVariants.{XHigh, XLow, YLow};
ghost use Rattle.lattice.specs.Face.{higher};
ghost use Rattle.terrain.specs.Levels.{IsBalanced};
ghost use Rattle.terrain.specs.Blocks.{frame, frame_edges, net};
ghost use Rattle.cell_laws.specs.Squares.{fine_square, regular_square, lateral_face};
ghost use Rattle.seam_laws.specs.Examples.{lattice_point, upright, split_corner, ground};

/// On a square where the levels meet the finer cell and the transition cell have the same curve in opposite directions.
pub fn ground_at_a_square()
    ensures transition { net (fine_square ground 1 XLow (lattice_point 32 0 8) 0)
        (upright 0 (lattice_point 32 0 8)) (upright 0 (lattice_point 32 1 8)) ≡ negsuc 0 }
    ensures finer_cell { net (regular_square ground 0 XHigh (lattice_point 31 0 8))
        (upright 0 (lattice_point 32 0 8)) (upright 0 (lattice_point 32 1 8)) ≡ pos 1 }
    ensures both { net (fine_square ground 1 XLow (lattice_point 32 0 8) 0
        ++ regular_square ground 0 XHigh (lattice_point 31 0 8))
        (upright 0 (lattice_point 32 0 8)) (upright 0 (lattice_point 32 1 8)) ≡ pos 0 }
{}

/// On the segment at the edge of the split corner the lateral faces of the two leaves beside it have the same curve in
/// opposite directions, between a key of the one level and one of the other.
pub fn ground_at_a_segment()
    ensures across_x { net (lateral_face ground 1 XLow (lattice_point 32 30 8) higher true)
        (upright 1 (lattice_point 32 32 8)) (upright 0 (lattice_point 32 32 8)) ≡ pos 1 }
    ensures across_y { net (lateral_face ground 1 YLow (lattice_point 30 32 8) higher true)
        (upright 1 (lattice_point 32 32 8)) (upright 0 (lattice_point 32 32 8)) ≡ negsuc 0 }
    ensures both { net (lateral_face ground 1 XLow (lattice_point 32 30 8) higher true
        ++ lateral_face ground 1 YLow (lattice_point 30 32 8) higher true)
        (upright 1 (lattice_point 32 32 8)) (upright 0 (lattice_point 32 32 8)) ≡ pos 0 }
{}

/// The level map with one split corner is balanced, so the law holds of its frame: between the two keys of that
/// segment there is no crack.
pub fn one_split_corner()
    ensures balanced { IsBalanced 2 split_corner }
    ensures no_crack { net (frame_edges (frame 2 ground split_corner))
        (upright 1 (lattice_point 32 32 8)) (upright 0 (lattice_point 32 32 8)) ≡ pos 0 }
{}
