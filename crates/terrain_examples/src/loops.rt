//! The loops of single cells.

ghost use Rattle.std.specs.Prelude.{◌≡◌, ◌∷◌, []};
ghost use Rattle.lattice.specs.declared.point.Face.TheVariants.{XLow, XHigh, YLow, YHigh, ZLow, ZHigh};
ghost use Rattle.terrain.specs.Curves.{loops};
ghost use Rattle.terrain.specs.Cells.{regular_faces, transition_faces};

/// The loops of regular cells: one corner cut off, an ambiguous square, a band, and four corners apart.
pub fn regular_loops()
    ensures all_empty { loops (regular_faces 0) ≡ [] }
    ensures all_solid { loops (regular_faces 255) ≡ [] }
    ensures corner_0 { loops (regular_faces 1) ≡ (0 ∷ 1 ∷ 2 ∷ []) ∷ [] }
    ensures corner_1 { loops (regular_faces 2) ≡ (0 ∷ 4 ∷ 3 ∷ []) ∷ [] }
    ensures corner_2 { loops (regular_faces 4) ≡ (1 ∷ 5 ∷ 6 ∷ []) ∷ [] }
    ensures corner_3 { loops (regular_faces 8) ≡ (3 ∷ 7 ∷ 5 ∷ []) ∷ [] }
    ensures corner_4 { loops (regular_faces 16) ≡ (2 ∷ 9 ∷ 8 ∷ []) ∷ [] }
    ensures corner_5 { loops (regular_faces 32) ≡ (4 ∷ 8 ∷ 10 ∷ []) ∷ [] }
    ensures corner_6 { loops (regular_faces 64) ≡ (6 ∷ 11 ∷ 9 ∷ []) ∷ [] }
    ensures corner_7 { loops (regular_faces 128) ≡ (7 ∷ 10 ∷ 11 ∷ []) ∷ [] }
    ensures ambiguous_square { loops (regular_faces 9) ≡ (0 ∷ 1 ∷ 2 ∷ []) ∷ (3 ∷ 7 ∷ 5 ∷ []) ∷ [] }
    ensures band { loops (regular_faces 13) ≡ (0 ∷ 3 ∷ 7 ∷ 6 ∷ 2 ∷ []) ∷ [] }
    ensures four_corners { loops (regular_faces 105) ≡ (0 ∷ 1 ∷ 2 ∷ []) ∷ (3 ∷ 7 ∷ 5 ∷ []) ∷
        (4 ∷ 8 ∷ 10 ∷ []) ∷ (6 ∷ 11 ∷ 9 ∷ []) ∷ [] }
    ensures three_edges { loops (regular_faces 23) ≡ (3 ∷ 5 ∷ 6 ∷ 9 ∷ 8 ∷ 4 ∷ []) ∷ [] }
    ensures two_bands { loops (regular_faces 60) ≡ (1 ∷ 3 ∷ 7 ∷ 6 ∷ []) ∷ (2 ∷ 9 ∷ 10 ∷ 4 ∷ [])
        ∷ [] }
    ensures two_bars { loops (regular_faces 90) ≡ (0 ∷ 4 ∷ 7 ∷ 5 ∷ []) ∷ (2 ∷ 6 ∷ 11 ∷ 8 ∷ [])
        ∷ [] }
    ensures four_other_corners { loops (regular_faces 150) ≡ (0 ∷ 4 ∷ 3 ∷ []) ∷ (1 ∷ 5 ∷ 6 ∷ []) ∷
        (2 ∷ 9 ∷ 8 ∷ []) ∷ (7 ∷ 10 ∷ 11 ∷ []) ∷ [] }
    ensures two_empty_corners { loops (regular_faces 189) ≡ (0 ∷ 3 ∷ 4 ∷ []) ∷ (6 ∷ 9 ∷ 11 ∷ [])
        ∷ [] }
    ensures one_empty_corner { loops (regular_faces 254) ≡ (0 ∷ 2 ∷ 1 ∷ []) ∷ [] }
{}

/// The loops of transition cells on the low face of the X axis.
pub fn transition_loops()
    ensures all_empty { loops (transition_faces XLow 0) ≡ [] }
    ensures all_solid { loops (transition_faces XLow 511) ≡ [] }
    ensures middle_of_a_side { loops (transition_faces XLow 2) ≡ (0 ∷ 2 ∷ 3 ∷ []) ∷ [] }
    ensures a_row { loops (transition_faces XLow 7) ≡ (1 ∷ 13 ∷ 14 ∷ 4 ∷ 3 ∷ []) ∷ [] }
    ensures middle_of_the_far_side { loops (transition_faces XLow 128) ≡ (8 ∷ 11 ∷ 10 ∷ []) ∷ [] }
{}

/// The faces XHigh, YLow and ZHigh have the straight turn; XLow, YHigh and ZLow the reversed one.
pub fn turns_of_transition_cells()
    ensures straight_row { loops (transition_faces XHigh 7) ≡ (1 ∷ 3 ∷ 4 ∷ 14 ∷ 13 ∷ []) ∷ [] }
    ensures reversed_row { loops (transition_faces XLow 7) ≡ (1 ∷ 13 ∷ 14 ∷ 4 ∷ 3 ∷ []) ∷ [] }
    ensures straight_corner_and_side { loops (transition_faces XHigh 11)
        ≡ (2 ∷ 12 ∷ 13 ∷ 6 ∷ 5 ∷ 3 ∷ []) ∷ [] }
    ensures reversed_corner_and_side { loops (transition_faces XLow 11)
        ≡ (2 ∷ 3 ∷ 5 ∷ 6 ∷ 13 ∷ 12 ∷ []) ∷ [] }
    ensures straight_middles { loops (transition_faces XHigh 186)
        ≡ (0 ∷ 1 ∷ 6 ∷ 10 ∷ 11 ∷ 9 ∷ 4 ∷ 2 ∷ []) ∷ [] }
    ensures reversed_middles { loops (transition_faces XLow 186)
        ≡ (0 ∷ 2 ∷ 4 ∷ 9 ∷ 11 ∷ 10 ∷ 6 ∷ 1 ∷ []) ∷ [] }
    ensures straight_diagonal { loops (transition_faces XHigh 273) ≡ (0 ∷ 12 ∷ 13 ∷ 1 ∷ []) ∷
        (3 ∷ 5 ∷ 8 ∷ 7 ∷ []) ∷ (9 ∷ 11 ∷ 15 ∷ 14 ∷ []) ∷ [] }
    ensures reversed_diagonal { loops (transition_faces XLow 273) ≡ (0 ∷ 1 ∷ 13 ∷ 12 ∷ []) ∷
        (3 ∷ 7 ∷ 8 ∷ 5 ∷ []) ∷ (9 ∷ 14 ∷ 15 ∷ 11 ∷ []) ∷ [] }
    ensures on_y_low { loops (transition_faces YLow 11) ≡ (2 ∷ 12 ∷ 13 ∷ 6 ∷ 5 ∷ 3 ∷ []) ∷ [] }
    ensures on_y_high { loops (transition_faces YHigh 11) ≡ (2 ∷ 3 ∷ 5 ∷ 6 ∷ 13 ∷ 12 ∷ []) ∷ [] }
    ensures on_z_low { loops (transition_faces ZLow 11) ≡ (2 ∷ 3 ∷ 5 ∷ 6 ∷ 13 ∷ 12 ∷ []) ∷ [] }
    ensures on_z_high { loops (transition_faces ZHigh 11) ≡ (2 ∷ 12 ∷ 13 ∷ 6 ∷ 5 ∷ 3 ∷ []) ∷ [] }
{}
