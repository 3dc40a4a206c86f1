//! Signs, positions, triangles, bricks and touched leaves of the worked examples.

ghost use Rattle.std.specs.Prelude.{◌≡◌, ◌+◌, ◌*◌, true, false, ◌∷◌, [], length, pos, neg_ℤ};
ghost use Rattle.std.specs.List.{slice_index_or};
ghost use Rattle.lattice.specs.declared.point.Axis.TheVariants.{X, Y, Z};
ghost use Rattle.lattice.specs.declared.point.Face.TheVariants.{XLow, YLow, ZLow};
ghost use Rattle.terrain.specs.History.{sample};
ghost use Rattle.terrain.specs.Levels.{levels};
ghost use Rattle.terrain.specs.Cells.{is_present, regular_signs, transition_signs};
ghost use Rattle.terrain.specs.Blocks.{place, shift, block, keys_of, leaf_samples, face_samples, touched, mesh, border_edges, leaf_border};
ghost use Rattle.terrain_examples.specs.Examples.{point, node, key, still, near, single_point, ambiguous_square, touching_balls, middle_of_an_edge, two_level_ground, corner_camera, two_views, fill_box, position, decimals, joint, seen_point, corner_point_filled};

use terrain::Event;

/// The sign numbers of the cell beside a filled point, of an ambiguous square and of a band.
pub fn signs_of_examples()
    ensures single_point { regular_signs (sample (still 0) single_point) 0 (point 8 8 8) ≡ 1 }
    ensures below_it { regular_signs (sample (still 0) single_point) 0 (point 7 8 8) ≡ 2 }
    ensures ambiguous_square { regular_signs (sample (still 0) ambiguous_square) 0 (point 8 8 8)
        ≡ 9 }
    ensures band { regular_signs (sample (still 0) touching_balls) 0 (point 8 8 8) ≡ 13 }
    ensures coarse_cell { regular_signs (sample (near 2) two_level_ground) 1 (point 34 16 8) ≡ 15 }
    ensures fine_row { transition_signs (sample (near 2) two_level_ground) 1 XLow (point 32 16 8)
        ≡ 7 }
{}

/// Two keys whose vertices lie at one lattice point, where two balls touch.
pub fn places_where_balls_touch()
    ensures along_x { place 0 (sample (still 0) touching_balls) (levels (still 0) touching_balls)
        (key 0 (point 8 8 8) X) ≡ position 2304 2048 2048 }
    ensures along_y { place 0 (sample (still 0) touching_balls) (levels (still 0) touching_balls)
        (key 0 (point 9 8 8) Y) ≡ position 2304 2048 2048 }
{}

/// Positions on the ground across two levels: a coarse key on a face moves towards its own block, and one at the edge
/// of three coarse blocks and a fine one doesn't move.
pub fn places_across_two_levels()
    ensures on_the_face { place 2 (sample (near 2) two_level_ground)
        (levels (near 2) two_level_ground) (key 1 (point 32 16 8) Z) ≡ position 8320 4096 2176 }
    ensures at_the_edge { place 2 (sample (near 2) two_level_ground)
        (levels (near 2) two_level_ground) (key 1 (point 32 32 8) Z) ≡ position 8192 8192 2176 }
    ensures fine_on_the_face { place 2 (sample (near 2) two_level_ground)
        (levels (near 2) two_level_ground) (key 0 (point 32 16 8) Z) ≡ position 8192 4096 2176 }
    ensures fine_inside { place 2 (sample (near 2) two_level_ground)
        (levels (near 2) two_level_ground) (key 0 (point 3 5 8) Z) ≡ position 768 1280 2176 }
    ensures coarse_inside { place 2 (sample (near 2) two_level_ground)
        (levels (near 2) two_level_ground) (key 1 (point 34 16 8) Z) ≡ position 8704 4096 2176 }
    ensures moves { shift 2 (levels (near 2) corner_camera) 1 (point 32 0 16) X ≡ pos 128 }
    ensures stays_on_y { shift 2 (levels (near 2) corner_camera) 1 (point 32 0 16) Y ≡ pos 0 }
    ensures stays_at_corner { shift 2 (levels (near 2) corner_camera) 1 (point 32 32 32) X ≡ pos 0 }
{}

/// The triangles of a single filled point.
pub fn block_of_single_point()
    ensures { block 0 (sample (still 0) single_point) (levels (still 0) single_point) (node 0 0 0 0)
        ≡ (key 0 (point 8 8 7) Z ∷ key 0 (point 8 7 8) Y ∷ key 0 (point 7 8 8) X ∷ [])
        ∷ (key 0 (point 8 8 7) Z ∷ key 0 (point 8 8 8) X ∷ key 0 (point 8 7 8) Y ∷ [])
        ∷ (key 0 (point 8 8 7) Z ∷ key 0 (point 7 8 8) X ∷ key 0 (point 8 8 8) Y ∷ [])
        ∷ (key 0 (point 8 8 7) Z ∷ key 0 (point 8 8 8) Y ∷ key 0 (point 8 8 8) X ∷ [])
        ∷ (key 0 (point 8 7 8) Y ∷ key 0 (point 8 8 8) Z ∷ key 0 (point 7 8 8) X ∷ [])
        ∷ (key 0 (point 8 7 8) Y ∷ key 0 (point 8 8 8) X ∷ key 0 (point 8 8 8) Z ∷ [])
        ∷ (key 0 (point 7 8 8) X ∷ key 0 (point 8 8 8) Z ∷ key 0 (point 8 8 8) Y ∷ [])
        ∷ (key 0 (point 8 8 8) X ∷ key 0 (point 8 8 8) Y ∷ key 0 (point 8 8 8) Z ∷ []) ∷ [] }
{}

/// The keys of a single filled point in the order of first use, and their positions.
pub fn mesh_of_single_point()
    ensures keys { (mesh 0 (sample (still 0) single_point) (levels (still 0) single_point)
        (node 0 0 0 0)).keys
        ≡ key 0 (point 8 8 7) Z ∷ key 0 (point 8 7 8) Y ∷ key 0 (point 7 8 8) X ∷ key 0
        (point 8 8 8) X ∷ key 0 (point 8 8 8) Y ∷ key 0 (point 8 8 8) Z ∷ [] }
    ensures positions { (mesh 0 (sample (still 0) single_point) (levels (still 0) single_point)
        (node 0 0 0 0)).positions
        ≡ position 2048 2048 1920 ∷ position 2048 1920 2048 ∷ position 1920 2048 2048
        ∷ position 2176 2048 2048 ∷ position 2048 2176 2048 ∷ position 2048 2048 2176 ∷ [] }
{}

/// A filled point in the middle of a coarse edge is seen by transition cells alone.
pub fn block_at_the_middle_of_an_edge()
    ensures no_coarse_key { is_present (sample (near 2) middle_of_an_edge) (key 1 (point 32 8 8) Y)
        ≡ false }
    ensures triangles { block 2 (sample (near 2) middle_of_an_edge)
        (levels (near 2) middle_of_an_edge) (node 1 1 0 0)
        ≡ (key 0 (point 32 9 7) Z ∷ key 0 (point 32 9 8) Y ∷ key 0 (point 32 8 8) Y ∷ [])
        ∷ (key 0 (point 32 8 8) Y ∷ key 0 (point 32 9 8) Y ∷ key 0 (point 32 9 8) Z ∷ []) ∷ [] }
{}

/// The order of a brick's samples, on a field whose samples number its points.
pub fn samples_of_bricks()
    ensures count { length (leaf_samples decimals (node 0 0 0 0)) ≡ 4913 }
    ensures first { slice_index_or (leaf_samples decimals (node 1 1 2 3)) 0 (pos 0) ≡ pos 966432 }
    ensures next_x { slice_index_or (leaf_samples decimals (node 1 1 2 3)) 1 (pos 0) ≡ pos 966434 }
    ensures next_y { slice_index_or (leaf_samples decimals (node 1 1 2 3)) 17 (pos 0) ≡ pos 966632 }
    ensures next_z { slice_index_or (leaf_samples decimals (node 1 1 2 3)) 289 (pos 0)
        ≡ pos 986432 }
    ensures last { slice_index_or (leaf_samples decimals (node 1 1 2 3)) 4912 (pos 0)
        ≡ pos 1289664 }
    ensures face_count { length (face_samples decimals (node 1 1 0 0) XLow) ≡ 1089 }
    ensures face_first { slice_index_or (face_samples decimals (node 1 1 2 3) YLow) 0 (pos 0)
        ≡ pos 966432 }
    ensures face_next { slice_index_or (face_samples decimals (node 1 1 2 3) YLow) 1 (pos 0)
        ≡ pos 966433 }
    ensures face_higher { slice_index_or (face_samples decimals (node 1 1 2 3) YLow) 33 (pos 0)
        ≡ pos 976432 }
    ensures face_last { slice_index_or (face_samples decimals (node 1 1 2 3) ZLow) 1088 (pos 0)
        ≡ pos 969664 }
{}

/// An edit touches the leaves whose cubes meet its region, and a camera or an away those whose rims change or that are
/// new, with the other viewpoints where they are.
pub fn touched_leaves()
    ensures by_an_edit { touched (near 2) corner_camera (fill_box (point 8 8 8) (point 8 8 8))
        ≡ node 0 0 0 0 ∷ node 0 1 0 0 ∷ node 0 0 1 0 ∷ node 0 1 1 0 ∷ node 0 0 0 1 ∷ node 0 1 0 1
        ∷ node 0 0 1 1 ∷ node 0 1 1 1 ∷ [] }
    ensures by_a_camera { length (touched (near 2) corner_camera (Event.Camera 0 (point 64 64 64)))
        ≡ 15 }
    ensures by_the_same_camera { touched (near 2) corner_camera (Event.Camera 0 (point 0 0 0))
        ≡ [] }
    ensures by_another_view { touched (near 2) corner_camera (Event.Camera 1 (point 64 64 64))
        ≡ node 0 2 2 2 ∷ node 0 3 2 2 ∷ node 0 2 3 2 ∷ node 0 3 3 2 ∷ node 0 2 2 3 ∷ node 0 3 2 3
        ∷ node 0 2 3 3 ∷ node 0 3 3 3 ∷ node 1 1 0 0 ∷ node 1 0 1 0 ∷ node 1 1 1 0 ∷ node 1 0 0 1
        ∷ node 1 1 0 1 ∷ node 1 0 1 1 ∷ [] }
    ensures by_a_view_that_goes { length (touched (near 2) two_views (Event.Away 0)) ≡ 7 }
    ensures by_a_view_that_is_nowhere { touched (near 2) two_views (Event.Away 2) ≡ [] }
{}

/// The transition triangles round a filled point in the middle of a coarse edge, on each of the six faces.
pub fn joints_on_each_face()
    ensures x_low { joint (seen_point (point 0 0 0) (point 32 9 8)) (node 1 1 0 0)
        ≡ (key 0 (point 32 9 7) Z ∷ key 0 (point 32 9 8) Y ∷ key 0 (point 32 8 8) Y ∷ [])
        ∷ (key 0 (point 32 8 8) Y ∷ key 0 (point 32 9 8) Y ∷ key 0 (point 32 9 8) Z ∷ []) ∷ [] }
    ensures y_low { joint (seen_point (point 0 0 0) (point 9 32 8)) (node 1 0 1 0)
        ≡ (key 0 (point 9 32 7) Z ∷ key 0 (point 8 32 8) X ∷ key 0 (point 9 32 8) X ∷ [])
        ∷ (key 0 (point 8 32 8) X ∷ key 0 (point 9 32 8) Z ∷ key 0 (point 9 32 8) X ∷ []) ∷ [] }
    ensures z_low { joint (seen_point (point 0 0 0) (point 9 8 32)) (node 1 0 0 1)
        ≡ (key 0 (point 9 7 32) Y ∷ key 0 (point 9 8 32) X ∷ key 0 (point 8 8 32) X ∷ [])
        ∷ (key 0 (point 8 8 32) X ∷ key 0 (point 9 8 32) X ∷ key 0 (point 9 8 32) Y ∷ []) ∷ [] }
    ensures x_high { joint (seen_point (point 64 64 64) (point 32 41 50)) (node 1 0 1 1)
        ≡ (key 0 (point 32 41 49) Z ∷ key 0 (point 32 40 50) Y ∷ key 0 (point 32 41 50) Y ∷ [])
        ∷ (key 0 (point 32 40 50) Y ∷ key 0 (point 32 41 50) Z ∷ key 0 (point 32 41 50) Y ∷ [])
        ∷ [] }
    ensures y_high { joint (seen_point (point 64 64 64) (point 41 32 50)) (node 1 1 0 1)
        ≡ (key 0 (point 41 32 49) Z ∷ key 0 (point 41 32 50) X ∷ key 0 (point 40 32 50) X ∷ [])
        ∷ (key 0 (point 40 32 50) X ∷ key 0 (point 41 32 50) X ∷ key 0 (point 41 32 50) Z ∷ [])
        ∷ [] }
    ensures z_high { joint (seen_point (point 64 64 64) (point 41 50 32)) (node 1 1 1 0)
        ≡ (key 0 (point 41 49 32) Y ∷ key 0 (point 40 50 32) X ∷ key 0 (point 41 50 32) X ∷ [])
        ∷ (key 0 (point 40 50 32) X ∷ key 0 (point 41 50 32) Y ∷ key 0 (point 41 50 32) X ∷ [])
        ∷ [] }
{}

/// A point filled in the corner of the world: one triangle, whose edges are the curves in the border.
pub fn border_of_corner_point()
    ensures triangles { block 0 (sample (still 0) corner_point_filled)
        (levels (still 0) corner_point_filled) (node 0 0 0 0)
        ≡ (key 0 (point 0 0 0) X ∷ key 0 (point 0 0 0) Y ∷ key 0 (point 0 0 0) Z ∷ []) ∷ [] }
    ensures border { border_edges 0 (sample (still 0) corner_point_filled)
        (levels (still 0) corner_point_filled)
        ≡ (key 0 (point 0 0 0) Y, key 0 (point 0 0 0) Z) ∷ (
          key 0 (point 0 0 0) Z,
          key 0 (point 0 0 0) X,
        ) ∷ (key 0 (point 0 0 0) X, key 0 (point 0 0 0) Y) ∷ [] }
{}

/// The ground across two levels, at the leaf beside the finer ones: 512 regular triangles and 48 transition triangles,
/// and 33 curves in the border, one of them on a lateral face.
pub fn counts_across_two_levels()
    ensures triangles { length (block 2 (sample (near 2) two_level_ground)
        (levels (near 2) two_level_ground) (node 1 1 0 0)) ≡ 560 }
    ensures transition_triangles { length (joint two_level_ground (node 1 1 0 0)) ≡ 48 }
    ensures keys { length (keys_of (block 2 (sample (near 2) two_level_ground)
        (levels (near 2) two_level_ground) (node 1 1 0 0))) ≡ 322 }
    ensures border { length (leaf_border 2 (sample (near 2) two_level_ground)
        (levels (near 2) two_level_ground) (node 1 1 0 0)) ≡ 33 }
{}
