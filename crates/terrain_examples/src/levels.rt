//! Splits, leaves and rims of the worked examples.

ghost use Rattle.std.specs.Prelude.{◌≡◌, true, false, ◌∷◌, [], length};
ghost use Rattle.lattice.specs.declared.point.Face.TheVariants.{XLow, XHigh, YLow, YHigh, ZLow, ZHigh};
ghost use Rattle.terrain.specs.Levels.{levels, split, leaves, rim, is_transitional, is_wanted, viewpoints};
ghost use Rattle.terrain_examples.specs.Examples.{point, node, near, corner_camera, far_camera, no_view_left, one_view_back, one_view_left, two_views};

/// With the camera in a corner of a world of depth 2, the root and the corner's node of level 1 are split.
pub fn leaves_round_a_corner()
    ensures root { levels (near 2) corner_camera (node 2 0 0 0) ≡ true }
    ensures corner { levels (near 2) corner_camera (node 1 0 0 0) ≡ true }
    ensures beside { levels (near 2) corner_camera (node 1 1 0 0) ≡ false }
    ensures lowest { levels (near 2) corner_camera (node 0 0 0 0) ≡ false }
    ensures off_the_world { levels (near 2) corner_camera (node 1 2 0 0) ≡ false }
    ensures leaves { leaves 2 (levels (near 2) corner_camera)
        ≡ node 0 0 0 0 ∷ node 0 1 0 0 ∷ node 0 0 1 0 ∷ node 0 1 1 0 ∷ node 0 0 0 1 ∷ node 0 1 0 1
        ∷ node 0 0 1 1 ∷ node 0 1 1 1
        ∷ node 1 1 0 0 ∷ node 1 0 1 0 ∷ node 1 1 1 0 ∷ node 1 0 0 1 ∷ node 1 1 0 1 ∷ node 1 0 1 1
        ∷ node 1 1 1 1 ∷ [] }
    ensures no_camera { leaves 2 (levels (near 2) []) ≡ node 2 0 0 0 ∷ [] }
{}

/// The camera (32,32,16) in a world of depth 3: a node is split for balance across an edge too.
pub fn splits_across_an_edge()
    ensures root { split (near 3) (point 32 32 16 ∷ []) (node 3 0 0 0) ≡ true }
    ensures wanted { is_wanted (near 3) (point 32 32 16 ∷ []) (node 2 0 0 0) ≡ true }
    ensures wanted_below { is_wanted (near 3) (point 32 32 16 ∷ []) (node 1 1 1 0) ≡ true }
    ensures not_wanted { is_wanted (near 3) (point 32 32 16 ∷ []) (node 2 1 0 0) ≡ false }
    ensures not_wanted_above { is_wanted (near 3) (point 32 32 16 ∷ []) (node 1 1 1 1) ≡ false }
    ensures at_the_camera { split (near 3) (point 32 32 16 ∷ []) (node 2 0 0 0) ≡ true }
    ensures across_x { split (near 3) (point 32 32 16 ∷ []) (node 2 1 0 0) ≡ true }
    ensures across_y { split (near 3) (point 32 32 16 ∷ []) (node 2 0 1 0) ≡ true }
    ensures across_the_edge { split (near 3) (point 32 32 16 ∷ []) (node 2 1 1 0) ≡ true }
    ensures above { split (near 3) (point 32 32 16 ∷ []) (node 2 0 0 1) ≡ false }
    ensures above_x { split (near 3) (point 32 32 16 ∷ []) (node 2 1 0 1) ≡ false }
    ensures above_y { split (near 3) (point 32 32 16 ∷ []) (node 2 0 1 1) ≡ false }
    ensures above_the_edge { split (near 3) (point 32 32 16 ∷ []) (node 2 1 1 1) ≡ false }
    ensures low { split (near 3) (point 32 32 16 ∷ []) (node 1 0 0 0) ≡ true }
    ensures low_x { split (near 3) (point 32 32 16 ∷ []) (node 1 1 0 0) ≡ true }
    ensures low_y { split (near 3) (point 32 32 16 ∷ []) (node 1 0 1 0) ≡ true }
    ensures low_both { split (near 3) (point 32 32 16 ∷ []) (node 1 1 1 0) ≡ true }
    ensures low_above { split (near 3) (point 32 32 16 ∷ []) (node 1 0 0 1) ≡ false }
    ensures low_far { split (near 3) (point 32 32 16 ∷ []) (node 1 2 0 0) ≡ false }
{}

/// The camera (32,16,16) in a world of depth 3: the node across a face is split for balance, and isn't wanted split.
pub fn splits_across_a_face()
    ensures root { split (near 3) (point 32 16 16 ∷ []) (node 3 0 0 0) ≡ true }
    ensures at_the_camera { split (near 3) (point 32 16 16 ∷ []) (node 2 0 0 0) ≡ true }
    ensures not_wanted { is_wanted (near 3) (point 32 16 16 ∷ []) (node 2 1 0 0) ≡ false }
    ensures across_x { split (near 3) (point 32 16 16 ∷ []) (node 2 1 0 0) ≡ true }
    ensures across_y { split (near 3) (point 32 16 16 ∷ []) (node 2 0 1 0) ≡ false }
    ensures across_the_edge { split (near 3) (point 32 16 16 ∷ []) (node 2 1 1 0) ≡ false }
    ensures above { split (near 3) (point 32 16 16 ∷ []) (node 2 0 0 1) ≡ false }
    ensures above_x { split (near 3) (point 32 16 16 ∷ []) (node 2 1 0 1) ≡ false }
    ensures low { split (near 3) (point 32 16 16 ∷ []) (node 1 0 0 0) ≡ true }
    ensures low_x { split (near 3) (point 32 16 16 ∷ []) (node 1 1 0 0) ≡ true }
    ensures low_y { split (near 3) (point 32 16 16 ∷ []) (node 1 0 1 0) ≡ false }
    ensures low_far { split (near 3) (point 32 16 16 ∷ []) (node 1 2 0 0) ≡ false }
{}

/// The rims of leaves before and after the camera goes from one corner of the world to the opposite one.
pub fn rims_of_two_cameras()
    ensures along_x { rim 2 (levels (near 2) corner_camera) (node 1 1 0 0) ≡ 4096 }
    ensures along_x_after { rim 2 (levels (near 2) far_camera) (node 1 1 0 0) ≡ 16777216 }
    ensures along_y { rim 2 (levels (near 2) corner_camera) (node 1 0 1 0) ≡ 1024 }
    ensures along_y_after { rim 2 (levels (near 2) far_camera) (node 1 0 1 0) ≡ 4194304 }
    ensures along_z { rim 2 (levels (near 2) corner_camera) (node 1 0 0 1) ≡ 16 }
    ensures along_z_after { rim 2 (levels (near 2) far_camera) (node 1 0 0 1) ≡ 65536 }
    ensures along_xy { rim 2 (levels (near 2) corner_camera) (node 1 1 1 0) ≡ 512 }
    ensures along_xy_after { rim 2 (levels (near 2) far_camera) (node 1 1 1 0) ≡ 2097152 }
    ensures along_xyz { rim 2 (levels (near 2) corner_camera) (node 1 1 1 1) ≡ 1 }
    ensures lowest { rim 2 (levels (near 2) corner_camera) (node 0 1 1 1) ≡ 0 }
{}

/// With the camera in a corner, three leaves of level 1 have one transitional face each.
pub fn transitional_faces_round_a_corner()
    ensures along_x { is_transitional 2 (levels (near 2) corner_camera) (node 1 1 0 0) XLow ≡ true }
    ensures along_x_high { is_transitional 2 (levels (near 2) corner_camera) (node 1 1 0 0) XHigh
        ≡ false }
    ensures along_x_y { is_transitional 2 (levels (near 2) corner_camera) (node 1 1 0 0) YLow
        ≡ false }
    ensures along_y { is_transitional 2 (levels (near 2) corner_camera) (node 1 0 1 0) YLow ≡ true }
    ensures along_y_high { is_transitional 2 (levels (near 2) corner_camera) (node 1 0 1 0) YHigh
        ≡ false }
    ensures along_z { is_transitional 2 (levels (near 2) corner_camera) (node 1 0 0 1) ZLow ≡ true }
    ensures along_z_high { is_transitional 2 (levels (near 2) corner_camera) (node 1 0 0 1) ZHigh
        ≡ false }
    ensures across_an_edge { is_transitional 2 (levels (near 2) corner_camera) (node 1 1 1 0) XLow
        ≡ false }
{}

/// The leaves for two viewpoints in opposite corners, once one of them goes away, once both did, and once one is back:
/// an away of a viewpoint that is nowhere changes nothing.
pub fn leaves_of_two_views()
    ensures both { length (leaves 2 (levels (near 2) two_views)) ≡ 22 }
    ensures wanted { is_wanted (near 2) (viewpoints two_views) (node 1 0 0 0) ≡ true }
    ensures wanted_too { is_wanted (near 2) (viewpoints two_views) (node 1 1 1 1) ≡ true }
    ensures not_wanted { is_wanted (near 2) (viewpoints two_views) (node 1 1 0 0) ≡ false }
    ensures one { length (leaves 2 (levels (near 2) one_view_left)) ≡ 15 }
    ensures left { levels (near 2) one_view_left (node 1 0 0 0) ≡ false }
    ensures stayed { levels (near 2) one_view_left (node 1 1 1 1) ≡ true }
    ensures none { leaves 2 (levels (near 2) no_view_left) ≡ node 2 0 0 0 ∷ [] }
    ensures back { leaves 2 (levels (near 2) one_view_back)
        ≡ leaves 2 (levels (near 2) corner_camera) }
{}
