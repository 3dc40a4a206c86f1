//! What lies on the two sides of a square, and round a segment. The law that there is no crack doesn't rest on these:
//! its proof adds up flows.

ghost use Rattle.std.specs.Prelude.{◌≡◌, ℕ, ◌+◌, ◌⊎◌, ◌++◌, drop, map, not, take};
ghost use Rattle.lattice.specs.declared.node.Node.{Node};
ghost use Rattle.lattice.specs.declared.point.Axis.{Axis};
ghost use Rattle.lattice.specs.Face.{FaceAxis};
ghost use Rattle.lattice.specs.Node.{IsNode};
ghost use Rattle.level_laws.specs.Balance.{IsFaceBalanced};
ghost use Rattle.seam_laws.specs.Seams.{axis_on, node_after};
ghost use Rattle.seam_laws.specs.Sides.{cells_beside, turns_round};
ghost use Rattle.terrain.specs.Levels.{LevelMap};

/// A square off the border of the world is a face of no cell or of two: of those on the face between two nodes side by
/// side, where the level map is balanced.
pub fn squares_have_two_cells_or_none()
    ensures { (depth : ℕ) (m : LevelMap) (axis : Axis) (n : Node) → IsFaceBalanced depth m
        → IsNode depth n → IsNode depth (node_after axis n)
        → (cells_beside depth m n (node_after axis n)
        + cells_beside depth m (node_after axis n) n ≡ 0)
        ⊎ (cells_beside depth m n (node_after axis n)
        + cells_beside depth m (node_after axis n) n ≡ 2) }
{}

/// Round a segment off the border of the world the turns of lateral faces alternate: each is followed by the other one,
/// where the level map is balanced.
pub fn turns_round_a_segment_alternate()
    ensures { (depth : ℕ) (m : LevelMap) (axis : Axis) (along : FaceAxis) (n : Node)
        → IsFaceBalanced depth m → IsNode depth n → IsNode depth (node_after axis n)
        → IsNode depth (node_after (axis_on axis along) n)
        → IsNode depth (node_after (axis_on axis along) (node_after axis n))
        → let turns = turns_round depth m n (node_after axis n)
        (node_after (axis_on axis along) (node_after axis n))
        (node_after (axis_on axis along) n) in
        drop 1 turns ++ take 1 turns ≡ map not turns }
{}
