//! No crack between blocks: the law, and the parts of which it is put together.
//!
//! Each part is said for every weight `w` of a pair of keys, of the flow: what the directed edges weigh less what their
//! reverses weigh.

ghost use Rattle.std.specs.Prelude.{◌≡◌, ℕ, ℤ, pos, ◌+ℤ◌};
ghost use Rattle.lattice.specs.declared.key.Key.{Key};
ghost use Rattle.lattice.specs.declared.node.Node.{Node};
ghost use Rattle.lattice.specs.Node.{IsNode};
ghost use Rattle.terrain.specs.Curves.{HaveSameNet, all_edges};
ghost use Rattle.terrain.specs.Samples.{Field};
ghost use Rattle.terrain.specs.Levels.{LevelMap, IsOctree, IsBalanced};
ghost use Rattle.terrain.specs.Blocks.{block, frame, frame_edges, net, leaf_border, border_edges, border, LieOnBorder};
ghost use Rattle.level_laws.specs.Balance.{IsFaceBalanced};
ghost use Rattle.seam_laws.specs.Flows.{flow};
ghost use Rattle.seam_laws.specs.Seams.{all, on_border, leaf_squares, leaf_rows, over_leaves};

/// The triangles of a leaf leave open the squares of its six faces, the fine ones on its transitional faces, and the
/// rows of lateral faces round those; its border is what of these lies on the border of the world.
pub fn leaves_leave_faces_and_rows()
    ensures triangles { (w : Key → Key → ℕ) (s : Field) (depth : ℕ) (m : LevelMap) (n : Node)
        → IsOctree depth m → IsNode depth n
        → flow w (all_edges (block depth s m n))
        ≡ leaf_squares w s all depth m n +ℤ leaf_rows w s all depth m n }
    ensures border { (w : Key → Key → ℕ) (s : Field) (depth : ℕ) (m : LevelMap) (n : Node)
        → IsOctree depth m → IsNode depth n
        → flow w (leaf_border depth s m n)
        ≡ leaf_squares w s (on_border depth) depth m n
        +ℤ leaf_rows w s (on_border depth) depth m n }
{}

/// Over all leaves the squares of their faces cancel, but for those on the border of the world.
pub fn faces_cancel()
    ensures { (w : Key → Key → ℕ) (s : Field) (depth : ℕ) (m : LevelMap) → IsFaceBalanced depth m
        → over_leaves depth m (leaf_squares w s all depth m)
        ≡ over_leaves depth m (leaf_squares w s (on_border depth) depth m) }
{}

/// Over all leaves the rows of lateral faces cancel, but for those on the border of the world.
pub fn sides_cancel()
    ensures { (w : Key → Key → ℕ) (s : Field) (depth : ℕ) (m : LevelMap) → IsFaceBalanced depth m
        → over_leaves depth m (leaf_rows w s all depth m)
        ≡ over_leaves depth m (leaf_rows w s (on_border depth) depth m) }
{}

/// No crack between blocks: for every field and every balanced level map, the triangles of a frame leave open just the
/// curves in the border of the world. So between two keys that don't lie on the border together a directed edge is used
/// as often as its reverse.
pub fn no_crack()
    ensures weights { (s : Field) (depth : ℕ) (m : LevelMap) → IsBalanced depth m
        → HaveSameNet (frame_edges (frame depth s m)) (border_edges depth s m) }
    ensures pairs { (s : Field) (depth : ℕ) (m : LevelMap) → IsBalanced depth m
        → (a b : Key) → net (frame_edges (frame depth s m)) a b ≡ border depth s m a b }
    ensures inside { (s : Field) (depth : ℕ) (m : LevelMap) → IsBalanced depth m
        → (a b : Key) → (LieOnBorder depth a b → ⊥)
        → net (frame_edges (frame depth s m)) a b ≡ pos 0 }
{}

/// Balance across faces is enough for it; balance across faces and edges is more.
pub fn no_crack_by_faces()
    ensures weights { (s : Field) (depth : ℕ) (m : LevelMap) → IsFaceBalanced depth m
        → HaveSameNet (frame_edges (frame depth s m)) (border_edges depth s m) }
    ensures balanced { (depth : ℕ) (m : LevelMap) → IsBalanced depth m → IsFaceBalanced depth m }
{}
