//! The law of what is split in a balanced level map.

ghost use Rattle.std.specs.Prelude.{◌≡◌, ◌+◌, ℕ, IsTrue};
ghost use Rattle.lattice.specs.declared.node.Node.{Node};
ghost use Rattle.lattice.specs.Node.{IsNode};
ghost use Rattle.terrain.specs.Levels.{LevelMap};
ghost use Rattle.level_laws.specs.Balance.{IsFaceBalanced, ShareFace};
ghost use Rattle.level_laws.specs.Laws.{SplitBesideSplit};

/// The law that a balanced level map splits each node that shares a segment with a split node of the level below, and
/// that one balanced across faces splits each that shares part of a face with one.
pub fn balance_splits_nodes_beside_split_ones()
    ensures segments { SplitBesideSplit }
    ensures faces { (depth : ℕ) (m : LevelMap) → IsFaceBalanced depth m → (n low : Node)
        → IsNode depth n → n.level ≡ low.level + 1 → IsTrue (m low) → ShareFace n low
        → IsTrue (m n) }
{}
