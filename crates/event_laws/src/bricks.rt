//! The law of what a brick is made from.

ghost use Rattle.std.specs.Prelude.{◌≡◌, ℕ};
ghost use Rattle.lattice.specs.declared.node.Node.{Node};
ghost use Rattle.lattice.specs.declared.point.Point.{Point};
ghost use Rattle.lattice.specs.Node.{cube};
ghost use Rattle.lattice.specs.Region.{IsWithin};
ghost use Rattle.terrain.specs.Blocks.{brick};
ghost use Rattle.terrain.specs.Levels.{LevelMap, rim};
ghost use Rattle.terrain.specs.Samples.{Field};
ghost use Rattle.event_laws.specs.Laws.{WorldsGiveBricks};

/// The law that a brick depends on the samples in its leaf's closed cube and its rim: two fields and two level maps
/// that agree on these give a node the same brick. No rim has a bit at level 0 where a map splits no node of level 0.
/// So a field that agrees with a history's at each point of the world gives each node the brick of the history.
pub fn bricks_read_their_leaf()
    ensures leaf { (depth : ℕ) (s t : Field) (m l : LevelMap) (n : Node) →
        ((p : Point) → IsWithin (cube n) p → s p ≡ t p) →
        rim depth m n ≡ rim depth l n → (n.level ≡ 0 → rim depth m n ≡ 0) →
        brick depth s m n ≡ brick depth t l n }
    ensures world { WorldsGiveBricks }
{}
